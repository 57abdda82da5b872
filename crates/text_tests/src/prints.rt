//! Compares a print with what it should be.
use anyhow::{Result, ensure};
use std::alloc::Global;
use text::standard::print_standard;

/// The text prints as this, and leaves the bytes after it alone.
pub fn prints(heap: Global, text: &[u8], expected: &[u8]) -> Result<()> {
    let mut out = [7u8; 128];
    let end = print_standard(heap, text, &mut out)?;
    ensure!(out.get(..end) == Some(expected), "another print");
    ensure!(
        end == 128 || out[127] == 7,
        "a byte after the print is written"
    );
    Ok(())
}
