//! Reads a formula in DIMACS form from standard input and prints it in standard form, or the line of its refusal.
#![tactic(auto)]

use std::io::Read;
use text::standard::print_standard;

/// The longest line of a refusal, and to spare.
const REFUSAL: usize = 64;

fn main(rt: HostRuntime) -> anyhow::Result<()> {
    let mut text = Vec::new(rt.alloc());
    rt.stdin().read_to_end(&mut text)?;
    let room = text.len().saturating_add(REFUSAL);
    let mut out = vec![in rt.alloc(); 0u8; room]?;
    let end = print_standard(rt.alloc(), &text, &mut out)?;
    rt.write_all(&out[..end])?;
    Ok(())
}
