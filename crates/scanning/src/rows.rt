//! The record of a text.

/// Where a text stands in the literal places, and whether it is on. The places are lent and fixed, so a row has a start
/// and a length in them.
#[derive(Clone, Copy, PartialEq, Eq, Default, Debug)]
pub struct TextRow {
    pub start: usize,
    pub length: usize,
    pub on: bool,
}
