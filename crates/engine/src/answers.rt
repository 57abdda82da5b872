//! What an engine answers.
use cnf::literals::Forced;

/// What an engine finds among the texts that are on.
#[derive(Clone, Copy, PartialEq, Eq, Debug)]
pub enum Answer {
    /// Every literal of the text with this number is false.
    Conflict(u16),
    /// The literal has no value, and every other literal of the text with this number is false.
    Forced(Forced),
    /// There is neither.
    Nothing,
}
