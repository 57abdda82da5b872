//! What a check reports.

/// What an accepting check reports.
#[derive(Clone, Copy, PartialEq, Eq, Debug)]
pub struct Report {
    /// How many input clauses are kept.
    pub inputs: usize,
    /// How many lemmas are kept.
    pub lemmas: usize,
    /// How many numbers stand in the rows of the kept lemmas.
    pub arcs: usize,
    /// How often the engine answered.
    pub answers: u32,
}

/// How many lemmas passed, and how many numbers stand in their rows.
#[derive(Clone, Copy, Default)]
pub(crate) struct Tally {
    pub lemmas: usize,
    pub arcs: usize,
}
