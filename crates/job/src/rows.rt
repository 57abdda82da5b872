//! The plain rows of the lists that a caller lends.

/// Where a clause's literals stand, when it was entered and struck, and whether the last check kept it.
#[derive(Clone, Copy, PartialEq, Eq, Debug)]
pub struct ClauseRow {
    // A place and a length, and no slice: rows and literals both lie in lists that are lent and fixed.
    /// The place of its first literal.
    pub start: u16,
    /// How many literals it has.
    pub len: u16,
    /// The step of its entry. It is 0 for an input clause, which the rules of a job enter before the first step.
    pub entered: u16,
    /// The step that struck it, if one did.
    pub struck: Option<u16>,
    /// The mark of a check.
    pub kept: bool,
}

/// A step of a proof, by the number of its clause. Clauses count from 1.
#[derive(Clone, Copy, PartialEq, Eq, Debug)]
pub enum StepRow {
    /// The clause was learned.
    Lemma(u16),
    /// The clause was struck.
    Strike(u16),
}
