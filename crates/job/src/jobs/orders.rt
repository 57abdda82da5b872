//! Calls as data.

use cnf::literals::Literal;

/// A call of a job, with its literals.
#[derive(Clone, Copy, PartialEq, Eq, Debug)]
pub enum Order<'a> {
    /// Enter an input clause.
    Clause(&'a [Literal]),
    /// Learn a clause.
    Lemma(&'a [Literal]),
    /// Strike a clause.
    Strike(&'a [Literal]),
    /// Take the latest step back.
    Withdraw,
    /// Check the proof.
    Check,
}
