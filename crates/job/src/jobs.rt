//! A job: four lent lists, what of each is in use, and what ties them together.
ghost use Rattle.job.specs.View.{texts_in};
ghost use Rattle.job.specs.Sound.{Range, Rooms, Counts, Laid, Rising, Complete, Numbered, Unended, Dated, Ordered};

use crate::jobs::opening::Size;
use crate::rows::{ClauseRow, StepRow};
use cnf::literals::Literal;

pub mod checking;
pub mod entering;
pub mod filling;
pub mod judging;
pub mod looking;
pub mod marking;
pub mod opening;
pub mod orders;
pub mod replaying;
pub mod reports;
pub mod striking;
pub mod texts;
pub mod walking;

/// A job over four lists that the caller lends: input clauses, and then steps.
// Counts are u16, as numbers and rows are. Where one is an index it is cast by `as`: of what `usize::from` gives, a proof
// knows only that it is equal.
#[derive(Drop)]
pub struct Job<'a> {
    size: Size,
    records: &'a mut [ClauseRow],
    steps: &'a mut [StepRow],
    literals: &'a mut [Literal],
    arcs: &'a mut [u16],
    /// How many clauses are input clauses.
    inputs: u16,
    /// How many clauses stand.
    clauses: u16,
    /// How many steps stand.
    taken: u16,
    /// How many literals stand.
    used: u16,
    /// Whether marks and arcs are those of an accepting check, with no call accepted since.
    // A flag alone: the verdict itself is in the lent lists, as their marks and arcs.
    judged: bool,
    ghost range: { Range size.variables size.places size.room },
    ghost rooms: { Rooms size.places size.room records.now steps.now literals.now },
    ghost counts: { Counts size.places size.room inputs clauses taken used },
    ghost laid: { Laid records.now clauses used },
    ghost rising: { Rising size.variables (texts_in records.now literals.now clauses) clauses },
    ghost complete: { Complete (texts_in records.now literals.now clauses) inputs steps.now taken clauses },
    ghost numbered: { Numbered (texts_in records.now literals.now clauses) inputs steps.now taken },
    ghost unended: { Unended (texts_in records.now literals.now clauses) steps.now taken },
    ghost dated: { Dated records.now (texts_in records.now literals.now clauses) inputs steps.now taken clauses },
    ghost ordered: { Ordered records.now clauses },
}
