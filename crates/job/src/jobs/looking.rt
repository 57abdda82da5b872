//! What can be seen of a job without changing it.
ghost use Rattle.std.specs.Prelude.{◌≡◌, ◌-◌, not, ◌&&◌, slice_index_or};
ghost use Rattle.drup.specs.History.{same_clause, is_struck, ended};
ghost use Rattle.job.specs.View.{blank_row, text_in, texts, Entered};
ghost use Rattle.job.specs.Seen.{view};
ghost use Rattle.job.specs.History.{steps_of};
ghost use Rattle.job.specs.Calls.{FoundCopy, FoundLast};
ghost use Rattle.job.specs.Calls.{is_full as no_room};

use crate::jobs::Job;
use crate::records::ClauseRecord;
use crate::rows::StepRow;
use cnf::literals::Literal;
use engine::looks::text_at;

/// Whether two clauses have the same literals; both stand by rising variable.
// Pair by pair up to the first that differs, since most clauses differ in their first literals.
// Variable and sign in one test: by `==` of literals they are two branches, and clauses that differ by a sign cost up to four times as much.
fn same_clause(a: &[Literal], b: &[Literal]) -> bool
    ensures { result ≡ same_clause a.now b.now }
{
    a.len() == b.len()
        && a.iter().zip(b).all(|(k, l)| (k.variable == l.variable) & (k.negated == l.negated))
}

impl Job<'_> {
    /// The literals of the clause with this number.
    pub(crate) fn text(&self, n: u16) -> &[Literal]
        requires { Entered self.now.clauses n }
        ensures { result.now ≡ text_in (texts (view self.now)) n }
    {
        let row = self.records[n as usize - 1];
        text_at(self.literals, row.start as usize, row.len as usize)
    }

    /// The record of the clause with this number.
    pub(crate) fn record(&self, n: u16) -> ClauseRecord
        requires { Entered self.now.clauses n }
        ensures { result.row ≡ slice_index_or self.now.records.now (n - 1) blank_row }
    {
        ClauseRecord::of(self.records[n as usize - 1]).unwrap()
    }

    /// The latest step.
    pub(crate) fn last(&self) -> Option<StepRow>
        ensures { FoundLast (view self.now) result }
    {
        let before = self.taken.checked_sub(1)?;
        Some(self.steps[before as usize])
    }

    /// Whether the latest step is the empty lemma.
    pub(crate) fn is_ended(&self) -> bool
        ensures { result ≡ ended (steps_of (view self.now)) }
    {
        match self.last() {
            Some(StepRow::Lemma(n)) => self.text(n).is_empty(),
            _ => false,
        }
    }

    /// Whether no clause place is left, or fewer literal places than these.
    pub(crate) fn is_full(&self, count: usize) -> bool
        ensures { result ≡ no_room (view self.now) count }
    {
        self.size.places <= self.clauses as usize || self.size.room - (self.used as usize) < count
    }

    /// Whether the clause with this number is live and has these literals.
    fn is_live_copy(&self, n: u16, clause: &[Literal]) -> bool
        requires { Entered self.now.clauses n }
        ensures { result ≡ (same_clause clause.now (text_in (texts (view self.now)) n) && not (is_struck n (steps_of (view self.now)))) }
    {
        same_clause(clause, self.text(n)) && self.record(n).is_live()
    }

    /// The highest number of a live clause with these literals.
    pub(crate) fn live_copy(&self, clause: &[Literal]) -> Option<u16>
        ensures { FoundCopy (view self.now) clause.now result }
    {
        (1..=self.clauses)
            .rev()
            .find(|n| self.is_live_copy(*n, clause))
    }
}
