//! What a check writes into the lists.
ghost use Rattle.std.specs.Prelude.{◌≡◌, ℕ, ◌+◌, ◌≤◌, length, replicate};
ghost use Rattle.std.proofs.Math.Seq.{paste};
ghost use Rattle.cnf.specs.Clauses.{◌∈◌};
ghost use Rattle.drup.specs.Marks.{sieved};
ghost use Rattle.drup.specs.Reading.{marks_of};
ghost use Rattle.job.specs.View.{marks, with_rows, with_arcs, Entered};
ghost use Rattle.job.specs.History.{inputs_of};
ghost use Rattle.job.specs.Seen.{view, Becomes};
ghost use Rattle.job.specs.CheckLists.{mark_all, unmarked};
ghost use Rattle.job.specs.Checking.{wiped};

use crate::jobs::Job;

impl Job<'_> {
    /// Sets all arcs to 0.
    fn wipe(&mut self)
        ensures { Becomes self.old (with_arcs (replicate (length (view self.old).arcs) 0) (view self.old)) self.new }
    {
        self.arcs.fill(0);
    }

    /// Takes the marks of all clauses away.
    fn unmark(&mut self)
        ensures { Becomes self.old (with_rows (unmarked self.old.clauses (view self.old).rows) (view self.old)) self.new }
    {
        for row in &mut self.records[..self.clauses as usize] {
            row.kept = false;
        }
    }

    /// Sets all arcs to 0, and takes all marks away.
    pub(crate) fn clear(&mut self)
        ensures { Becomes self.old (wiped (view self.old)) self.new }
    {
        self.wipe();
        self.unmark();
    }

    /// Marks the clauses with these numbers.
    pub(crate) fn keep(&mut self, numbers: &[u16])
        requires { (n : ℕ) → n ∈ numbers.now → Entered self.old.clauses n }
        ensures { Becomes self.old (with_rows (mark_all numbers.now (view self.old).rows) (view self.old)) self.new }
    {
        for number in numbers {
            self.records[*number as usize - 1].kept = true;
        }
    }

    /// Writes a row into the arc list, from this place on.
    pub(crate) fn lay_row(&mut self, at: usize, row: &[u16])
        requires { at + length row.now ≤ length self.old.arcs.now }
        ensures { Becomes self.old (with_arcs (paste (view self.old).arcs at row.now (length row.now)) (view self.old)) self.new }
    {
        self.arcs[at..at + row.len()].copy_from_slice(row);
    }

    /// How many input clauses are marked.
    pub(crate) fn kept_inputs(&self) -> usize
        ensures { result ≡ length (sieved (marks_of (marks (view self.now))) (inputs_of (view self.now))) }
    {
        self.records[..self.inputs as usize]
            .iter()
            .filter(|row| row.kept)
            .count()
    }
}
