//! How clauses are entered: input clauses, and then lemmas.
ghost use Rattle.std.specs.Prelude.{◌≡◌, ◌*◌, ◌<◌, length, is_ok};
ghost use Rattle.cnf.specs.Arranging.{arranged};
ghost use Rattle.drup.specs.Forward.{clause as tell_clause, lemma as tell_lemma};
ghost use Rattle.drup.specs.Box.{Happens, called};
ghost use Rattle.job.specs.Seen.{view, Becomes};
ghost use Rattle.job.specs.History.{box_in};
ghost use Rattle.job.specs.Sound.{Sound};
ghost use Rattle.job.specs.Calls.{refusal, HasRoom, clause_answer, lemma_answer, laying, storing, counting_input, counting_lemma, with_input, with_lemma};

use crate::faults::JobFault;
use crate::jobs::Job;
use crate::rows::{ClauseRow, StepRow};
use cnf::drafts::arranging::arrange;
use cnf::literals::Literal;

// The length of a clause is cast by `as`: where there is room for it, it is at most 32768.
impl Job<'_> {
    /// Copies literals behind those in use.
    fn lay(&mut self, clause: &[Literal])
        requires { HasRoom (view self.old) (length clause.now) }
        ensures { Becomes self.old (laying (view self.old) clause.now (length clause.now)) self.new }
    {
        let start = self.used as usize;
        self.literals[start..start + clause.len()].copy_from_slice(clause);
    }

    /// Writes a clause and its row behind those in use.
    fn store(&mut self, clause: &[Literal], entered: u16)
        requires { HasRoom (view self.old) (length clause.now) }
        ensures { Becomes self.old (storing (view self.old) clause.now entered) self.new }
    {
        self.lay(clause);
        self.records[self.clauses as usize] = ClauseRow {
            start: self.used,
            len: clause.len() as u16,
            entered,
            struck: None,
            kept: false,
        };
    }

    /// Counts what was stored as an input clause with so many literals.
    fn count_input(&mut self, count: u16)
        requires room { HasRoom (view self.old) count }
        requires sound { Sound (counting_input (view self.old) count) }
        ensures { Becomes self.old (counting_input (view self.old) count) self.new }
    {
        self.inputs += 1;
        self.clauses += 1;
        self.used += count;
        self.judged = false;
    }

    /// Counts what was stored as a lemma with so many literals, and adds its step.
    fn count_lemma(&mut self, count: u16)
        requires room { HasRoom (view self.old) count }
        requires place { self.old.taken < 2 * self.old.size.places }
        requires sound { Sound (counting_lemma (view self.old) count) }
        ensures { Becomes self.old (counting_lemma (view self.old) count) self.new }
    {
        let number = self.clauses + 1;
        self.steps[self.taken as usize] = StepRow::Lemma(number);
        self.clauses = number;
        self.taken += 1;
        self.used += count;
        self.judged = false;
    }

    /// Enters an input clause, its literals in any order, and gives its number.
    pub fn clause(&mut self, literals: &[Literal]) -> Result<u16, JobFault>
        ensures becomes { Becomes self.old (with_input (is_ok result) (view self.old) (arranged literals.now)) self.new }
        ensures answer { result ≡ clause_answer (view self.old) literals.now }
        ensures happens { Happens (box_in (view self.old)) (called (tell_clause literals.now) (refusal result)) (box_in (view self.new)) }
    {
        let draft = arrange(self.size.variables, literals);
        let clause = draft.clause()?;
        if self.taken > 0 {
            return Err(JobFault::Begun);
        }
        if self.is_full(clause.len()) {
            return Err(JobFault::Full);
        }
        self.store(clause, 0);
        self.count_input(clause.len() as u16);
        Ok(self.clauses)
    }

    /// Adds a step that learns a clause, its literals in any order, and gives the clause's number.
    pub fn lemma(&mut self, literals: &[Literal]) -> Result<u16, JobFault>
        ensures becomes { Becomes self.old (with_lemma (is_ok result) (view self.old) (arranged literals.now)) self.new }
        ensures answer { result ≡ lemma_answer (view self.old) literals.now }
        ensures happens { Happens (box_in (view self.old)) (called (tell_lemma literals.now) (refusal result)) (box_in (view self.new)) }
    {
        let draft = arrange(self.size.variables, literals);
        let clause = draft.clause()?;
        if self.is_ended() {
            return Err(JobFault::Ended);
        }
        if self.is_full(clause.len()) {
            return Err(JobFault::Full);
        }
        self.store(clause, self.taken + 1);
        self.count_lemma(clause.len() as u16);
        Ok(self.clauses)
    }
}
