//! How clauses are struck, and how steps are taken back.
ghost use Rattle.std.specs.Prelude.{◌≡◌, ◌*◌, ◌<◌, ◌≤◌, true, is_ok};
ghost use Rattle.cnf.specs.Arranging.{arranged};
ghost use Rattle.drup.specs.Forward.{strike as tell_strike, withdraw as tell_withdraw};
ghost use Rattle.drup.specs.Box.{Happens, called};
ghost use Rattle.job.specs.declared.rows.StepRow.TheVariants.{Lemma, Strike};
ghost use Rattle.job.specs.View.{Entered};
ghost use Rattle.job.specs.Seen.{view, Becomes};
ghost use Rattle.job.specs.History.{box_in};
ghost use Rattle.job.specs.Sound.{Sound};
ghost use Rattle.job.specs.Calls.{refusal, copy_in, strike_answer, with_strike, last_step, withdraw_answer, without};

use crate::faults::JobFault;
use crate::jobs::Job;
use crate::rows::StepRow;
use cnf::drafts::arranging::arrange;
use cnf::literals::Literal;

impl Job<'_> {
    /// Adds a step that strikes the live clause with this number.
    fn put_strike(&mut self, n: u16)
        requires number { Entered self.old.clauses n }
        requires place { self.old.taken < 2 * self.old.size.places }
        requires sound { Sound (with_strike true (view self.old) n) }
        ensures { Becomes self.old (with_strike true (view self.old) n) self.new }
    {
        self.steps[self.taken as usize] = StepRow::Strike(n);
        self.records[n as usize - 1].struck = Some(self.taken + 1);
        self.taken += 1;
        self.judged = false;
    }

    /// Adds a step that strikes the live clause with these literals, in any order, of several copies the one with the
    /// highest number, and gives its number.
    pub fn strike(&mut self, literals: &[Literal]) -> Result<u16, JobFault>
        ensures becomes { Becomes self.old (with_strike (is_ok result) (view self.old) (copy_in (view self.old) (arranged literals.now))) self.new }
        ensures answer { result ≡ strike_answer (view self.old) literals.now }
        ensures happens { Happens (box_in (view self.old)) (called (tell_strike literals.now) (refusal result)) (box_in (view self.new)) }
    {
        let draft = arrange(self.size.variables, literals);
        let clause = draft.clause()?;
        if self.is_ended() {
            return Err(JobFault::Ended);
        }
        let n = self.live_copy(clause).ok_or(JobFault::NoneLive)?;
        self.put_strike(n);
        Ok(n)
    }

    /// Takes back the lemma with this number, which the latest step learned.
    fn forget(&mut self, n: u16)
        requires number { Entered self.old.clauses n }
        requires some { 1 ≤ self.old.taken }
        requires sound { Sound (without true (view self.old) (Lemma n)) }
        ensures { Becomes self.old (without true (view self.old) (Lemma n)) self.new }
    {
        self.used = self.records[n as usize - 1].start;
        self.clauses = n - 1;
        self.taken -= 1;
        self.judged = false;
    }

    /// Brings the clause with this number back to life, which the latest step struck.
    fn revive(&mut self, n: u16)
        requires number { Entered self.old.clauses n }
        requires some { 1 ≤ self.old.taken }
        requires sound { Sound (without true (view self.old) (Strike n)) }
        ensures { Becomes self.old (without true (view self.old) (Strike n)) self.new }
    {
        self.records[n as usize - 1].struck = None;
        self.taken -= 1;
        self.judged = false;
    }

    /// Takes back the latest step, and gives it: a lemma is gone, and its places are used again; a struck clause lives
    /// again.
    pub fn withdraw(&mut self) -> Result<StepRow, JobFault>
        ensures becomes { Becomes self.old (without (is_ok result) (view self.old) (last_step (view self.old))) self.new }
        ensures answer { result ≡ withdraw_answer (view self.old) }
        ensures happens { Happens (box_in (view self.old)) (called tell_withdraw (refusal result)) (box_in (view self.new)) }
    {
        let step = self.last().ok_or(JobFault::NoStep)?;
        match step {
            StepRow::Lemma(n) => self.forget(n),
            StepRow::Strike(n) => self.revive(n),
        }
        Ok(step)
    }
}
