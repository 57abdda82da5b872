//! The way back over the steps.
ghost use Rattle.std.specs.Prelude.{◌≡◌, suc, ◌<◌, slice_index_or};
ghost use Rattle.job.specs.View.{blank_step};
ghost use Rattle.job.specs.History.{inputs_of, before};
ghost use Rattle.job.specs.Seen.{view, SameLent};
ghost use Rattle.job.specs.CheckLists.{Framed};
ghost use Rattle.job.specs.CheckShowing.{Shows, Holds};
ghost use Rattle.job.specs.CheckWalking.{Addable, added, Roomy, Ready, Back, Walked};

use crate::jobs::Job;
use crate::jobs::reports::Tally;
use crate::rows::StepRow;
use engine::calls;
use engine::contract::Engine;

impl Tally {
    /// Adds what a step back counts.
    fn add(&mut self, more: Tally)
        requires { Addable self.old more }
        ensures { self.new ≡ added self.old more }
    {
        self.lemmas += more.lemmas;
        self.arcs += more.arcs;
    }
}

impl Job<'_> {
    /// Goes one step back: a struck clause is turned on again; a lemma is turned off, and tried if it is kept. Where it
    /// passes, or was not tried, gives what the step counts.
    fn back<E: Engine>(&mut self, engine: &mut E, i: u16) -> Option<Tally>
        requires holds { Holds (E.meaning engine.old) (view self.old) }
        requires rooms { Roomy (view self.old) }
        requires step { i < self.old.taken }
        requires shows { Shows (E.meaning engine.old) (inputs_of (view self.old)) (before (view self.old) (suc i)) }
        ensures lent { SameLent self.old self.new }
        ensures goes { Back (view self.old) (E.meaning engine.old) (slice_index_or (view self.old).steps i blank_step) result (view self.new) (E.meaning engine.new) }
    {
        match self.steps[i as usize] {
            StepRow::Strike(n) => {
                calls::on(engine, n);
                Some(Tally::default())
            }
            StepRow::Lemma(n) => {
                calls::off(engine, n);
                if !self.records[n as usize - 1].kept {
                    return Some(Tally::default());
                }
                let arcs = self.judge(engine, n)?;
                Some(Tally { lemmas: 1, arcs })
            }
        }
    }

    /// Goes back over all steps, and counts the lemmas that pass; refuses with the step, counted from 1, whose lemma does
    /// not.
    pub(crate) fn walk<E: Engine>(&mut self, engine: &mut E) -> Result<Tally, usize>
        requires ready { Ready (view self.old) (E.meaning engine.old) }
        ensures lent { SameLent self.old self.new }
        ensures framed { Framed (view self.old) (view self.new) }
        ensures walked { Walked (view self.old) result (view self.new) (E.meaning engine.new) }
    {
        let mut tally = Tally::default();
        for i in (0..self.taken).rev() {
            let Some(more) = self.back(engine, i) else {
                return Err(i as usize + 1);
            };
            tally.add(more);
        }
        Ok(tally)
    }
}
