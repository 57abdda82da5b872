//! What a check does to the engine before and after the way back.
ghost use Rattle.std.specs.Prelude.{◌≡◌, false, length, replicate};
ghost use Rattle.engine.specs.Meaning.{with_on, with_mark};
ghost use Rattle.trial.specs.Numbered.{Numbered};
ghost use Rattle.job.specs.View.{texts};
ghost use Rattle.job.specs.Seen.{view};
ghost use Rattle.job.specs.CheckShowing.{Shut};
ghost use Rattle.job.specs.CheckFrame.{filled, Large, Lit};

use crate::jobs::Job;
use engine::calls;
use engine::contract::Engine;

/// Turns a text off, if it is on.
fn put_out<E: Engine>(engine: &mut E, number: u16)
    requires shut { Shut (E.meaning engine.old) }
    requires numbered { Numbered (E.meaning engine.old).texts number }
    ensures does { E.meaning engine.new ≡ with_mark number false (E.meaning engine.old) }
{
    let _ = engine.off(number);
}

impl Job<'_> {
    /// Empties the engine, and puts every clause.
    fn fill<E: Engine>(&self, engine: &mut E)
        requires shut { Shut (E.meaning engine.old) }
        requires large { Large (view self.now) (E.meaning engine.old) }
        ensures does { E.meaning engine.new ≡ filled (texts (view self.now)) (E.meaning engine.old) }
    {
        calls::clear(engine);
        for n in 1..=self.clauses {
            calls::put(engine, self.text(n));
        }
    }

    /// Turns on what is live after the last step.
    fn light<E: Engine>(&self, engine: &mut E)
        requires dark { Lit (view self.now) (E.meaning engine.old) 0 (E.meaning engine.old) }
        requires shut { Shut (E.meaning engine.old) }
        requires texts { length (E.meaning engine.old).texts ≡ self.now.clauses }
        ensures does { Lit (view self.now) (E.meaning engine.old) self.now.clauses (E.meaning engine.new) }
    {
        for n in 1..=self.clauses {
            if self.record(n).is_live() {
                calls::on(engine, n);
            }
        }
    }

    /// Fills the engine, and turns on what is live after the last step.
    pub(crate) fn start<E: Engine>(&self, engine: &mut E)
        requires shut { Shut (E.meaning engine.old) }
        requires large { Large (view self.now) (E.meaning engine.old) }
        ensures does { Lit (view self.now) (filled (texts (view self.now)) (E.meaning engine.old)) self.now.clauses (E.meaning engine.new) }
    {
        self.fill(engine);
        self.light(engine);
    }

    /// Turns everything off.
    pub(crate) fn darken<E: Engine>(&self, engine: &mut E)
        requires shut { Shut (E.meaning engine.old) }
        requires texts { length (E.meaning engine.old).texts ≡ self.now.clauses }
        requires level { length (E.meaning engine.old).on ≡ self.now.clauses }
        ensures does { E.meaning engine.new ≡ with_on (replicate self.now.clauses false) (E.meaning engine.old) }
    {
        for n in 1..=self.clauses {
            put_out(engine, n);
        }
    }
}
