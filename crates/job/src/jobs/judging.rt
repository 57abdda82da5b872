//! The trial of a kept lemma.
ghost use Rattle.std.specs.Prelude.{◌≡◌, ℕ, ◌≤◌, [], ◌∷◌, map, length};
ghost use Rattle.cnf.specs.Literals.{complement};
ghost use Rattle.cnf.specs.Clauses.{◌∈◌};
ghost use Rattle.drup.specs.Backward.{gathered, asked};
ghost use Rattle.engine.specs.Meaning.{On, text_of, counted_by};
ghost use Rattle.trial.specs.Noted.{latest};
ghost use Rattle.trial.specs.Trying.{EndsRight};
ghost use Rattle.trial.specs.Gathering.{AllKnown};
ghost use Rattle.job.specs.View.{text_in, texts, Entered};
ghost use Rattle.job.specs.Seen.{view, SameLent, Becomes};
ghost use Rattle.job.specs.CheckLists.{recorded};
ghost use Rattle.job.specs.CheckShowing.{Holds};
ghost use Rattle.job.specs.CheckJudging.{Room, Judged};

use crate::jobs::Job;
use engine::calls;
use engine::contract::Engine;
use engine::trails::Trail;
use trial::rows::row_of;
use trial::tries::{TrialEnd, try_lemma};

impl Job<'_> {
    /// Tries the lemma with this number.
    fn try_number<E: Engine>(&self, engine: &mut E, n: u16) -> TrialEnd
        requires numbered { Entered self.now.clauses n }
        requires holds { Holds (E.meaning engine.old) (view self.now) }
        ensures does { E.meaning engine.new ≡ counted_by (asked (latest result.answers)) (E.meaning engine.old) }
        ensures right { EndsRight (E.meaning engine.old) (map complement (text_in (texts (view self.now)) n)) (latest result.answers) result.conflict }
    {
        try_lemma(engine, self.text(n))
    }

    /// Records the row of a conflict, and gives its length; its clauses are marked and preferred.
    fn record_row<E: Engine>(
        &mut self,
        engine: &mut E,
        n: u16,
        conflict: u16,
        answers: &Trail,
    ) -> usize
        requires holds { Holds (E.meaning engine.old) (view self.old) }
        requires room { Room (view self.old) n }
        requires numbered { Entered self.old.clauses conflict }
        requires known { AllKnown (texts (view self.old)) (latest answers.now) }
        requires few { length (latest answers.now) ≤ self.old.size.variables }
        requires live { (k : ℕ) → k ∈ gathered (text_of (E.meaning engine.old)) (latest answers.now) (conflict ∷ []) → On (E.meaning engine.old) k }
        ensures becomes { Becomes self.old (recorded (view self.old) n (gathered (text_of (E.meaning engine.old)) (latest answers.now) (conflict ∷ []))) self.new }
        ensures length { result ≡ length (gathered (text_of (E.meaning engine.old)) (latest answers.now) (conflict ∷ [])) }
        ensures does { E.meaning engine.new ≡ E.meaning engine.old }
    {
        let row = row_of(self, answers, conflict);
        let at = (n - 1 - self.inputs) as usize * (self.size.variables as usize + 1);
        self.lay_row(at, row.numbers());
        self.keep(row.numbers());
        calls::prefer_all(engine, row.numbers());
        row.numbers().len()
    }

    /// Tries the lemma with this number. Where it passes, its row is recorded; gives the row's length.
    pub(crate) fn judge<E: Engine>(&mut self, engine: &mut E, n: u16) -> Option<usize>
        requires holds { Holds (E.meaning engine.old) (view self.old) }
        requires room { Room (view self.old) n }
        ensures lent { SameLent self.old self.new }
        ensures judged { Judged (view self.old) (E.meaning engine.old) n result (view self.new) (E.meaning engine.new) }
    {
        let TrialEnd { answers, conflict } = self.try_number(engine, n);
        Some(self.record_row(engine, n, conflict?, &answers))
    }
}
