//! The core-first engine as an engine.
ghost use Rattle.std.specs.Prelude.{◌≡◌};
ghost use Rattle.engine.specs.Limits.{judged};
ghost use Rattle.core_first.specs.Core.{no_turn};
ghost use Rattle.core_first.specs.CoreSides.{core_meaning};
ghost use Rattle.core_first.specs.CoreLaws.{core_laws};

use crate::CoreFirst;
use cnf::drafts::MOST_VARIABLES;
use cnf::drafts::arranging::arrange;
use cnf::literals::Literal;
use engine::answers::Answer;
use engine::contract::Engine;
use engine::faults::EngineFault;
use engine::trials::{Key, Trial};

impl<P: Engine, R: Engine> CoreFirst<P, R> {
    /// Whether a text of this number can be turned on or off.
    fn can_turn(&self, number: u16) -> Result<(), EngineFault>
        ensures { result ≡ judged (no_turn (core_meaning P.meaning R.meaning self.now.sides self.now.books.room self.now.books.session) number) }
    {
        self.books.place(number)?;
        Ok(())
    }
}

impl<P: Engine, R: Engine> Engine for CoreFirst<P, R> {
    ghost meaning = { λ c. core_meaning P.meaning R.meaning c.sides c.books.room c.books.session };

    ghost laws = { λ c. core_laws P.meaning R.meaning P.laws c.sides c.books.room c.books.session c.whole };

    fn is_open(&self) -> bool {
        self.books.session.is_open()
    }

    fn answers(&self) -> u32 {
        self.books.session.answers()
    }

    fn text_limit(&self) -> u16 {
        self.books.room.limits().texts
    }

    fn literal_limit(&self) -> u16 {
        self.books.room.limits().literals
    }

    fn clear(&mut self) -> Result<(), EngineFault> {
        self.books.clear()?;
        self.sides.clear();
        Ok(())
    }

    fn put(&mut self, literals: &[Literal]) -> Result<(), EngineFault> {
        self.books.session.ensure_shut()?;
        let draft = arrange(MOST_VARIABLES, literals);
        let text = draft.clause()?;
        if !self.books.room.has(text.len()) {
            return Err(EngineFault::Full);
        }
        self.sides.put(literals);
        self.books.room.take(text.len());
        Ok(())
    }

    fn on(&mut self, number: u16) -> Result<(), EngineFault> {
        self.can_turn(number)?;
        self.sides.on(number)
    }

    fn off(&mut self, number: u16) -> Result<(), EngineFault> {
        self.can_turn(number)?;
        self.sides.off(number)
    }

    fn prefer(&mut self, number: u16) -> Result<(), EngineFault> {
        self.can_turn(number)?;
        self.sides.prefer(number)
    }

    fn begin(&mut self, key: &Key) -> Result<(), EngineFault> {
        self.books.session.begin()?;
        self.sides.begin(key);
        Ok(())
    }

    fn assume(&mut self, trial: &Trial, literal: Literal) -> Result<(), EngineFault> {
        self.books.session.assume(literal)?;
        self.sides.assume(trial, literal);
        Ok(())
    }

    fn next(&mut self, trial: &Trial) -> Result<Answer, EngineFault> {
        self.books.session.ensure_open()?;
        let answer = self.sides.next(trial);
        self.books.session.note(answer);
        Ok(answer)
    }

    fn finish(&mut self, key: &Key) -> Result<(), EngineFault> {
        self.books.session.finish()?;
        self.sides.finish(key);
        Ok(())
    }
}
