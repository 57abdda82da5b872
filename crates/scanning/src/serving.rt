//! The scanning engine as an engine.
ghost use Rattle.engine.specs.Lowest.{SaysLowest};
ghost use Rattle.scanning.specs.Seen.{scan_meaning};
ghost use Rattle.scanning.specs.Laws.{scan_laws};

use crate::Scanning;
use cnf::drafts::MOST_VARIABLES;
use cnf::drafts::arranging::arrange;
use cnf::literals::Literal;
use engine::answers::Answer;
use engine::contract::Engine;
use engine::faults::EngineFault;
use engine::trials::{Key, Trial};

/// It promises more than an engine must: the lowest number.
impl<'a> Engine for Scanning<'a> {
    ghost meaning = { scan_meaning };

    ghost picks = { SaysLowest };

    ghost laws = { scan_laws };

    fn is_open(&self) -> bool {
        self.books.session.is_open()
    }

    fn answers(&self) -> u32 {
        self.books.session.answers()
    }

    fn text_limit(&self) -> u16 {
        self.books.room.limits().texts
    }

    fn literal_limit(&self) -> u16 {
        self.books.room.limits().literals
    }

    fn clear(&mut self) -> Result<(), EngineFault> {
        self.books.clear()
    }

    fn put(&mut self, literals: &[Literal]) -> Result<(), EngineFault> {
        self.books.session.ensure_shut()?;
        let draft = arrange(MOST_VARIABLES, literals);
        let text = draft.clause()?;
        if !self.books.room.has(text.len()) {
            return Err(EngineFault::Full);
        }
        self.store(text);
        Ok(())
    }

    fn on(&mut self, number: u16) -> Result<(), EngineFault> {
        let place = self.place(number)?;
        if self.rows[place].on {
            return Err(EngineFault::AlreadyOn);
        }
        self.set_mark(place, true);
        Ok(())
    }

    fn off(&mut self, number: u16) -> Result<(), EngineFault> {
        let place = self.place_on(number)?;
        self.set_mark(place, false);
        Ok(())
    }

    fn prefer(&mut self, number: u16) -> Result<(), EngineFault> {
        self.place_on(number)?;
        Ok(())
    }

    fn begin(&mut self, _key: &Key) -> Result<(), EngineFault> {
        self.books.session.begin()
    }

    fn assume(&mut self, _trial: &Trial, literal: Literal) -> Result<(), EngineFault> {
        self.books.session.assume(literal)
    }

    fn next(&mut self, _trial: &Trial) -> Result<Answer, EngineFault> {
        self.books.session.ensure_open()?;
        let answer = self.find();
        self.books.session.note(answer);
        Ok(answer)
    }

    fn finish(&mut self, _key: &Key) -> Result<(), EngineFault> {
        self.books.session.finish()
    }
}
