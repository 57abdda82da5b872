//! How a scanning engine keeps its texts.
ghost use Rattle.std.specs.Prelude.{◌≡◌, ◌+◌, ◌-◌, ◌<◌, ◌≤◌, length, slice_set};
ghost use Rattle.engine.specs.Meaning.{highest, no_off, with_on, with_text};
ghost use Rattle.cnf.specs.Clauses.{IsClause};
ghost use Rattle.scanning.specs.Seen.{scan_meaning, no_place, unless};

use crate::Scanning;
use crate::rows::TextRow;
use cnf::literals::Literal;
use engine::faults::EngineFault;

impl<'a> Scanning<'a> {
    /// Where the row of a text stands. Refuses while a trial is open.
    pub(crate) fn place(&self, number: u16) -> Result<usize, EngineFault>
        ensures { result ≡ unless (no_place (scan_meaning self.now) number) (number - 1) }
    {
        self.books.place(number)
    }

    /// Where the row of a text stands that is on. Refuses while a trial is open.
    pub(crate) fn place_on(&self, number: u16) -> Result<usize, EngineFault>
        ensures { result ≡ unless (no_off (scan_meaning self.now) number) (number - 1) }
    {
        let place = self.place(number)?;
        if !self.rows[place].on {
            return Err(EngineFault::NotOn);
        }
        Ok(place)
    }

    /// Turns the text at this place on or off.
    pub(crate) fn set_mark(&mut self, place: usize, on: bool)
        requires { place < self.old.books.room.texts }
        ensures { scan_meaning self.new ≡ with_on (slice_set (scan_meaning self.old).on place on) (scan_meaning self.old) }
    {
        self.rows[place].on = on;
    }

    /// Adds a text for which there is room.
    pub(crate) fn store(&mut self, text: &[Literal])
        requires clause { IsClause highest text.now }
        requires room { (self.old.books.room.texts < self.old.books.room.limits.texts) × (self.old.books.room.literals + length text.now ≤ self.old.books.room.limits.literals) }
        ensures { scan_meaning self.new ≡ with_text text.now (scan_meaning self.old) }
    {
        let start = self.books.room.literals();
        let end = start + text.len();
        self.places[start..end].copy_from_slice(text);
        self.rows[usize::from(self.books.room.texts())] = TextRow {
            start,
            length: text.len(),
            on: false,
        };
        self.books.room.take(text.len());
    }
}
