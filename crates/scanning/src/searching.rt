//! How a scanning engine finds an answer.
ghost use Rattle.std.specs.Prelude.{◌≡◌, false, MatchBool, MatchOption};
ghost use Rattle.cnf.specs.declared.literals.Literal.{Literal};
ghost use Rattle.engine.specs.Meaning.{Says, is_on, On, text_of};
ghost use Rattle.engine.specs.Lowest.{FalseAt, ForcesAt, LowestFalse, LowestForcing, SaysLowest};
ghost use Rattle.scanning.specs.Seen.{scan_meaning};

use crate::Scanning;
use cnf::literals::{Forced, Literal};
use engine::answers::Answer;
use engine::looks::{forced_by, is_falsified, text_at};

impl<'a> Scanning<'a> {
    /// The text with this number, if it is on.
    fn text_on(&self, number: u16) -> Option<&[Literal]>
        ensures { MatchOption result (is_on (scan_meaning self.now) number ≡ false) (λ text. On (scan_meaning self.now) number × (text.now ≡ text_of (scan_meaning self.now) number)) }
    {
        let place = self.books.room.place(number).ok()?;
        let row = self.rows[place];
        if !row.on {
            return None;
        }
        Some(text_at(self.places, row.start, row.length))
    }

    /// Whether a text is on and falsified.
    fn is_false_at(&self, number: u16) -> bool
        ensures { MatchBool result (FalseAt (scan_meaning self.now) number) (FalseAt (scan_meaning self.now) number → ⊥) }
    {
        let trail = self.books.session.entries();
        self.text_on(number)
            .is_some_and(|text| is_falsified(trail, text))
    }

    /// The literal that a text forces, if it is on.
    fn forced_at(&self, number: u16) -> Option<Forced>
        ensures { MatchOption result ((l : Literal) → ForcesAt (scan_meaning self.now) number l → ⊥) (λ f. (f.number ≡ number) × ForcesAt (scan_meaning self.now) number f.literal) }
    {
        let text = self.text_on(number)?;
        let literal = forced_by(self.books.session.entries(), text)?;
        Some(Forced { literal, number })
    }

    /// The lowest number whose text is on and falsified.
    fn lowest_false(&self) -> Option<u16>
        ensures { LowestFalse (scan_meaning self.now) result }
    {
        (1..=self.books.room.texts()).find(|number| self.is_false_at(*number))
    }

    /// The lowest number whose text is on and forces a literal, with that literal.
    fn lowest_forcing(&self) -> Option<Forced>
        ensures { LowestForcing (scan_meaning self.now) result }
    {
        (1..=self.books.room.texts()).find_map(|number| self.forced_at(number))
    }

    /// The lowest falsified number, else the lowest forcing one.
    pub(crate) fn find(&self) -> Answer
        ensures says { Says (scan_meaning self.now) result }
        ensures lowest { SaysLowest (scan_meaning self.now) result }
    {
        if let Some(number) = self.lowest_false() {
            return Answer::Conflict(number);
        }
        self.lowest_forcing()
            .map_or(Answer::Nothing, Answer::Forced)
    }
}
