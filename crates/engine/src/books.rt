//! The books of an engine, for engines to share.
ghost use Rattle.std.specs.Prelude.{◌≡◌, ◌-◌, Bool, false, List, length};
ghost use Rattle.cnf.specs.Clauses.{Clause};
ghost use Rattle.engine.specs.Limits.{no_place, unless};

use crate::faults::EngineFault;
use crate::limits::{Limits, Room};
use crate::sessions::Session;

/// The room of an engine, and its session. Each contract says what a call finds in any engine that keeps these books, or
/// does to it.
#[derive(Drop)]
pub struct Books {
    pub room: Room,
    pub session: Session,
}

impl Books {
    ghost use Rattle.engine.specs.Books.{in_books, NothingHeld, BooksClear};

    /// All of these limits, with nothing held, no trial open and no answer given.
    pub fn new(limits: Limits) -> Books
        ensures limits { result.room.limits ≡ limits }
        ensures empty { NothingHeld result }
        ensures session { (result.session.opened ≡ false) × (result.session.answers ≡ 0) }
    {
        Books {
            room: Room::new(limits),
            session: Session::new(),
        }
    }

    /// The place of the text with this number, counted from 0. Refuses while a trial is open.
    pub fn place(&self, number: u16) -> Result<usize, EngineFault>
        ensures { (texts : List Clause) (marks : List Bool) → self.now.room.texts ≡ length texts → result ≡ unless (no_place (in_books self.now texts marks) number) (number - 1) }
    {
        self.session.ensure_shut()?;
        self.room.place(number)
    }

    /// Gives all room back, and counts answers from 0 again. Refuses while a trial is open.
    pub fn clear(&mut self) -> Result<(), EngineFault>
        ensures clears { (texts : List Clause) (marks : List Bool) → BooksClear (in_books self.old texts marks) self.old result self.new }
        ensures limits { self.new.room.limits ≡ self.old.room.limits }
    {
        self.session.ensure_shut()?;
        self.room.clear();
        self.session.restart();
        Ok(())
    }
}
