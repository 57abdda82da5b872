//! An engine that scans all its texts for each answer. It answers the lowest falsified number, else the lowest
//! forcing one.
#![tactic(auto)]

ghost use Rattle.std.specs.Prelude.{◌≡◌};
ghost use Rattle.cnf.specs.Clauses.{literals};
ghost use Rattle.scanning.specs.Store.{texts_in, Small, Served, AllRising, Placed};

use crate::rows::TextRow;
use cnf::literals::Literal;
use engine::books::Books;

pub mod making;
pub mod rows;
pub mod searching;
pub mod serving;
pub mod storing;

/// A scanning engine over text records and literal places that are lent to it. The texts lie one after another in the
/// places.
#[derive(Drop)]
pub struct Scanning<'a> {
    rows: &'a mut [TextRow],
    places: &'a mut [Literal],
    books: Books,
    ghost small: { Small books.room.limits },
    ghost served: { Served books.room.limits rows.now places.now },
    ghost placed: { Placed rows.now books.room.texts books.room.literals },
    ghost counted: { literals (texts_in rows.now places.now books.room.texts) ≡ books.room.literals },
    ghost rising: { AllRising (texts_in rows.now places.now books.room.texts) },
}
