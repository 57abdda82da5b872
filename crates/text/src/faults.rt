//! Why a text is refused.
ghost use Rattle.std.specs.Prelude.{◌≡◌};
ghost use Rattle.text.specs.Faults.{number_of, layer_of, place_of};
ghost use Rattle.text.specs.declared.faults.TextFault.TheVariants.{Clause};

use cnf::faults::{ClauseFault, Layer};
use thiserror::Error;

/// What is wrong with a text. A place is the first byte of the word at fault, or the text's length at its end.
#[derive(Clone, Copy, PartialEq, Eq, Debug, Error)]
pub enum TextFault {
    /// A word that is not allowed there.
    #[error("the word at byte {place} is not allowed there")]
    Word { place: usize },
    /// The text ends in its heading, or has another number of clauses than its heading says.
    #[error("the text and its heading do not agree at byte {place}")]
    Count { place: usize },
    /// The text ends inside a clause.
    #[error("the text ends inside a clause at byte {place}")]
    Unfinished { place: usize },
    /// What is wrong with the literals of a clause.
    #[error("the literal at byte {} is out of range, or its variable came before", .0.place())]
    Clause(ClauseFault),
    /// The heading has more variables than any job can have.
    #[error("the heading has too many variables")]
    Variables,
}

/// A text's fault carries the clause's fault whole.
// By hand, since contracts name the fault that `?` makes, and a derived From has none.
impl From<ClauseFault> for TextFault {
    ghost from_gives = { λ whole r. r ≡ Clause whole };

    fn from(whole: ClauseFault) -> TextFault {
        TextFault::Clause(whole)
    }
}

impl TextFault {
    /// The number of the refusal.
    pub fn number(self) -> u8
        ensures { result ≡ number_of self }
    {
        match self {
            TextFault::Word { .. } => 1,
            TextFault::Count { .. } => 2,
            TextFault::Unfinished { .. } => 3,
            TextFault::Clause(fault) => fault.number(),
            TextFault::Variables => 7,
        }
    }

    /// The part of the box that refuses.
    pub fn layer(self) -> Layer
        ensures { result ≡ layer_of self }
    {
        match self {
            TextFault::Word { .. } | TextFault::Count { .. } | TextFault::Unfinished { .. } =>
                Layer::Text,
            TextFault::Clause(fault) => fault.layer(),
            TextFault::Variables => Layer::Job,
        }
    }

    /// Where the fault stands; a heading's number of variables has no place.
    pub fn place(self) -> usize
        ensures { result ≡ place_of self }
    {
        match self {
            TextFault::Word { place }
            | TextFault::Count { place }
            | TextFault::Unfinished { place } => place,
            TextFault::Clause(fault) => fault.place(),
            TextFault::Variables => 0,
        }
    }
}
