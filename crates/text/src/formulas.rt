//! A reader of formulas.
ghost use Rattle.std.specs.Prelude.{◌≡◌, min};

use cnf::drafts::Draft;
use words::reader::Words;

pub mod reading;

/// Where a reader of a formula stands.
#[derive(Clone, Copy, PartialEq, Eq, Debug)]
pub enum Position {
    /// Before the heading.
    Before,
    /// In the heading.
    Heading(Due),
    /// Between clauses, of which so many are left.
    Between { remaining: u64 },
    /// Inside a clause, behind which so many are left.
    Inside { remaining: u64 },
}

/// The word of a heading that comes next.
#[derive(Clone, Copy, PartialEq, Eq, Debug)]
pub enum Due {
    Format,
    Variables,
    Clauses,
}

/// What a word has completed.
#[derive(Clone, Copy, PartialEq, Eq, Debug)]
pub enum Step {
    /// Nothing yet.
    More,
    /// The number of variables, which stands at this place.
    Variables { count: u16, place: usize },
    /// The heading.
    Heading,
    /// A clause.
    Clause,
    /// The text.
    End,
}

/// A reader that takes the words of a formula one by one.
#[derive(Clone, Copy)]
pub struct FormulaReader<'a> {
    words: Words<'a>,
    position: Position,
    variables: u16,
    draft: Draft,
    ghost over: { draft.highest ≡ min variables 512 },
}
