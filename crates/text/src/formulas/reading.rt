//! How a reader of formulas moves.
ghost use Rattle.std.specs.Prelude.{◌≡◌, [], length, Ok};
ghost use Rattle.std.specs.Result.{result_unwrap_or};
ghost use Rattle.words.specs.Texts.{words_of, rest_of};
ghost use Rattle.text.specs.Formulas.{before, clauses, between, inside, nothing, variable_count, heading, moves, moved, literal_of, capped, counted};
ghost use Rattle.text.specs.Readers.{standing, state_of, words_left, extent_of, move_of, Takes, MovesOn};
ghost use Rattle.words.specs.Lexis.{number};
ghost use Rattle.text.specs.declared.formulas.Position.TheVariants.{Heading};
ghost use Rattle.cnf.specs.Drafts.{outcome};

use crate::faults::TextFault;
use crate::formulas::{Due, FormulaReader, Position, Step};
use cnf::drafts::Draft;
use cnf::literals::Literal;
use words::lexis::{is_unsigned, is_zero};
use words::numbers::{value16, value64};
use words::reader::{Placed, Word, Words};

/// The literal that a number writes.
// No From: neither the bytes nor Literal is a type of this crate.
fn literal(w: &[u8]) -> Literal
    ensures { result ≡ literal_of w.now }
{
    let (digits, negated) = match w {
        [b'-', digits @ ..] => (digits, true),
        _ => (w, false),
    };
    let variable = value16(digits);
    Literal { variable, negated }
}

impl<'a> FormulaReader<'a> {
    /// A reader that stands before the heading.
    pub fn new(text: &'a [u8]) -> FormulaReader<'a>
        ensures state { state_of result ≡ before }
        ensures words { words_left result ≡ words_of text.now }
        ensures extent { extent_of result ≡ length text.now }
    {
        FormulaReader {
            words: Words::new(text),
            position: Position::Before,
            variables: 0,
            draft: Draft::new(0),
        }
    }

    /// The number of variables, once it is read.
    pub fn variables(&self) -> u16
        ensures { result ≡ self.now.variables }
    {
        self.variables
    }

    /// The clause that was completed last.
    pub fn clause(&self) -> &[Literal]
        ensures { result.now ≡ result_unwrap_or (outcome self.now.draft) [] }
    {
        self.draft.clause().unwrap_or(&[])
    }

    /// Goes on in the heading.
    fn go(&mut self, due: Due) -> Step
        ensures { MovesOn (Ok result) self.old self.new (moves (standing (Heading due) self.old.variables (outcome self.old.draft)) nothing) }
    {
        self.position = Position::Heading(due);
        Step::More
    }

    /// Takes the number of variables.
    fn take_variables(&mut self, w: &[u8], place: usize) -> Step
        ensures { MovesOn (Ok result) self.old self.new (moves (clauses (capped w.now)) (variable_count (capped w.now) place)) }
    {
        let count = value16(w);
        self.position = Position::Heading(Due::Clauses);
        self.variables = count;
        self.draft = Draft::new(count);
        Step::Variables { count, place }
    }

    /// Takes the number of clauses.
    fn take_clauses(&mut self, w: &[u8]) -> Step
        ensures { MovesOn (Ok result) self.old self.new (moves (between self.old.variables (counted w.now)) (heading self.old.variables)) }
    {
        let remaining = value64(w);
        self.position = Position::Between { remaining };
        Step::Heading
    }

    /// Takes a number inside a clause: the word 0, which closes it, or one of its literals.
    fn take_number(&mut self, remaining: u64, w: &[u8], place: usize) -> Result<Step, TextFault>
        ensures { MovesOn result self.old self.new (moved (inside self.old.variables remaining (outcome self.old.draft)) (number w.now) place) }
    {
        if is_zero(w) {
            self.draft.clause()?;
            self.position = Position::Between { remaining };
            return Ok(Step::Clause);
        }
        self.draft.add(literal(w), place);
        self.position = Position::Inside { remaining };
        Ok(Step::More)
    }

    /// Takes one word: the position and the word decide together what follows.
    pub fn step(&mut self) -> Result<Step, TextFault>
        ensures takes { Takes result self.old self.new (move_of self.old) }
        ensures words { words_left self.new ≡ rest_of (words_left self.old) }
        ensures extent { extent_of self.new ≡ extent_of self.old }
    {
        let Placed { word, place } = self.words.next();
        match (self.position, word) {
            (Position::Before, Word::Name(b"p")) => Ok(self.go(Due::Format)),
            (Position::Heading(Due::Format), Word::Name(b"cnf")) => Ok(self.go(Due::Variables)),
            (Position::Heading(Due::Variables), Word::Number(w)) if is_unsigned(w) => {
                Ok(self.take_variables(w, place))
            }
            (Position::Heading(Due::Clauses), Word::Number(w)) if is_unsigned(w) => {
                Ok(self.take_clauses(w))
            }
            (Position::Between { remaining: 0 }, Word::End) => Ok(Step::End),
            (Position::Between { remaining: 0 }, _) => Err(TextFault::Count { place }),
            (Position::Between { remaining }, Word::Number(w)) => {
                self.draft.clear();
                self.take_number(remaining - 1, w, place)
            }
            (Position::Inside { remaining }, Word::Number(w)) => {
                self.take_number(remaining, w, place)
            }
            (Position::Inside { .. }, Word::End) => Err(TextFault::Unfinished { place }),
            (_, Word::End) => Err(TextFault::Count { place }),
            _ => Err(TextFault::Word { place }),
        }
    }
}
