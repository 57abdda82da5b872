//! The texts: each is said once, as what it adds to a page.
ghost use Rattle.std.specs.Prelude.{◌≡◌, ℕ, List, map, vec_items, decimal};
ghost use Rattle.lines.specs.Pages.{Adds};
ghost use Rattle.lines.specs.Texts.{literal_text, literal_word, clause_line, pair_line, heading_line, refusal_line, formula_text};

use crate::pages::Page;
use cnf::literals::Literal;

/// What is written as a text. It is no `Display`: by its contract `fmt` may fail wherever it likes, and a writer here
/// fails only where there is not enough room.
pub trait Text {
    /// Its bytes.
    ghost bytes: { Self → List ℕ };

    /// Adds the text to a page.
    fn add_to(&self, page: &mut Page<'_>)
        ensures { Adds page.old (bytes self.now) page.new };
}

/// A number in base ten.
impl Text for u64 {
    ghost bytes = { decimal };

    #[inline(always)]
    fn add_to(&self, page: &mut Page<'_>) {
        page.add_number(*self);
    }
}

/// `-` for a negated literal, and then its variable's number.
impl Text for Literal {
    ghost bytes = { literal_text };

    #[inline(always)]
    fn add_to(&self, page: &mut Page<'_>) {
        page.add_if(self.negated, b'-');
        u64::from(self.variable).add_to(page);
    }
}

/// Adds a literal and a space.
#[inline(always)]
fn add_word(page: &mut Page<'_>, literal: Literal)
    ensures { Adds page.old (literal_word literal) page.new }
{
    // One digit is added at once with what stands beside it: small jobs have no other variables.
    if literal.variable < 10 {
        let digit = b'0' + literal.variable as u8;
        if literal.negated {
            return page.add(&[b'-', digit, b' ']);
        }
        return page.add(&[digit, b' ']);
    }
    literal.add_to(page);
    page.add_if(true, b' ');
}

/// A clause's line.
#[derive(Clone, Copy)]
pub struct ClauseLine<'a>(pub &'a [Literal]);

impl Text for ClauseLine<'_> {
    ghost bytes = { λ line. clause_line line.0.now };

    fn add_to(&self, page: &mut Page<'_>) {
        for literal in self.0 {
            if page.is_full() {
                return;
            }
            add_word(page, *literal);
        }
        page.add(b"0\n");
    }
}

/// The line of a word and two numbers.
#[derive(Clone, Copy)]
pub struct PairLine<'a> {
    pub word: &'a [u8],
    pub first: u64,
    pub second: u64,
}

impl PairLine<'static> {
    /// The heading line of a formula: `p cnf`, how many variables and how many clauses.
    pub fn heading(variables: u64, clauses: u64) -> PairLine<'static>
        ensures { pair_line result.word.now result.first result.second ≡ heading_line variables clauses }
    {
        PairLine {
            word: b"p cnf ",
            first: variables,
            second: clauses,
        }
    }

    /// The line of a refusal: `refused`, its number and its place.
    pub fn refusal(number: u8, place: usize) -> PairLine<'static>
        ensures { pair_line result.word.now result.first result.second ≡ refusal_line number place }
    {
        PairLine {
            word: b"refused ",
            first: u64::from(number),
            second: place as u64,
        }
    }
}

impl Text for PairLine<'_> {
    ghost bytes = { λ line. pair_line line.word.now line.first line.second };

    fn add_to(&self, page: &mut Page<'_>) {
        page.add(self.word);
        self.first.add_to(page);
        page.add(b" ");
        self.second.add_to(page);
        page.add(b"\n");
    }
}

/// A formula: its heading line, and then each clause's line.
#[derive(Clone, Copy)]
pub struct FormulaText<'a> {
    pub variables: u16,
    pub clauses: &'a [Vec<Literal>],
}

impl Text for FormulaText<'_> {
    ghost bytes = { λ text. formula_text text.variables (map vec_items text.clauses.now) };

    fn add_to(&self, page: &mut Page<'_>) {
        PairLine::heading(u64::from(self.variables), self.clauses.len() as u64).add_to(page);
        for clause in self.clauses {
            if page.is_full() {
                return;
            }
            ClauseLine(clause).add_to(page);
        }
    }
}
