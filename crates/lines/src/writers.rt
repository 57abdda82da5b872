//! The writers. Each writes its text into a lent slice from a place on and answers the place after it, or refuses
//! where there is not enough room, before it writes anything. Bytes ahead of and after the text are left alone.
ghost use Rattle.std.specs.Prelude.{map, vec_items, decimal};
ghost use Rattle.lines.specs.Texts.{literal_text, clause_line, heading_line, formula_text, refusal_line};
ghost use Rattle.lines.specs.Writes.{Writes};

use crate::faults::WriteFault;
use crate::pages::Page;
use crate::texts::{ClauseLine, FormulaText, PairLine, Text};
use cnf::literals::Literal;

/// Writes a text. It is first added to a page with no room, whose count is full just if `out` has not enough.
fn write<T: Text>(out: &mut [u8], at: usize, text: &T) -> Result<usize, WriteFault>
    ensures { Writes out.old at (T.bytes text.now) result out.new }
{
    let Some(room) = out.len().checked_sub(at) else {
        return Err(WriteFault::NoRoom);
    };
    let mut count = Page {
        out: &mut [],
        next: usize::MAX - 1 - room,
    };
    text.add_to(&mut count);
    if count.is_full() {
        return Err(WriteFault::NoRoom);
    }
    let mut page = Page { out, next: at };
    text.add_to(&mut page);
    Ok(page.next)
}

/// Writes a number in base ten.
pub fn write_number(out: &mut [u8], at: usize, n: u64) -> Result<usize, WriteFault>
    ensures { Writes out.old at (decimal n) result out.new }
{
    write(out, at, &n)
}

/// Writes a literal: `-` for a negated one, and then its variable's number.
pub fn write_literal(out: &mut [u8], at: usize, literal: Literal) -> Result<usize, WriteFault>
    ensures { Writes out.old at (literal_text literal) result out.new }
{
    write(out, at, &literal)
}

/// Writes a clause's line: each literal and one space, then `0` and a line feed.
pub fn write_clause(out: &mut [u8], at: usize, clause: &[Literal]) -> Result<usize, WriteFault>
    ensures { Writes out.old at (clause_line clause.now) result out.new }
{
    write(out, at, &ClauseLine(clause))
}

/// Writes the heading line of a formula: `p cnf`, how many variables and how many clauses.
pub fn write_heading(
    out: &mut [u8],
    at: usize,
    variables: u64,
    clauses: u64,
) -> Result<usize, WriteFault>
    ensures { Writes out.old at (heading_line variables clauses) result out.new }
{
    write(out, at, &PairLine::heading(variables, clauses))
}

/// Writes the line of a refusal: `refused`, its number and its place.
pub fn write_refusal(
    out: &mut [u8],
    at: usize,
    number: u8,
    place: usize,
) -> Result<usize, WriteFault>
    ensures { Writes out.old at (refusal_line number place) result out.new }
{
    write(out, at, &PairLine::refusal(number, place))
}

/// Writes a formula: its heading line, and then each clause's line.
pub fn write_formula(
    out: &mut [u8],
    at: usize,
    variables: u16,
    clauses: &[Vec<Literal>],
) -> Result<usize, WriteFault>
    ensures { Writes out.old at (formula_text variables (map vec_items clauses.now)) result out.new }
{
    write(out, at, &FormulaText { variables, clauses })
}
