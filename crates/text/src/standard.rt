//! The standard form of a formula: its heading, and its clauses with their literals by rising variable, one space
//! between words, one line feed after every line.
ghost use Rattle.std.specs.Prelude.{◌≡◌};
ghost use Rattle.lines.specs.Writes.{Writes};
ghost use Rattle.text.specs.Memory.{formula_in};
ghost use Rattle.text.specs.Standard.{text_of, standard_text, Prints};
ghost use Rattle.text.specs.Round.{ReadsBack, ReadsAgain};
ghost use Rattle.text.specs.declared.standard.PrintFault.TheVariants.{NoRoom};

use crate::memory::{Formula, ReadFault, read_formula};
use lines::faults::WriteFault;
use lines::writers;
use std::alloc::Global;
use thiserror::Error;

/// Why a text is not printed.
#[derive(Debug, Drop, PartialEq, Eq, Error)]
pub enum PrintFault {
    /// There is not enough room for it.
    #[error("no room for the print")]
    NoRoom,
    /// There is not enough memory to read the text.
    #[error("not enough memory")]
    Memory,
}

// Written by hand, since a contract names the fault that `?` makes, and a derived From has none.
impl From<WriteFault> for PrintFault {
    ghost from_gives = { λ _ r. r ≡ NoRoom };

    fn from(_fault: WriteFault) -> PrintFault {
        PrintFault::NoRoom
    }
}

/// Writes a formula at the start of `out`: its heading line, and then each clause's line.
pub fn write_formula(out: &mut [u8], formula: &Formula) -> Result<usize, WriteFault>
    ensures writes { Writes out.old 0 (text_of (formula_in formula.now)) result out.new }
    ensures back { ReadsBack (formula_in formula.now) result out.new }
{
    writers::write_formula(out, 0, formula.variables, &formula.clauses)
}

/// Prints the standard form of the formula that a text reads as, or `refused`, the number and the place of its fault.
pub fn print_standard(heap: Global, text: &[u8], out: &mut [u8]) -> Result<usize, PrintFault>
    ensures prints { Prints out.old (standard_text text.now) result out.new }
    ensures again { ReadsAgain text.now result out.new }
{
    match read_formula(heap, text) {
        Ok(formula) => Ok(write_formula(out, &formula)?),
        Err(ReadFault::Text(fault)) => Ok(writers::write_refusal(
            out,
            0,
            fault.number(),
            fault.place(),
        )?),
        Err(ReadFault::Memory) => Err(PrintFault::Memory),
    }
}
