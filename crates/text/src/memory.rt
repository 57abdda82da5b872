//! A formula in memory: read from a text, and written in standard form.
ghost use Rattle.std.specs.Prelude.{◌≡◌};
ghost use Rattle.text.specs.Formulas.{formula_of};
ghost use Rattle.text.specs.Memory.{ReadsAs};
ghost use Rattle.text.specs.declared.memory.ReadFault.TheVariants.{Text, Memory};

use crate::faults::TextFault;
use crate::formulas::{FormulaReader, Step};
use cnf::drafts::MOST_VARIABLES;
use cnf::literals::Literal;
use std::alloc::{AllocError, AllocFailed, Global};
use thiserror::Error;

/// A formula: how many variables it has, and its clauses.
#[derive(Debug, Drop, PartialEq, Eq)]
pub struct Formula {
    pub variables: u16,
    pub clauses: Vec<Vec<Literal>>,
}

/// Why a formula is not read.
#[derive(Debug, Drop, PartialEq, Eq, Error)]
pub enum ReadFault {
    /// What is wrong with the text.
    #[error(transparent)]
    Text(TextFault),
    /// There is not enough memory.
    #[error("not enough memory")]
    Memory,
}

// The three From are written by hand, since a contract names the fault that `?` makes, and a derived From has none.
impl From<TextFault> for ReadFault {
    ghost from_gives = { λ fault r. r ≡ Text fault };

    fn from(fault: TextFault) -> ReadFault {
        ReadFault::Text(fault)
    }
}

impl From<AllocError> for ReadFault {
    ghost from_gives = { λ _ r. r ≡ Memory };

    fn from(_fault: AllocError) -> ReadFault {
        ReadFault::Memory
    }
}

impl<T: Drop> From<AllocFailed<T>> for ReadFault {
    ghost from_gives = { λ _ r. r ≡ Memory };

    fn from(_fault: AllocFailed<T>) -> ReadFault {
        ReadFault::Memory
    }
}

/// Reads a formula.
pub fn read_formula(heap: Global, text: &[u8]) -> Result<Formula, ReadFault>
    ensures { ReadsAs (formula_of text.now) result }
{
    let mut reader = FormulaReader::new(text);
    let mut clauses = Vec::new(heap);
    loop {
        match reader.step()? {
            Step::More | Step::Variables { .. } => {}
            Step::Heading if reader.variables() > MOST_VARIABLES => {
                return Err(TextFault::Variables.into());
            }
            Step::Heading => {}
            Step::Clause => clauses.push(Vec::from_slice(heap, reader.clause())?)?,
            Step::End => {
                let variables = reader.variables();
                return Ok(Formula { variables, clauses });
            }
        }
    }
}
