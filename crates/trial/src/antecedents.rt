//! The antecedents of a lemma.
ghost use Rattle.std.specs.Prelude.{◌≡◌};
ghost use Rattle.trial.specs.Gathering.{numbers_of};

use arrayvec::ArrayVec;
use cnf::drafts::MOST_LITERALS;

/// The clause of the conflict is an antecedent, and that of each answer may be; a variable is answered at most once.
const MOST_ANTECEDENTS: usize = MOST_LITERALS + 1;

/// The numbers of a lemma's antecedents, in order of derivation.
#[derive(Drop)]
pub struct Antecedents {
    pub(crate) numbers: ArrayVec<u16, MOST_ANTECEDENTS>,
}

impl Antecedents {
    /// The numbers, in order of derivation.
    pub fn numbers(&self) -> &[u16]
        ensures { result.now ≡ numbers_of self.now }
    {
        &self.numbers
    }
}
