//! Why an engine refuses.
ghost use Rattle.std.specs.Prelude.{◌≡◌};
ghost use Rattle.engine.specs.Faults.{number_of, layer_of, place_of};
ghost use Rattle.engine.specs.declared.faults.EngineFault.TheVariants.{Clause};

use cnf::faults::{ClauseFault, Layer};

/// Why an engine refuses a call or its making.
#[derive(Clone, Copy, PartialEq, Eq, Debug)]
pub enum EngineFault {
    /// What is wrong with the literals of a call.
    Clause(ClauseFault),
    /// A list is too short for the limits.
    ListTooShort,
    /// A limit is beyond its range.
    LimitOutOfRange,
    /// There is no room for one text more, or for its literals.
    Full,
    /// No text has this number.
    NoSuchText,
    /// The text is on already.
    AlreadyOn,
    /// The text is not on.
    NotOn,
    /// The variable has a value already.
    HasValue,
    /// A trial is open.
    TrialOpen,
    /// No trial is open.
    NoTrial,
}

/// An engine's fault carries the clause's fault whole.
// By hand, since contracts name the fault that `?` makes, and a derived From has none.
impl From<ClauseFault> for EngineFault {
    ghost from_gives = { λ fault r. r ≡ Clause fault };

    fn from(fault: ClauseFault) -> EngineFault {
        EngineFault::Clause(fault)
    }
}

impl EngineFault {
    /// The number of the refusal.
    pub fn number(self) -> u8
        ensures { result ≡ number_of self }
    {
        match self {
            EngineFault::Clause(fault) => fault.number(),
            EngineFault::ListTooShort => 6,
            EngineFault::LimitOutOfRange => 7,
            EngineFault::Full => 10,
            EngineFault::NoSuchText => 16,
            EngineFault::AlreadyOn | EngineFault::NotOn => 17,
            EngineFault::HasValue => 18,
            EngineFault::TrialOpen | EngineFault::NoTrial => 19,
        }
    }

    /// The part of the box that refuses.
    pub fn layer(self) -> Layer
        ensures { result ≡ layer_of self }
    {
        Layer::Engine
    }

    /// The index of the literal at fault, else 0.
    pub fn place(self) -> usize
        ensures { result ≡ place_of self }
    {
        match self {
            EngineFault::Clause(fault) => fault.place(),
            _ => 0,
        }
    }
}
