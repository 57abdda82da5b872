//! What is wrong with literals that make no clause.
ghost use Rattle.std.specs.Prelude.{◌≡◌};
ghost use Rattle.cnf.specs.Faults.{number_of, layer_of, place_of};

/// The part of the box that refuses.
#[derive(Clone, Copy, PartialEq, Eq, Debug)]
pub enum Layer {
    Text,
    Clause,
    Job,
    Engine,
}

/// Why literals make no clause. The place is that of the literal at fault: its index in a call's list, or the first
/// byte of its word in a text.
#[derive(Clone, Copy, PartialEq, Eq, Debug)]
pub enum ClauseFault {
    /// The variable is 0 or beyond the highest.
    OutOfRange { place: usize },
    /// The variable came before.
    Repeated { place: usize },
}

impl ClauseFault {
    /// The number of the refusal.
    pub fn number(self) -> u8
        ensures { result ≡ number_of self }
    {
        match self {
            ClauseFault::OutOfRange { .. } => 4,
            ClauseFault::Repeated { .. } => 5,
        }
    }

    /// The part of the box that refuses.
    pub fn layer(self) -> Layer
        ensures { result ≡ layer_of self }
    {
        Layer::Clause
    }

    /// Where the literal at fault stands.
    pub fn place(self) -> usize
        ensures { result ≡ place_of self }
    {
        match self {
            ClauseFault::OutOfRange { place } | ClauseFault::Repeated { place } => place,
        }
    }
}
