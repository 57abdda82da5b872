//! Why a writer refuses.
ghost use Rattle.std.specs.Prelude.{◌≡◌};
ghost use Rattle.lines.specs.Faults.{number_of, layer_of, place_of};

use cnf::faults::Layer;

/// Why a text is not written.
#[derive(Clone, Copy, PartialEq, Eq, Debug)]
pub enum WriteFault {
    /// The slice ends ahead of the text's last byte.
    NoRoom,
}

impl WriteFault {
    /// The number of the refusal.
    pub fn number(self) -> u8
        ensures { result ≡ number_of self }
    {
        match self {
            WriteFault::NoRoom => 6,
        }
    }

    /// The part of the box that refuses.
    pub fn layer(self) -> Layer
        ensures { result ≡ layer_of self }
    {
        match self {
            WriteFault::NoRoom => Layer::Job,
        }
    }

    /// Where the fault stands: no byte is at fault.
    pub fn place(self) -> usize
        ensures { result ≡ place_of self }
    {
        match self {
            WriteFault::NoRoom => 0,
        }
    }
}
