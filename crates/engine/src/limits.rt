//! The limits that an engine over lent lists is made for, and what of them is taken.
ghost use Rattle.std.specs.Prelude.{◌≡◌, ◌+◌, ◌<◌, ◌≤◌, ◌&&◌, nat_lt, nat_le};
ghost use Rattle.engine.specs.Limits.{no_making, judged, placed};

use crate::faults::EngineFault;

/// The most texts that an engine can be made for.
pub const MOST_TEXTS: u16 = 4096;

/// The most literals that an engine can be made for.
pub const MOST_LITERALS: u16 = 32768;

/// How many texts an engine can hold, and how many literals in all.
#[derive(Clone, Copy, PartialEq, Eq, Default, Debug)]
pub struct Limits {
    pub texts: u16,
    pub literals: u16,
}

impl Limits {
    /// Whether lists of so many text records and so many literal places serve these limits.
    // A job's `fits` is alike in its shape, with other bounds and other faults.
    pub fn fit(self, records: usize, places: usize) -> Result<(), EngineFault>
        ensures { result ≡ judged (no_making self.texts self.literals records places) }
    {
        if self.texts > MOST_TEXTS || self.literals > MOST_LITERALS {
            return Err(EngineFault::LimitOutOfRange);
        }
        if records < usize::from(self.texts) || places < usize::from(self.literals) {
            return Err(EngineFault::ListTooShort);
        }
        Ok(())
    }
}

/// The limits of an engine, and how many texts and literals it holds.
#[derive(Clone, Copy, Debug)]
pub struct Room {
    limits: Limits,
    texts: u16,
    literals: usize,
    ghost few: { (texts ≤ limits.texts) × (literals ≤ limits.literals) },
}

impl Room {
    /// All of these limits, with nothing taken.
    pub fn new(limits: Limits) -> Room
        ensures limits { result.limits ≡ limits }
        ensures empty { (result.texts ≡ 0) × (result.literals ≡ 0) }
    {
        Room {
            limits,
            texts: 0,
            literals: 0,
        }
    }

    /// The limits.
    pub fn limits(&self) -> Limits
        ensures { result ≡ self.now.limits }
    {
        self.limits
    }

    /// How many texts are held.
    pub fn texts(&self) -> u16
        ensures { result ≡ self.now.texts }
    {
        self.texts
    }

    /// How many literals are held.
    pub fn literals(&self) -> usize
        ensures { result ≡ self.now.literals }
    {
        self.literals
    }

    /// Whether there is room for one text more, of so many literals.
    pub fn has(&self, count: usize) -> bool
        ensures { result ≡ (nat_lt self.now.texts self.now.limits.texts && nat_le (self.now.literals + count) self.now.limits.literals) }
    {
        let left = usize::from(self.limits.literals) - self.literals;
        let full = self.texts == self.limits.texts;
        !full && left >= count
    }

    /// Takes the room for one text more, of so many literals.
    pub fn take(&mut self, count: usize)
        requires { (self.old.texts < self.old.limits.texts) × (self.old.literals + count ≤ self.old.limits.literals) }
        ensures limits { self.new.limits ≡ self.old.limits }
        ensures more { (self.new.texts ≡ self.old.texts + 1) × (self.new.literals ≡ self.old.literals + count) }
    {
        *self = Room {
            texts: self.texts + 1,
            literals: self.literals + count,
            limits: self.limits,
        };
    }

    /// Gives all room back.
    pub fn clear(&mut self)
        ensures limits { self.new.limits ≡ self.old.limits }
        ensures empty { (self.new.texts ≡ 0) × (self.new.literals ≡ 0) }
    {
        *self = Room::new(self.limits);
    }

    /// The place of the text with this number, counted from 0.
    pub fn place(&self, number: u16) -> Result<usize, EngineFault>
        ensures { result ≡ placed self.now.texts number }
    {
        if number == 0 || number > self.texts {
            return Err(EngineFault::NoSuchText);
        }
        Ok(usize::from(number - 1))
    }
}
