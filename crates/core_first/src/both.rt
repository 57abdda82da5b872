//! What the two sides do together. Where a side's result is let go, the whole has tested what the side would refuse.
//! A text is put, turned or moved only in sides that are linked: others hold none, and have no room for one.
ghost use Rattle.std.specs.Prelude.{◌≡◌, true, false, None};
ghost use Rattle.cnf.specs.Arranging.{arranged};
ghost use Rattle.engine.specs.Meaning.{cleared, with_text, with_mark, with_opened, joined_by, no_put, no_on, no_off, no_assume};
ghost use Rattle.core_first.specs.Core.{least};
ghost use Rattle.core_first.specs.CoreSides.{Alone, Cleared, Carries, Turns, Moved, Answers};

use crate::Sides;
use crate::asking::ask;
use cnf::literals::Literal;
use engine::answers::Answer;
use engine::contract::Engine;
use engine::faults::EngineFault;
use engine::limits::Limits;
use engine::trials::{Key, Trial};

impl<P: Engine, R: Engine> Sides<P, R> {
    /// The smaller of both limits, or 0 where both are left alone.
    pub(crate) fn limits(&self) -> Limits
        ensures { result ≡ least self.now.linked (P.meaning self.now.preferred) (R.meaning self.now.rest) }
    {
        if !self.linked {
            return Limits::default();
        }
        Limits {
            texts: self.preferred.text_limit().min(self.rest.text_limit()),
            literals: self
                .preferred
                .literal_limit()
                .min(self.rest.literal_limit()),
        }
    }

    /// Clears both sides.
    pub(crate) fn clear(&mut self)
        ensures clears { Cleared P.meaning R.meaning self.old self.new }
        ensures carries { Carries P.meaning R.meaning (λ m. m.opened ≡ false) cleared self.old self.new }
        ensures alone { Alone self.old self.new }
    {
        if self.linked {
            let _ = self.preferred.clear();
            let _ = self.rest.clear();
        }
    }

    /// Adds a text to both sides.
    pub(crate) fn put(&mut self, literals: &[Literal])
        requires linked { self.old.linked ≡ true }
        ensures carries { Carries P.meaning R.meaning (λ m. no_put m literals.now ≡ None) (with_text (arranged literals.now)) self.old self.new }
    {
        let _ = self.preferred.put(literals);
        let _ = self.rest.put(literals);
    }

    /// Turns a text on in the rest.
    pub(crate) fn on(&mut self, number: u16) -> Result<(), EngineFault>
        requires linked { self.old.linked ≡ true }
        ensures turns { Turns P.meaning R.meaning number (λ m. no_on m number) (with_mark number true) self.old result self.new }
        ensures kept { P.meaning self.new.preferred ≡ P.meaning self.old.preferred }
    {
        match self.preferred.prefer(number) {
            Ok(()) => Err(EngineFault::AlreadyOn),
            Err(_) => self.rest.on(number),
        }
    }

    /// Turns a text off in the side where it is on.
    pub(crate) fn off(&mut self, number: u16) -> Result<(), EngineFault>
        requires linked { self.old.linked ≡ true }
        ensures turns { Turns P.meaning R.meaning number (λ m. no_off m number) (with_mark number false) self.old result self.new }
    {
        // By `match`: of a closure that `or_else` doesn't call, no contract says that it leaves the rest as it was.
        match self.preferred.off(number) {
            Ok(()) => Ok(()),
            Err(_) => self.rest.off(number),
        }
    }

    /// Moves a text that is on to the preferred side.
    pub(crate) fn prefer(&mut self, number: u16) -> Result<(), EngineFault>
        requires linked { self.old.linked ≡ true }
        ensures turns { Turns P.meaning R.meaning number (λ m. no_off m number) (λ m. m) self.old result self.new }
        ensures moved { Moved P.meaning R.meaning number self.old result self.new }
    {
        match self.rest.off(number) {
            Ok(()) => self.preferred.on(number),
            Err(_) => self.preferred.prefer(number),
        }
    }

    /// Begins a trial in both sides.
    pub(crate) fn begin(&mut self, key: &Key)
        ensures carries { Carries P.meaning R.meaning (λ m. m.opened ≡ false) (with_opened true) self.old self.new }
        ensures alone { Alone self.old self.new }
    {
        if self.linked {
            let _ = self.preferred.begin(key);
            let _ = self.rest.begin(key);
        }
    }

    /// Puts a literal on both trails.
    pub(crate) fn assume(&mut self, trial: &Trial, literal: Literal)
        ensures carries { Carries P.meaning R.meaning (λ m. no_assume m literal ≡ None) (joined_by literal 0) self.old self.new }
        ensures alone { Alone self.old self.new }
    {
        if self.linked {
            let _ = self.preferred.assume(trial, literal);
            let _ = self.rest.assume(trial, literal);
        }
    }

    /// What the preferred side answers, or the rest where that has nothing.
    pub(crate) fn next(&mut self, trial: &Trial) -> Answer
        ensures answers { Answers P.meaning R.meaning self.old result self.new }
        ensures alone { Alone self.old self.new }
    {
        if !self.linked {
            return Answer::Nothing;
        }
        match ask(&mut self.preferred, &mut self.rest, trial) {
            Answer::Nothing => ask(&mut self.rest, &mut self.preferred, trial),
            answer => answer,
        }
    }

    /// Ends the trial in both sides.
    pub(crate) fn finish(&mut self, key: &Key)
        ensures carries { Carries P.meaning R.meaning (λ m. m.opened ≡ true) (with_opened false) self.old self.new }
        ensures alone { Alone self.old self.new }
    {
        if self.linked {
            let _ = self.preferred.finish(key);
            let _ = self.rest.finish(key);
        }
    }
}
