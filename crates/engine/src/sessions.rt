//! The trial of an engine and its count of answers, for engines to share.
ghost use Rattle.std.specs.Prelude.{◌≡◌, ◌≤◌, true, false, []};
ghost use Rattle.engine.specs.Meaning.{most, Meaning, Opens, Assumes, Ends, shut, no_trial, answered, values_of, Consistent};
ghost use Rattle.engine.specs.Trails.{entries_of};
ghost use Rattle.engine.specs.Limits.{judged};

use crate::answers::Answer;
use crate::faults::EngineFault;
use crate::looks::has_value;
use crate::trails::Trail;
use arrayvec::ArrayVec;
use cnf::drafts::MOST_VARIABLES;
use cnf::faults::ClauseFault;
use cnf::literals::{Forced, Literal};

/// The trail, whether a trial is open, and how many answers were given. Each contract says what a call does to any engine
/// that has this session.
#[derive(Drop)]
pub struct Session {
    trail: Trail,
    // A flag beside the trail: with an Option of it each trial would make a table of 512 places anew.
    opened: bool,
    answers: u32,
    // Always empty: where no part of an engine owns memory, the borrow checker covers no caller that holds it by its type.
    owned: ArrayVec<Forced, 0>,
    ghost consistent: { Consistent (values_of (entries_of trail)) },
    ghost at_rest: { opened ≡ false → entries_of trail ≡ [] },
    ghost countable: { answers ≤ most },
}

impl Session {
    ghost use Rattle.engine.specs.Sessions.{in_session};
    ghost use Rattle.engine.specs.Trails.{AnswerJoins};

    /// No trial is open, and no answer was given.
    pub fn new() -> Session
        ensures { (result.opened ≡ false) × (result.answers ≡ 0) }
    {
        Session {
            trail: Trail::new(),
            opened: false,
            answers: 0,
            owned: ArrayVec::new(),
        }
    }

    /// Whether a trial is open.
    pub fn is_open(&self) -> bool
        ensures { result ≡ self.now.opened }
    {
        self.opened
    }

    /// How many answers were given, at most 4,294,967,295.
    pub fn answers(&self) -> u32
        ensures { result ≡ self.now.answers }
    {
        self.answers
    }

    /// What stands on the trail, oldest first; nothing where no trial is open.
    pub fn entries(&self) -> &[Forced]
        ensures { result.now ≡ entries_of self.now.trail }
    {
        self.trail.entries()
    }

    /// Refuses while a trial is open.
    pub fn ensure_shut(&self) -> Result<(), EngineFault>
        ensures { (m : Meaning) → result ≡ judged (shut (in_session self.now m)) }
    {
        if self.is_open() {
            return Err(EngineFault::TrialOpen);
        }
        Ok(())
    }

    /// Refuses while no trial is open.
    pub fn ensure_open(&self) -> Result<(), EngineFault>
        ensures { (m : Meaning) → result ≡ judged (no_trial (in_session self.now m)) }
    {
        if !self.is_open() {
            return Err(EngineFault::NoTrial);
        }
        Ok(())
    }

    /// Opens a trial with an empty trail, unless one is open.
    pub fn begin(&mut self) -> Result<(), EngineFault>
        ensures { (m : Meaning) → Opens (in_session self.old m) result (in_session self.new m) }
    {
        self.ensure_shut()?;
        let Session { opened, .. } = self;
        *opened = true;
        Ok(())
    }

    /// Puts a literal whose variable has no value on the trail of an open trial.
    pub fn assume(&mut self, literal: Literal) -> Result<(), EngineFault>
        ensures { (m : Meaning) → Assumes (in_session self.old m) literal result (in_session self.new m) }
    {
        self.ensure_open()?;
        if literal.is_outside(MOST_VARIABLES) {
            return Err(EngineFault::Clause(ClauseFault::OutOfRange { place: 0 }));
        }
        if has_value(self.entries(), literal) {
            return Err(EngineFault::HasValue);
        }
        self.trail.push(Forced { literal, number: 0 });
        Ok(())
    }

    /// Counts an answer of an open trial. A literal that it forces joins the trail.
    pub fn note(&mut self, answer: Answer)
        requires open { self.old.opened ≡ true }
        requires joins { AnswerJoins answer (values_of (entries_of self.old.trail)) }
        ensures { (m : Meaning) → in_session self.new m ≡ answered (in_session self.old m) answer }
    {
        let Session { trail, answers, .. } = self;
        *answers = answers.saturating_add(1);
        if let Answer::Forced(forced) = answer {
            trail.push(forced);
        }
    }

    /// Ends the trial that is open, and empties the trail.
    pub fn finish(&mut self) -> Result<(), EngineFault>
        ensures { (m : Meaning) → Ends (in_session self.old m) result (in_session self.new m) }
    {
        self.ensure_open()?;
        let Session { trail, opened, .. } = self;
        trail.clear();
        *opened = false;
        Ok(())
    }

    /// Counts answers from 0 again.
    pub fn restart(&mut self)
        ensures kept { (self.new.trail ≡ self.old.trail) × (self.new.opened ≡ self.old.opened) }
        ensures answers { self.new.answers ≡ 0 }
    {
        let Session { answers, .. } = self;
        *answers = 0;
    }
}
