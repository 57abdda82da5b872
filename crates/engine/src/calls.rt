//! Calls of an engine that it does not refuse. Each asks its caller for what excludes a refusal: this is an inner layer
//! for the crates of the box, which know that.
ghost use Rattle.std.specs.Prelude.{◌≡◌, ℕ, true, false, None};
ghost use Rattle.cnf.specs.Arranging.{arranged};
ghost use Rattle.cnf.specs.Clauses.{◌∈◌};
ghost use Rattle.engine.specs.Meaning.{shut, no_trial, no_put, no_on, no_off, no_assume, cleared, with_text, with_mark, with_opened, joined_by, On, Says, answered};

use crate::answers::Answer;
use crate::contract::Engine;
use crate::trials::Trial;
use cnf::literals::Literal;

/// Empties an engine that has no trial open.
pub fn clear<E: Engine>(engine: &mut E)
    requires allowed { shut (E.meaning engine.old) ≡ None }
    ensures does { E.meaning engine.new ≡ cleared (E.meaning engine.old) }
{
    engine.clear().unwrap();
}

/// Adds a text for which there is room.
pub fn put<E: Engine>(engine: &mut E, literals: &[Literal])
    requires allowed { no_put (E.meaning engine.old) literals.now ≡ None }
    ensures does { E.meaning engine.new ≡ with_text (arranged literals.now) (E.meaning engine.old) }
{
    engine.put(literals).unwrap();
}

/// Turns a text on that is off.
pub fn on<E: Engine>(engine: &mut E, number: u16)
    requires allowed { no_on (E.meaning engine.old) number ≡ None }
    ensures does { E.meaning engine.new ≡ with_mark number true (E.meaning engine.old) }
{
    engine.on(number).unwrap();
}

/// Turns a text off that is on.
pub fn off<E: Engine>(engine: &mut E, number: u16)
    requires allowed { no_off (E.meaning engine.old) number ≡ None }
    ensures does { E.meaning engine.new ≡ with_mark number false (E.meaning engine.old) }
{
    engine.off(number).unwrap();
}

/// Says of a text that is on that it is in the core.
pub fn prefer<E: Engine>(engine: &mut E, number: u16)
    requires allowed { no_off (E.meaning engine.old) number ≡ None }
    ensures does { E.meaning engine.new ≡ E.meaning engine.old }
{
    engine.prefer(number).unwrap();
}

/// Opens a trial where none is open.
pub fn open<E: Engine>(engine: &mut E) -> Trial
    requires allowed { shut (E.meaning engine.old) ≡ None }
    ensures does { E.meaning engine.new ≡ with_opened true (E.meaning engine.old) }
{
    engine.open().unwrap()
}

/// Assumes a literal in range whose variable has no value.
pub fn assume<E: Engine>(engine: &mut E, trial: &Trial, literal: Literal)
    requires allowed { no_assume (E.meaning engine.old) literal ≡ None }
    ensures does { E.meaning engine.new ≡ joined_by literal 0 (E.meaning engine.old) }
{
    engine.assume(trial, literal).unwrap();
}

/// The answer in an open trial.
pub fn next<E: Engine>(engine: &mut E, trial: &Trial) -> Answer
    requires allowed { no_trial (E.meaning engine.old) ≡ None }
    ensures says { Says (E.meaning engine.old) result }
    ensures picked { E.Engine.picks (E.meaning engine.old) result }
    ensures does { E.meaning engine.new ≡ answered (E.meaning engine.old) result }
{
    engine.next(trial).unwrap()
}

/// Ends an open trial.
pub fn end<E: Engine>(engine: &mut E, trial: Trial)
    requires allowed { no_trial (E.meaning engine.old) ≡ None }
    ensures does { E.meaning engine.new ≡ with_opened false (E.meaning engine.old) }
{
    engine.end(trial).unwrap();
}

/// Says of each number that its text, which is on, is in the core. No trial is open.
pub fn prefer_all<E: Engine>(engine: &mut E, numbers: &[u16])
    requires idle { (E.meaning engine.old).opened ≡ false }
    requires on { (n : ℕ) → n ∈ numbers.now → On (E.meaning engine.old) n }
    ensures does { E.meaning engine.new ≡ E.meaning engine.old }
{
    for number in numbers {
        prefer(engine, *number);
    }
}
