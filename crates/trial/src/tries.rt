//! The trial of a lemma.
ghost use Rattle.std.specs.Prelude.{◌≡◌, ◌+◌, ◌≤◌, true, false, [], ◌++◌, map, length};
ghost use Rattle.cnf.specs.Literals.{complement};
ghost use Rattle.drup.specs.Backward.{asked};
ghost use Rattle.engine.specs.Meaning.{highest, with_trail, counted_by, values, Consistent};
ghost use Rattle.engine.specs.Trails.{entries_of};
ghost use Rattle.trial.specs.Noted.{latest};
ghost use Rattle.trial.specs.Trying.{supposed, EndsRight};

use cnf::literals::Literal;
use engine::answers::Answer;
use engine::calls;
use engine::contract::Engine;
use engine::trails::Trail;
use engine::trials::Trial;

/// How a trial ended.
#[derive(Clone, Copy)]
pub struct TrialEnd {
    /// The literals that were forced, each with the number of the text that forced it, oldest first.
    pub answers: Trail,
    /// The number of the text in conflict, if there is one.
    pub conflict: Option<u16>,
}

/// Assumes the complement of each literal.
fn suppose<E: Engine>(engine: &mut E, trial: &Trial, literals: &[Literal])
    requires opened { (E.meaning engine.old).opened ≡ true }
    requires fresh { (E.meaning engine.old).trail ≡ [] }
    requires consistent { Consistent literals.now }
    ensures { E.meaning engine.new ≡ with_trail (supposed literals.now) (E.meaning engine.old) }
{
    for literal in literals {
        calls::assume(engine, trial, literal.complement());
    }
}

/// Asks until there is a conflict or nothing more; each literal that is forced is noted.
fn ask<E: Engine>(engine: &mut E, trial: &Trial) -> TrialEnd
    requires { (E.meaning engine.old).opened ≡ true }
    ensures does { E.meaning engine.new ≡ with_trail ((E.meaning engine.old).trail ++ entries_of result.answers) (counted_by (asked (latest result.answers)) (E.meaning engine.old)) }
    ensures right { EndsRight (E.meaning engine.old) (values (E.meaning engine.old)) (latest result.answers) result.conflict }
{
    let mut answers = Trail::new();
    let conflict = loop {
        match calls::next(engine, trial) {
            Answer::Conflict(number) => break Some(number),
            Answer::Nothing => break None,
            Answer::Forced(forced) => answers.push(forced),
        }
    };
    TrialEnd { answers, conflict }
}

/// Tries a lemma over the texts that are on: the complements of its literals are assumed, and the engine is asked until
/// there is a conflict or nothing more. Each literal that is forced is noted. The trial is ended, and of what the engine
/// stands for only the count of its answers has changed.
pub fn try_lemma<E: Engine>(engine: &mut E, lemma: &[Literal]) -> TrialEnd
    requires idle { (E.meaning engine.old).opened ≡ false }
    requires consistent { Consistent lemma.now }
    ensures does { E.meaning engine.new ≡ counted_by (asked (latest result.answers)) (E.meaning engine.old) }
    ensures right { EndsRight (E.meaning engine.old) (map complement lemma.now) (latest result.answers) result.conflict }
    ensures few { length lemma.now + length (latest result.answers) ≤ highest }
{
    let trial = calls::open(engine);
    suppose(engine, &trial, lemma);
    let end = ask(engine, &trial);
    calls::end(engine, trial);
    end
}
