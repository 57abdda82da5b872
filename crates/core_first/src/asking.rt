//! How one engine is asked, and another told what it answers.
ghost use Rattle.core_first.specs.Core.{Asked};

use engine::answers::Answer;
use engine::contract::Engine;
use engine::trials::Trial;

/// What the first engine answers in an open trial. The second, whose trail has the same literals, assumes what is forced.
pub(crate) fn ask<A: Engine, B: Engine>(first: &mut A, second: &mut B, trial: &Trial) -> Answer
    ensures { Asked (A.meaning first.old) (B.meaning second.old) result (A.meaning first.new) (B.meaning second.new) }
{
    let answer = first.next(trial).unwrap_or(Answer::Nothing);
    if let Answer::Forced(forced) = answer {
        let _ = second.assume(trial, forced.literal);
    }
    answer
}
