//! A trial of any clause, over any engine.
ghost use Rattle.trial.specs.Trials.{Tries};

use crate::tries::try_lemma;
use cnf::drafts::MOST_VARIABLES;
use cnf::drafts::arranging::arrange;
use cnf::literals::Literal;
use engine::contract::Engine;
use engine::faults::EngineFault;

/// Whether a clause passes over the texts that are on: with its literals false, unit propagation comes to a conflict.
/// The literals may come in any order.
pub fn try_clause<E: Engine>(engine: &mut E, literals: &[Literal]) -> Result<bool, EngineFault>
    ensures { Tries (E.meaning engine.old) literals.now result (E.meaning engine.new) }
{
    if engine.is_open() {
        return Err(EngineFault::TrialOpen);
    }
    let draft = arrange(MOST_VARIABLES, literals);
    let clause = draft.clause()?;
    Ok(try_lemma(engine, clause).conflict.is_some())
}
