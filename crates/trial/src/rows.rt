//! The row of a conflict.
ghost use Rattle.std.specs.Prelude.{◌≡◌, ◌≤◌, [], ◌∷◌};
ghost use Rattle.cnf.specs.Literals.{complement};
ghost use Rattle.drup.specs.Backward.{gathered};
ghost use Rattle.engine.specs.Meaning.{highest, text_in};
ghost use Rattle.trial.specs.Noted.{latest};
ghost use Rattle.trial.specs.Numbered.{Numbered};
ghost use Rattle.trial.specs.Seeing.{sees};
ghost use Rattle.trial.specs.Gathering.{numbers_of, AllWithin, AllKnown};

use crate::antecedents::Antecedents;
use crate::seen::Seen;
use crate::texts::Texts;
use arrayvec::ArrayVec;
use cnf::literals::Forced;
use engine::trails::Trail;

/// Whether the clause that forced this literal is an antecedent: the literal's complement was seen.
fn enters(seen: &Seen, forced: Forced) -> bool
    requires { forced.literal.variable ≤ highest }
    ensures { result ≡ sees seen.now (complement forced.literal) }
{
    seen.has(forced.literal.complement())
}

/// The antecedents of a lemma whose trial ended in a conflict at the clause with this number. That clause comes last;
/// from the latest answer back, the clause that forced a literal is put ahead if the literal's complement stands in a
/// clause of the row.
pub fn row_of<T: Texts>(texts: &T, answers: &Trail, conflict: u16) -> Antecedents
    requires within { AllWithin (T.clauses texts.now) }
    requires known { AllKnown (T.clauses texts.now) (latest answers.now) }
    requires numbered { Numbered (T.clauses texts.now) conflict }
    ensures { numbers_of result ≡ gathered (text_in (T.clauses texts.now)) (latest answers.now) (conflict ∷ []) }
{
    let mut seen = Seen::new();
    let mut numbers = ArrayVec::new();
    numbers.push(conflict);
    seen.add_clause(texts.clause(conflict));
    for forced in answers.entries().iter().rev() {
        if enters(&seen, *forced) {
            numbers.push(forced.number);
            seen.add_clause(texts.clause(forced.number));
        }
    }
    // They were found from the last to the first.
    numbers.reverse();
    Antecedents { numbers }
}
