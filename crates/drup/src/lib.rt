//! The meaning of a checked proof, and the theorems that the box stands on. There is no running code here: each
//! function is empty, and its contract names a theorem; the definitions are in `specs/`, the proofs in `proofs/`.
#![tactic(auto)]

ghost use Rattle.drup.specs.Agreement.{Agreement, EveryCheckEnds};
ghost use Rattle.drup.specs.WellFormed.{StaysWellFormed};
ghost use Rattle.drup.specs.Propagating.{PassingIsPropagation, PassingIsSound};
ghost use Rattle.drup.specs.Laws.{AcceptanceRefutes, EntryLaw, WithdrawLaw, StrikeLaw, StepsFit, ClausesLive, GoingBack};
ghost use Rattle.drup.specs.Reading.{VerdictsAreRead};
ghost use Rattle.drup.specs.Jobs.{WorkedJobs};
ghost use Rattle.drup.specs.Slips.{RuleIsManner, TriedAtEndFails, EveryForcedKeepsMore, ItselfProvesAll};

/// The box agrees with the forward check after every event of every run from a newly opened box.
pub fn agreement()
    ensures { Agreement }
{}

/// A check that is not turned down comes to an outcome, and where the forward check accepts, to a verdict.
pub fn every_check_ends()
    ensures { EveryCheckEnds }
{}

/// The invariant of a machine holds of a new one, and every call keeps it.
pub fn calls_keep_well_formed()
    ensures { StaysWellFormed }
{}

/// A lemma passes exactly when unit propagation to its end, with the lemma's literals false, falsifies a live clause.
pub fn passing_is_propagation()
    ensures { PassingIsPropagation }
{}

/// A lemma that passes is implied by the live clauses.
pub fn passing_is_sound()
    ensures { PassingIsSound }
{}

/// What the forward check accepts has inputs that no assignment satisfies.
pub fn acceptance_refutes()
    ensures { AcceptanceRefutes }
{}

/// A clause or a lemma that is not turned down is entered with just its literals, by rising variable.
pub fn calls_enter_their_literals()
    ensures { EntryLaw }
{}

/// Withdraw takes back a lemma or a strike, and nothing of it is left.
pub fn withdraw_takes_back()
    ensures { WithdrawLaw }
{}

/// A strike strikes the highest live clause with its literals, and is turned down by 11 only where there is none.
pub fn strike_hits_highest_live()
    ensures { StrikeLaw }
{}

/// Every strike hits a live clause, and there are at most two steps to a clause place.
pub fn steps_fit()
    ensures { StepsFit }
{}

/// A clause lives from behind the step of its entry up to the step that strikes it, which is never at or before it.
pub fn clauses_live()
    ensures { ClausesLive }
{}

/// Going back over a strike brings its clause back to life, and over a lemma takes it away; the others stay.
pub fn going_back()
    ensures { GoingBack }
{}

/// The verdict of an accepting check is read off lists that have its marks and its rows.
pub fn verdicts_are_read_off_lists()
    ensures { VerdictsAreRead }
{}

/// The jobs on file come to the outcomes that the rules give.
pub fn worked_jobs()
    ensures { WorkedJobs }
{}

/// The check that the slips below part from, each by one choice, is the backward rule.
pub fn slips_part_from_the_rule()
    ensures { RuleIsManner }
{}

/// A check that tries lemmas over the clauses live at the end fails where the rule accepts.
pub fn slip_tried_at_end()
    ensures { TriedAtEndFails }
{}

/// A check that keeps every forced clause keeps one that the rule never does.
pub fn slip_kept_every_forced()
    ensures { EveryForcedKeepsMore }
{}

/// A check that lets a lemma prove itself accepts where the rule never does.
pub fn slip_proved_itself()
    ensures { ItselfProvesAll }
{}
