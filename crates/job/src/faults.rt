//! Why a job refuses.
ghost use Rattle.std.specs.Prelude.{◌≡◌};
ghost use Rattle.job.specs.Faults.{number_of, layer_of, place_of};
ghost use Rattle.job.specs.declared.faults.JobFault.TheVariants.{Clause};

use cnf::faults::{ClauseFault, Layer};

/// Why a job refuses a call.
#[derive(Clone, Copy, PartialEq, Eq, Debug)]
pub enum JobFault {
    /// What is wrong with the literals of a call.
    Clause(ClauseFault),
    /// A list is too short, or an engine too small.
    TooSmall,
    /// The numbers of variables, clause places or literal places are out of range.
    Limits,
    /// An input clause after a step.
    Begun,
    /// A lemma or a strike after the empty lemma.
    Ended,
    /// No clause place or too few literal places are left.
    Full,
    /// No live clause has these literals.
    NoneLive,
    /// There is no step to withdraw.
    NoStep,
    /// The last step is not the empty lemma.
    NotEnded,
    /// The lemma at this step is kept and does not pass.
    Fails { step: usize },
    /// The job is not judged.
    NotJudged,
    /// The engine is in a trial.
    TrialOpen,
}

/// A job's fault carries the clause's fault whole.
// By hand, since contracts name the fault that `?` makes, and a derived From has none.
impl From<ClauseFault> for JobFault {
    ghost from_gives = { λ whole r. r ≡ Clause whole };

    fn from(whole: ClauseFault) -> JobFault {
        JobFault::Clause(whole)
    }
}

impl JobFault {
    /// The number of the refusal.
    pub fn number(self) -> u8
        ensures { result ≡ number_of self }
    {
        match self {
            JobFault::Clause(fault) => fault.number(),
            JobFault::TooSmall => 6,
            JobFault::Limits => 7,
            JobFault::Begun => 8,
            JobFault::Ended => 9,
            JobFault::Full => 10,
            JobFault::NoneLive => 11,
            JobFault::NoStep => 12,
            JobFault::NotEnded => 13,
            JobFault::Fails { .. } => 14,
            JobFault::NotJudged => 15,
            JobFault::TrialOpen => 19,
        }
    }

    /// The part of the box that refuses.
    pub fn layer(self) -> Layer
        ensures { result ≡ layer_of self }
    {
        match self {
            JobFault::Clause(fault) => fault.layer(),
            _ => Layer::Job,
        }
    }

    /// The index of the literal at fault, or the step whose lemma does not pass; other refusals have no place.
    pub fn place(self) -> usize
        ensures { result ≡ place_of self }
    {
        match self {
            JobFault::Clause(fault) => fault.place(),
            JobFault::Fails { step } => step,
            _ => 0,
        }
    }
}
