//! How a job is opened.
ghost use Rattle.std.specs.Prelude.{◌≡◌};
ghost use Rattle.job.specs.Seen.{view};
ghost use Rattle.job.specs.History.{box_in};
ghost use Rattle.job.specs.Opening.{fitting, opened_over, new_box};

use crate::faults::JobFault;
use crate::jobs::Job;
use crate::rows::{ClauseRow, StepRow};
use cnf::drafts::MOST_VARIABLES;
use cnf::literals::Literal;

/// The most clauses that a job can have places for.
pub const MOST_PLACES: usize = 4096;

/// The most literals that a job can have places for.
pub const MOST_ROOM: usize = 32768;

/// The highest variable of a job, and what it has places for.
#[derive(Clone, Copy, PartialEq, Eq, Default, Debug)]
pub struct Size {
    /// The highest variable.
    pub variables: u16,
    /// How many clauses there are places for.
    pub places: usize,
    /// How many literals there are places for.
    pub room: usize,
}

/// Whether a job of this size can be opened over these lists: `places` records, twice as many steps, and `room`
/// literals. Longer lists do, too.
// The lists stand apart, as at `open`.
pub fn fits(
    size: Size,
    records: &[ClauseRow],
    steps: &[StepRow],
    literals: &[Literal],
) -> Result<(), JobFault>
    ensures { result ≡ fitting size records.now steps.now literals.now }
{
    if size.variables > MOST_VARIABLES
        || size.places == 0
        || size.places > MOST_PLACES
        || size.room > MOST_ROOM
    {
        return Err(JobFault::Limits);
    }
    if records.len() < size.places || steps.len() < 2 * size.places || literals.len() < size.room {
        return Err(JobFault::TooSmall);
    }
    Ok(())
}

/// Opens a job over lent lists, and writes to none. Where `fits` refuses, the job has no variable and no place.
// The lists stand apart: of a struct of references that is passed on, no proof tells what the lists hold in the end.
pub fn open<'a>(
    size: Size,
    records: &'a mut [ClauseRow],
    steps: &'a mut [StepRow],
    literals: &'a mut [Literal],
    arcs: &'a mut [u16],
) -> Job<'a>
    ensures lent { (result.records.ghost_name ≡ records.entry.ghost_name) × (result.steps.ghost_name ≡ steps.entry.ghost_name) × (result.literals.ghost_name ≡ literals.entry.ghost_name) × (result.arcs.ghost_name ≡ arcs.entry.ghost_name) }
    ensures holds { view result ≡ opened_over size records.old steps.old literals.old arcs.old }
    ensures starts { box_in (view result) ≡ new_box result.size.variables result.size.places result.size.room }
{
    let size = fits(size, records, steps, literals)
        .map(|()| size)
        .unwrap_or_default();
    Job {
        size,
        records,
        steps,
        literals,
        arcs,
        inputs: 0,
        clauses: 0,
        taken: 0,
        used: 0,
        judged: false,
    }
}
