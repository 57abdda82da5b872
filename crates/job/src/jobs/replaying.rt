//! Any calls, one after the other, on a new job.
ghost use Rattle.std.specs.Prelude.{◌≡◌};
ghost use Rattle.job.specs.Seen.{view, SameLent};
ghost use Rattle.job.specs.Calls.{done_of};
ghost use Rattle.job.specs.Opening.{opened_over};
ghost use Rattle.job.specs.Replaying.{Came, Replays};

use crate::faults::JobFault;
use crate::jobs::Job;
use crate::jobs::opening::{Size, open};
use crate::jobs::orders::Order;
use crate::rows::{ClauseRow, StepRow};
use cnf::literals::Literal;
use engine::contract::Engine;

/// An answer with what it gives left out.
fn done<T: Drop>(answer: Result<T, JobFault>) -> Result<(), JobFault>
    ensures { result ≡ done_of answer }
{
    answer.map(|_| ())
}

impl Job<'_> {
    /// Makes a call, and refuses where it does.
    // A match over calls as data, and no closures: what is proved of `replay` is about any list of calls.
    pub(crate) fn obey<E: Engine>(&mut self, engine: &mut E, order: Order) -> Result<(), JobFault>
        ensures lent { SameLent self.old self.new }
        ensures came { Came (view self.old) order.entry result (view self.new) }
    {
        match order {
            Order::Clause(literals) => done(self.clause(literals)),
            Order::Lemma(literals) => done(self.lemma(literals)),
            Order::Strike(literals) => done(self.strike(literals)),
            Order::Withdraw => done(self.withdraw()),
            Order::Check => done(self.check(engine)),
        }
    }
}

/// Opens a job over lent lists, makes these calls with any engine, and refuses where the last of them does. What happens
/// is a run of the box, and after each event the box agrees with a forward check that was fed just the arguments of the
/// calls.
// The lists stand apart, as at `open`.
pub fn replay<E: Engine>(
    size: Size,
    records: &mut [ClauseRow],
    steps: &mut [StepRow],
    literals: &mut [Literal],
    arcs: &mut [u16],
    engine: &mut E,
    orders: &[Order],
) -> Result<(), JobFault>
    ensures replays { Replays (opened_over size records.old steps.old literals.old arcs.old) orders.now result records.new steps.new literals.new arcs.new }
{
    let mut job = open(size, records, steps, literals, arcs);
    let mut last = Ok(());
    for order in orders {
        last = job.obey(engine, *order);
    }
    last
}
