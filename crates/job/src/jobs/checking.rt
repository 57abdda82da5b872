//! The check as a whole.
ghost use Rattle.std.specs.Prelude.{◌≡◌, ◌≤◌};
ghost use Rattle.drup.specs.Box.{too_small, Happens};
ghost use Rattle.job.specs.History.{machine_of, box_in};
ghost use Rattle.job.specs.Seen.{view, SameLent, Becomes};
ghost use Rattle.job.specs.Checking.{begun, Allowed, Comes, Idle, lent_by, event_of, Leaves};

use crate::faults::JobFault;
use crate::jobs::Job;
use crate::jobs::reports::Report;
use engine::contract::Engine;

impl Job<'_> {
    /// Whether the engine or the arc list is too small.
    fn is_short<E: Engine>(&self, engine: &E) -> bool
        ensures { result ≡ too_small (machine_of (view self.now)) (lent_by (view self.now) (E.meaning engine.now)) }
    {
        let places = (self.clauses - self.inputs) as usize * (self.size.variables as usize + 1);
        engine.text_limit() < self.clauses
            || engine.literal_limit() < self.used
            || self.arcs.len() < places
    }

    /// Sets all arcs to 0, and marks the empty lemma alone.
    fn begin(&mut self)
        requires { 1 ≤ self.old.clauses }
        ensures { Becomes self.old (begun (view self.old)) self.new }
    {
        self.clear();
        self.keep(&[self.clauses]);
    }

    /// Judges the lemmas: gives the report, or refuses with the step whose lemma does not pass.
    fn run<E: Engine>(&mut self, engine: &mut E) -> Result<Report, JobFault>
        requires allowed { Allowed (view self.old) (E.meaning engine.old) }
        ensures lent { SameLent self.old self.new }
        ensures comes { Comes (view self.old) result (view self.new) (E.meaning engine.new) }
        ensures idle { Idle (view self.old) (E.meaning engine.new) }
    {
        self.begin();
        self.start(engine);
        let walked = self.walk(engine);
        self.darken(engine);
        match walked {
            Ok(tally) => Ok(Report {
                inputs: self.kept_inputs(),
                lemmas: tally.lemmas,
                arcs: tally.arcs,
                answers: engine.answers(),
            }),
            Err(step) => {
                self.clear();
                Err(JobFault::Fails { step })
            }
        }
    }

    /// Checks the proof backward with an engine, keeps what the empty lemma needs, and reports. Where the last step is
    /// not the empty lemma, the engine or the arc list is too small, or a trial is open, it changes nothing. Where a kept
    /// lemma does not pass, it leaves no mark and no arc, and the job is not judged.
    pub fn check<E: Engine>(&mut self, engine: &mut E) -> Result<Report, JobFault>
        ensures lent { SameLent self.old self.new }
        ensures happens { Happens (box_in (view self.old)) (event_of (lent_by (view self.old) (E.meaning engine.old)) result (view self.new) (E.meaning engine.new)) (box_in (view self.new)) }
        ensures leaves { Leaves (view self.old) (E.meaning engine.old) result (view self.new) (E.meaning engine.new) }
    {
        if !self.is_ended() {
            return Err(JobFault::NotEnded);
        }
        if self.is_short(engine) {
            return Err(JobFault::TooSmall);
        }
        if engine.is_open() {
            return Err(JobFault::TrialOpen);
        }
        let report = self.run(engine);
        self.judged = report.is_ok();
        report
    }
}
