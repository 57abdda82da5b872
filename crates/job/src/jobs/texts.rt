//! A job as a table of its clauses.
ghost use Rattle.job.specs.View.{texts};
ghost use Rattle.job.specs.Seen.{view};

use crate::jobs::Job;
use cnf::literals::Literal;
use trial::texts::Texts;

/// A job's clauses, looked up by their numbers.
impl<'a> Texts for Job<'a> {
    ghost clauses = { λ j. texts (view j) };

    fn clause(&self, number: u16) -> &[Literal] {
        self.text(number)
    }
}
