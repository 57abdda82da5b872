//! The making of a scanning engine: a look whether the lists serve, and a making that cannot be refused.
ghost use Rattle.std.specs.Prelude.{◌≡◌, length};
ghost use Rattle.engine.specs.Limits.{no_making, judged, made};
ghost use Rattle.scanning.specs.Seen.{scan_meaning};

use crate::Scanning;
use crate::rows::TextRow;
use cnf::literals::Literal;
use engine::books::Books;
use engine::faults::EngineFault;
use engine::limits::Limits;

impl<'a> Scanning<'a> {
    /// Whether the lists serve an engine with these limits.
    pub fn fits(limits: Limits, rows: &[TextRow], places: &[Literal]) -> Result<(), EngineFault>
        ensures { result ≡ judged (no_making limits.texts limits.literals (length rows.now) (length places.now)) }
    {
        limits.fit(rows.len(), places.len())
    }

    /// An empty engine with these limits, or with limits 0 where the lists do not serve them.
    pub fn new(limits: Limits, rows: &'a mut [TextRow], places: &'a mut [Literal]) -> Scanning<'a>
        ensures { scan_meaning result ≡ made (no_making limits.texts limits.literals (length rows.old) (length places.old)) limits.texts limits.literals }
    {
        let limits = Scanning::fits(limits, rows, places)
            .map(|()| limits)
            .unwrap_or_default();
        Scanning {
            rows,
            places,
            books: Books::new(limits),
        }
    }
}
