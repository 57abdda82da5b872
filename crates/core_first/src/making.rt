//! The making of a core-first engine: a look whether the sides are free, and a making that cannot be refused.
ghost use Rattle.std.specs.Prelude.{◌≡◌, min, Some};
ghost use Rattle.engine.specs.declared.faults.EngineFault.TheVariants.{TrialOpen};
ghost use Rattle.engine.specs.Limits.{judged, made};
ghost use Rattle.core_first.specs.Core.{no_core};
ghost use Rattle.core_first.specs.CoreSides.{LeftAlone, core_meaning};

use crate::{CoreFirst, Sides};
use engine::books::Books;
use engine::contract::Engine;
use engine::faults::EngineFault;

impl<P: Engine, R: Engine> CoreFirst<P, R> {
    /// Whether the two engines can be sides: neither is in an open trial.
    pub fn fits(preferred: &P, rest: &R) -> Result<(), EngineFault>
        ensures { result ≡ judged (no_core (P.meaning preferred.now) (R.meaning rest.now)) }
    {
        if preferred.is_open() || rest.is_open() {
            return Err(EngineFault::TrialOpen);
        }
        Ok(())
    }

    /// An empty engine over both, which it clears, with the smaller of their limits. Where one of them is in an open
    /// trial its limits are 0, and it leaves both alone for good.
    pub fn new(preferred: P, rest: R) -> CoreFirst<P, R>
        ensures means { core_meaning P.meaning R.meaning result.sides result.books.room result.books.session ≡ made (no_core (P.meaning preferred) (R.meaning rest)) (min (P.meaning preferred).text_limit (R.meaning rest).text_limit) (min (P.meaning preferred).literal_limit (R.meaning rest).literal_limit) }
        ensures alone { no_core (P.meaning preferred) (R.meaning rest) ≡ Some TrialOpen → LeftAlone preferred rest result.sides }
    {
        let linked = CoreFirst::fits(&preferred, &rest).is_ok();
        let mut sides = Sides {
            preferred,
            rest,
            linked,
        };
        sides.clear();
        CoreFirst {
            books: Books::new(sides.limits()),
            sides,
        }
    }
}
