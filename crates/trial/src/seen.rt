//! A table of the literals that were seen.
ghost use Rattle.std.specs.Prelude.{◌≡◌, ◌≤◌, false, ◌||◌};
ghost use Rattle.cnf.specs.declared.literals.Literal.{Literal as Lit};
ghost use Rattle.cnf.specs.Literals.{same_literal};
ghost use Rattle.cnf.specs.Clauses.{Within};
ghost use Rattle.drup.specs.Backward.{holds};
ghost use Rattle.engine.specs.Meaning.{highest};
ghost use Rattle.trial.specs.Seeing.{sees};

use cnf::drafts::MOST_LITERALS;
use cnf::literals::Literal;

/// The variable 0 has a place too, so that a variable is its own index.
const PLACES: usize = MOST_LITERALS + 1;

/// Of a variable whether its positive literal was seen, and whether its negative one was.
#[derive(Clone, Copy, Default)]
pub(crate) struct Signs {
    positive: bool,
    negative: bool,
}

/// The signs of each variable that were seen.
#[derive(Drop)]
pub(crate) struct Seen {
    signs: [Signs; PLACES],
}

impl Seen {
    /// No literal was seen.
    pub(crate) fn new() -> Seen
        ensures { (l : Lit) → sees result l ≡ false }
    {
        Seen {
            signs: [Signs::default(); PLACES],
        }
    }

    /// Whether this literal was seen.
    pub(crate) fn has(&self, literal: Literal) -> bool
        requires { literal.variable ≤ highest }
        ensures { result ≡ sees self.now literal }
    {
        let signs = self.signs[usize::from(literal.variable)];
        if literal.negated {
            signs.negative
        } else {
            signs.positive
        }
    }

    /// Sees one literal more.
    pub(crate) fn add(&mut self, literal: Literal)
        requires { literal.variable ≤ highest }
        ensures { (l : Lit) → sees self.new l ≡ (same_literal l literal || sees self.old l) }
    {
        let signs = &mut self.signs[usize::from(literal.variable)];
        if literal.negated {
            signs.negative = true;
        } else {
            signs.positive = true;
        }
    }

    /// Sees the literals of a clause.
    pub(crate) fn add_clause(&mut self, clause: &[Literal])
        requires { Within highest clause.now }
        ensures { (l : Lit) → sees self.new l ≡ (holds l clause.now || sees self.old l) }
    {
        for literal in clause {
            self.add(*literal);
        }
    }
}
