//! A literal, its complement and the order of literals.
ghost use Rattle.std.specs.Prelude.{◌≡◌};
ghost use Rattle.cnf.specs.Literals.{complement, earlier};
ghost use Rattle.cnf.specs.Order.{before};
ghost use Rattle.cnf.specs.Arranging.{outside};
ghost use Rattle.cnf.specs.declared.literals.Literal.{Literal};
ghost use Rattle.std.proofs.Common.{rules};

use crate::order::TotalOrder;

/// A variable or its negation. Variables count from 1; the variable 0 is none, and can still be written down.
#[derive(Clone, Copy, PartialEq, Eq, PartialOrd, Ord, Default, Debug)]
pub struct Literal {
    pub variable: u16,
    pub negated: bool,
}

impl Literal {
    /// The literal that is true exactly when this one is false.
    pub fn complement(self) -> Literal
        ensures { result ≡ complement self }
    {
        Literal {
            negated: !self.negated,
            ..self
        }
    }

    /// Whether the variable is 0 or beyond the highest.
    pub fn is_outside(self, highest: u16) -> bool
        ensures { result ≡ outside highest self }
    {
        self.variable == 0 || highest < self.variable
    }
}

/// A literal with the number of the clause that forces it, or with 0 where it is assumed.
#[derive(Clone, Copy, PartialEq, Eq, Default, Debug)]
pub struct Forced {
    pub literal: Literal,
    pub number: u16,
}

/// By rising variable; of a variable's two literals the positive one comes first.
impl TotalOrder for Literal {
    ghost before = { earlier };

    ghost irreflexive = { Prim.search rules };

    ghost transitive = { Prim.search rules };

    ghost connected = { Prim.search rules };

    fn is_before(&self, other: &Literal) -> bool {
        self < other
    }
}

/// The derived order is by rising variable; of a variable's two literals the positive one comes first.
pub fn literals_rise()
    ensures { (k l : Literal) → before ⟦<Literal as Ord>⟧.cmp k l ≡ earlier k l }
{}
