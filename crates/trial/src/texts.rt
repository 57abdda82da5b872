//! A table of clauses that is only read.
ghost use Rattle.std.specs.Prelude.{◌≡◌, List};
ghost use Rattle.cnf.specs.Clauses.{Clause};
ghost use Rattle.engine.specs.Meaning.{text_in};
ghost use Rattle.trial.specs.Numbered.{Numbered};

use cnf::literals::Literal;

/// Clauses that are looked up by their numbers, which count from 1.
pub trait Texts {
    /// The clauses, oldest first.
    ghost clauses: { Self → List Clause };

    /// The literals of the clause with this number.
    fn clause(&self, number: u16) -> &[Literal]
        requires { Numbered (clauses self.now) number }
        ensures { result.now ≡ text_in (clauses self.now) number };
}
