//! A lemma is tried over any engine: the complements of its literals are assumed, and the engine is asked until there
//! is a conflict or nothing more. A conflict gives the row of the lemma's antecedents.
#![tactic(auto)]

pub mod antecedents;
pub mod clauses;
pub mod rows;
mod seen;
pub mod texts;
pub mod tries;
