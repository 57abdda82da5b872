//! Texts in DIMACS form: a reader of formulas, what is wrong with a text, and the standard form.
#![tactic(auto)]

pub mod faults;
pub mod formulas;
pub mod laws;
pub mod memory;
pub mod standard;
