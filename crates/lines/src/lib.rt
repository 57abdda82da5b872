//! Writers of numbers, literals, clauses, formulas and refusals as lines of bytes.
#![tactic(auto)]

pub mod faults;
mod pages;
#[cfg(test)]
mod tests;
mod texts;
pub mod writers;
