//! A job: input clauses and proof steps, entered call by call into four lists that the caller lends.
#![tactic(auto)]

pub mod faults;
pub mod jobs;
pub mod records;
pub mod rows;
#[cfg(test)]
mod tests;
