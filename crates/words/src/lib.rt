//! The words of a text in DIMACS form, one by one: names and numbers, each with its byte place.
#![tactic(auto)]

pub mod lexis;
pub mod numbers;
pub mod reader;
