//! Literals and clauses: the order of literals, the arranging of a call's literals into a clause, and what is
//! wrong with literals that make none.
#![tactic(auto)]

pub mod drafts;
pub mod faults;
pub mod literals;
pub mod order;
