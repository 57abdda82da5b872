//! The interface below the check: an engine holds numbered clauses, its texts, of which some are on, and finds
//! conflicts among those that are on in trials.
#![tactic(auto)]

pub mod answers;
pub mod books;
pub mod calls;
pub mod contract;
pub mod faults;
pub mod limits;
pub mod looks;
pub mod sessions;
pub mod trails;
pub mod trials;
