//! Texts and their standard forms, by table; each expected form is worked out by hand.
#![tactic(auto)]

#[cfg(test)]
mod bodies;
#[cfg(test)]
mod headings;
#[cfg(test)]
mod numbers;
#[cfg(test)]
mod prints;
