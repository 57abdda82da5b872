//! An engine of two engines: the texts of the core are asked first.
#![tactic(auto)]

ghost use Rattle.core_first.specs.CoreSides.{core_meaning, Whole};

use engine::books::Books;
use engine::contract::Engine;

mod asking;
mod both;
pub mod making;
pub mod serving;

/// Two engines that hold the same texts, each on in at most one of them. Sides that are not linked are left alone.
#[derive(Drop)]
struct Sides<P, R> {
    preferred: P,
    rest: R,
    // An enum would be no plainer: both its variants would hold the same two engines.
    linked: bool,
}

/// An engine that asks what is on in the preferred side first, and the rest only when that finds nothing.
#[derive(Drop)]
pub struct CoreFirst<P: Engine, R: Engine> {
    sides: Sides<P, R>,
    books: Books,
    ghost whole: { Whole P.meaning R.meaning sides books.room (core_meaning P.meaning R.meaning sides books.room books.session) },
}
