//! Looks at a text under a trail, for engines to share.
ghost use Rattle.std.specs.Prelude.{◌≡◌, ◌+◌, ◌≤◌, length};
ghost use Rattle.cnf.specs.Arranging.{names};
ghost use Rattle.engine.specs.Meaning.{values_of};
ghost use Rattle.engine.specs.Looks.{is_false, all_false_but, falsified, first_open, forced, text_at};

use cnf::literals::{Forced, Literal};

/// The text of this length that starts at this place.
pub fn text_at(places: &[Literal], start: usize, len: usize) -> &[Literal]
    requires { start + len ≤ length places.now }
    ensures { result.now ≡ text_at places.now start len }
{
    let end = start + len;
    &places[start..end]
}

/// Whether the literal's variable has a value.
pub fn has_value(trail: &[Forced], literal: Literal) -> bool
    ensures { result ≡ names literal.variable (values_of trail.now) }
{
    trail
        .iter()
        .map(|entry| entry.literal)
        .any(|valued| literal.variable == valued.variable)
}

/// Whether the literal is false: its complement is on the trail.
pub fn is_false(trail: &[Forced], literal: Literal) -> bool
    ensures { result ≡ is_false (values_of trail.now) literal }
{
    let complement = literal.complement();
    trail
        .iter()
        .map(|entry| entry.literal)
        .any(|valued| complement == valued)
}

/// Whether every literal of the text but the spared one is false.
fn all_false_but(trail: &[Forced], text: &[Literal], spared: Option<Literal>) -> bool
    ensures { result ≡ all_false_but (values_of trail.now) spared text.now }
{
    text.iter().all(|literal| spared == Some(*literal) || is_false(trail, *literal))
}

/// Whether every literal of the text is false.
pub fn is_falsified(trail: &[Forced], text: &[Literal]) -> bool
    ensures { result ≡ falsified (values_of trail.now) text.now }
{
    all_false_but(trail, text, None)
}

/// The first literal of the text whose variable has no value.
fn first_open(trail: &[Forced], text: &[Literal]) -> Option<Literal>
    ensures { result ≡ first_open (values_of trail.now) text.now }
{
    text.iter()
        .copied()
        .find(|literal| !has_value(trail, *literal))
}

/// The literal that the text forces: it has no value, and every other literal is false.
pub fn forced_by(trail: &[Forced], text: &[Literal]) -> Option<Literal>
    ensures { result ≡ forced (values_of trail.now) text.now }
{
    first_open(trail, text).filter(|literal| all_false_but(trail, text, Some(*literal)))
}
