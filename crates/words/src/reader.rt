//! A reader of the words of a text.
ghost use Rattle.std.specs.Prelude.{◌≤◌, length};

mod reading;

/// A word of a text, whose bytes are a part of the text, or the text's end.
#[derive(Clone, Copy, Debug, PartialEq, Eq)]
pub enum Word<'a> {
    Name(&'a [u8]),
    Number(&'a [u8]),
    // Not a `None` in place of the word: the end has a place too, which a fault may name.
    End,
}

/// A word and the byte place where it begins, from 0; at the text's end the place is the text's length.
#[derive(Clone, Copy, Debug, PartialEq, Eq)]
pub struct Placed<'a> {
    pub word: Word<'a>,
    pub place: usize,
}

/// A reader that gives the words of a text one by one.
#[derive(Clone, Copy)]
pub struct Words<'a> {
    text: &'a [u8],
    at: usize,
    ghost ok: { at ≤ length text.now },
}
