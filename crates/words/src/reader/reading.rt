//! What a reader of words does.
ghost use Rattle.std.specs.Prelude.{◌≡◌, length};
ghost use Rattle.words.specs.Lexis.{shape};
ghost use Rattle.words.specs.Texts.{words_of, next_of, rest_of};
ghost use Rattle.words.specs.Runs.{Parts};
ghost use Rattle.words.specs.Reading.{shape_of, shown, left, extent};

use crate::lexis::{is_number, run, skip};
use crate::reader::{Placed, Word, Words};

fn classed<'a>(bytes: &'a [u8]) -> Word<'a>
    ensures { shape_of result ≡ shape bytes.now }
{
    if bytes.is_empty() {
        Word::End
    } else if is_number(bytes) {
        Word::Number(bytes)
    } else {
        Word::Name(bytes)
    }
}

impl<'a> Words<'a> {
    /// A reader that stands at the text's start.
    pub fn new(text: &'a [u8]) -> Words<'a>
        ensures words { left result ≡ words_of text.now }
        ensures extent { extent result ≡ length text.now }
        ensures parts { Parts text.now (left result) }
    {
        Words { text, at: 0 }
    }

    /// The next word with its place, or the text's end.
    pub fn next(&mut self) -> Placed<'a>
        ensures word { shown result ≡ next_of (extent self.old) (left self.old) }
        ensures rest { left self.new ≡ rest_of (left self.old) }
        ensures extent { extent self.new ≡ extent self.old }
    {
        let place = skip(self.text, self.at);
        let end = run(self.text, place);
        self.at = end;
        let word = classed(&self.text[place..end]);
        Placed { word, place }
    }
}

#[cfg(test)]
mod tests {
    use super::*;

    #[test]
    fn first_words(rt: HostRuntime) {
        for (text, word, place) in [
            (b"".as_slice(), Word::End, 0),
            (b"c all\r of it", Word::End, 12),
            (b"cnf 3 5\np 1", Word::Name(b"p"), 8),
            (b" c 1", Word::Name(b"c"), 1),
            (b"\t\r\nc\n-7\r1", Word::Number(b"-7"), 5),
            (b"\xff\0 1", Word::Name(b"\xff\0"), 0),
            (b"0", Word::Number(b"0"), 0),
            (b"-0", Word::Name(b"-0"), 0),
            (b"01 ", Word::Name(b"01"), 0),
            (b"+1", Word::Name(b"+1"), 0),
            (b"-", Word::Name(b"-"), 0),
            (
                b"99999999999999999999\n",
                Word::Number(b"99999999999999999999"),
                0,
            ),
        ] {
            assert_eq!(rt; Words::new(text).next(), Placed { word, place });
        }
    }
}
