//! Counted texts: a line with the number of a text's bytes, and then the text.
#![tactic(auto)]

ghost use Rattle.std.specs.Prelude.{◌≡◌, ◌≤◌, decimal, MatchOption};
ghost use Rattle.framing.specs.Counted.{NoCount, Uncounted, Counts};

use words::lexis::is_unsigned;
use words::numbers::value16;

/// The most bytes that a counted text may have.
pub const MOST_BYTES: u16 = 32768;

/// A counted text, and what follows it.
#[derive(Clone, Copy)]
pub struct Counted<'a> {
    pub text: &'a [u8],
    pub rest: &'a [u8],
}

/// The count that a line says: a number without a sign and without a leading zero, and nothing else.
fn count_of(line: &[u8]) -> Option<usize>
    ensures { MatchOption result (NoCount line.now) (λ n. (n ≤ 32768) × (line.now ≡ decimal n)) }
{
    if !is_unsigned(line) {
        return None;
    }
    let count = value16(line);
    (count <= MOST_BYTES).then_some(usize::from(count))
}

/// The counted text with which the input begins, if it begins with one: a line with the number of the text's bytes, at
/// most 32,768, ended by one line feed, and then so many bytes.
pub fn split_counted(input: &[u8]) -> Option<Counted<'_>>
    ensures { MatchOption result (Uncounted input.now) (λ c. Counts input.now c.text.now c.rest.now) }
{
    let end = input.iter().position(|b| *b == b'\n')?;
    let count = count_of(&input[..end])?;
    let (text, rest) = input[end + 1..].split_at_checked(count)?;
    Some(Counted { text, rest })
}

#[cfg(test)]
mod tests {
    use super::*;

    #[test]
    fn count_lines(rt: HostRuntime) {
        for (input, expected) in [
            (b"0\n".as_slice(), Some((b"".as_slice(), b"".as_slice()))),
            (b"3\nabcd", Some((b"abc", b"d"))),
            (b"3\nab", None),
            (b"2\n\n\n\n", Some((b"\n\n", b"\n"))),
            (b"", None),
            (b"0", None),
            (b"\n", None),
            (b"00\n", None),
            (b"02\nab", None),
            (b" 2\nab", None),
            (b"2 \nab", None),
            (b"2\r\nab", None),
            (b"+2\nab", None),
            (b"-0\n", None),
            (b"32769\n", None),
            (b"18446744073709551618\nab", None),
        ] {
            let found = split_counted(input).map(|counted| (counted.text, counted.rest));
            assert_eq!(rt; found, expected);
        }
    }
}
