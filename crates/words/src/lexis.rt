//! How a text falls into words. Spaces, tabs, carriage returns and line feeds part the words. A line whose first
//! byte is `c` is a comment and is passed over whole; a line feed alone ends a line.
ghost use Rattle.std.specs.Prelude.{◌≡◌, ◌+◌, ◌<◌, ◌≤◌, length, drop};
ghost use Rattle.std.specs.List.{prefix_len};
ghost use Rattle.words.specs.Lexis.{blank, inner, passes, after, gap, start_at, plain, natural, numeral, is_zero};

/// Where a reader stands in a line.
#[derive(Clone, Copy, Debug, PartialEq, Eq)]
pub enum Mode {
    /// At the line's first byte.
    Fresh,
    /// Behind the first byte.
    Within,
    /// Behind the first byte of a comment.
    Comment,
}

impl Mode {
    /// How a reader stands that goes on at `at`: at the text's first byte, or behind a word.
    fn at(at: usize) -> Mode
        ensures { result ≡ start_at at }
    {
        if at == 0 { Mode::Fresh } else { Mode::Within }
    }

    fn passes(self, b: u8) -> bool
        ensures { result ≡ passes self b }
    {
        match self {
            Mode::Fresh => b == b'c' || is_blank(b),
            Mode::Within => is_blank(b),
            Mode::Comment => true,
        }
    }

    fn after(self, b: u8) -> Mode
        ensures { result ≡ after self b }
    {
        // A comment is passed over quickest with the arms in this order.
        match (self, b) {
            (Mode::Fresh, b'c') => Mode::Comment,
            (_, b'\n') => Mode::Fresh,
            (Mode::Comment, _) => Mode::Comment,
            _ => Mode::Within,
        }
    }
}

fn is_blank(b: u8) -> bool
    ensures { result ≡ blank b }
{
    matches!(b, b' ' | b'\t' | b'\r' | b'\n')
}

/// Where the next word begins, or the text's length.
pub(crate) fn skip(text: &[u8], at: usize) -> usize
    requires { at ≤ length text.now }
    ensures place { result ≡ at + gap (start_at at) (drop at text.now) }
    ensures within { result ≤ length text.now }
{
    let mut mode = Mode::at(at);
    for (i, b) in text[at..].iter().enumerate() {
        if !mode.passes(*b) {
            return at + i;
        }
        mode = mode.after(*b);
    }
    text.len()
}

/// Where the word that begins at `at` ends.
pub(crate) fn run(text: &[u8], at: usize) -> usize
    requires { at ≤ length text.now }
    ensures place { result ≡ at + prefix_len inner (drop at text.now) }
    ensures within { result ≤ length text.now }
{
    let rest = &text[at..];
    at + rest.iter().position(|b| is_blank(*b)).unwrap_or(rest.len())
}

/// Whether the word is digits in base ten without a leading zero.
fn is_plain(w: &[u8]) -> bool
    ensures { result ≡ plain w.now }
{
    match w {
        [b'1'..=b'9', rest @ ..] => rest.iter().all(u8::is_ascii_digit),
        _ => false,
    }
}

/// Whether the word is a number without a sign: digits in base ten without a leading zero, or `0`.
pub fn is_unsigned(w: &[u8]) -> bool
    ensures { result ≡ natural w.now }
{
    is_zero(w) || is_plain(w)
}

/// Whether the word is a number: one without a sign, or a minus ahead of digits that do not begin with 0.
pub(crate) fn is_number(w: &[u8]) -> bool
    ensures { result ≡ numeral w.now }
{
    match w {
        [b'-', rest @ ..] => is_plain(rest),
        _ => is_unsigned(w),
    }
}

/// Whether the word is `0`.
pub fn is_zero(w: &[u8]) -> bool
    ensures { result ≡ is_zero w.now }
{
    matches!(w, [b'0'])
}
