//! The trail of a trial.
ghost use Rattle.std.specs.Prelude.{◌≡◌, ◌<◌, ◌≤◌, [], ◌∷◌, ◌++◌, length};

use cnf::drafts::MOST_LITERALS;
use cnf::literals::Forced;

/// Literals with the number of the text that forced each, or 0 if it was assumed: room for as many as there are variables.
#[derive(Clone, Copy)]
pub struct Trail {
    // An array with its length beside it: a list of the library's is not `Copy`, and emptying it writes to each place.
    entries: [Forced; MOST_LITERALS],
    len: usize,
    ghost few: { len ≤ 512 },
}

impl Trail {
    ghost use Rattle.engine.specs.Trails.{entries_of};

    /// An empty trail.
    pub fn new() -> Trail
        ensures { entries_of result ≡ [] }
    {
        Trail {
            entries: [Forced::default(); MOST_LITERALS],
            len: 0,
        }
    }

    /// Empties the trail.
    pub fn clear(&mut self)
        ensures { entries_of self.new ≡ [] }
    {
        self.len = 0;
    }

    /// What stands on the trail, oldest first.
    pub fn entries(&self) -> &[Forced]
        ensures all { result.now ≡ entries_of self.now }
        ensures few { length result.now ≤ 512 }
    {
        &self.entries[..self.len]
    }

    /// One more literal at the end.
    pub fn push(&mut self, last: Forced)
        requires { length (entries_of self.old) < 512 }
        ensures { entries_of self.new ≡ entries_of self.old ++ last ∷ [] }
    {
        self.entries[self.len] = last;
        self.len += 1;
    }
}
