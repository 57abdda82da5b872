//! A lent slice with the place that comes next.
ghost use Rattle.std.specs.Prelude.{◌≡◌, ◌-◌, ◌^◌, ◌<◌, cond, [], ◌∷◌, length, decimal, nat_eq};
ghost use Rattle.lines.specs.Pages.{Adds};

use itoa::write_digits;

/// A page: bytes are put from `next` on where they find room, and counted whether they do or not.
#[derive(Drop)]
pub struct Page<'a> {
    pub out: &'a mut [u8],
    pub next: usize,
}

impl Page<'_> {
    /// Whether the count is at its end, which lies past every slice's.
    pub fn is_full(&self) -> bool
        ensures full { result ≡ nat_eq self.now.next (2 ^ 64 - 1) }
        ensures past { length self.now.out.now < 2 ^ 64 - 1 }
    {
        let room = self.out.len();
        prove!(room < usize::MAX);
        self.next == usize::MAX
    }

    /// Adds bytes.
    pub fn add(&mut self, bytes: &[u8])
        ensures { Adds self.old bytes.now self.new }
    {
        let end = self.next.saturating_add(bytes.len());
        if end <= self.out.len() {
            self.out[self.next..end].copy_from_slice(bytes);
        }
        self.next = end;
    }

    /// Adds a byte if it is there. The count takes no branch on that.
    #[inline(always)]
    pub fn add_if(&mut self, is_there: bool, byte: u8)
        ensures { Adds self.old (cond is_there (byte ∷ []) []) self.new }
    {
        let end = self.next.saturating_add(usize::from(is_there));
        if end <= self.out.len() && is_there {
            self.out[self.next] = byte;
        }
        self.next = end;
    }

    /// Adds a number in base ten.
    #[inline(always)]
    pub fn add_number(&mut self, n: u64)
        ensures { Adds self.old (decimal n) self.new }
    {
        let end = self.next.saturating_add(number_len(n));
        if end <= self.out.len() {
            write_digits(n, self.out, end);
        }
        self.next = end;
    }
}

/// How many digits a number has.
fn number_len(n: u64) -> usize
    ensures { result ≡ length (decimal n) }
{
    if n < 10 {
        1
    } else if n < 100 {
        2
    } else if n < 1000 {
        3
    } else {
        number_len(n / 10) + 1
    }
}
