//! The number that digits write.
ghost use Rattle.std.specs.Prelude.{◌≡◌, min};
ghost use Rattle.words.specs.Numbers.{value};

/// The number that the digits write, or the highest that 64 bits hold where it is larger.
pub fn value64(digits: &[u8]) -> u64
    ensures { result ≡ min (value digits.now) 18446744073709551615 }
{
    digits.iter().fold(0, |n: u64, digit| {
        n.saturating_mul(10)
            .saturating_add(u64::from(digit.saturating_sub(b'0')))
    })
}

/// The number that the digits write, or the highest that 16 bits hold where it is larger.
pub fn value16(digits: &[u8]) -> u16
    ensures { result ≡ min (value digits.now) 65535 }
{
    u16::try_from(value64(digits)).unwrap_or(u16::MAX)
}

#[cfg(test)]
mod tests {
    use super::*;

    #[test]
    fn values(rt: HostRuntime) {
        for (digits, small, large) in [
            (b"".as_slice(), 0, 0),
            (b"65535", 65535, 65535),
            (b"65536", 65535, 65536),
            (b"4294967296", 65535, 4294967296),
            (b"18446744073709551615", 65535, u64::MAX),
            (b"18446744073709551616", 65535, u64::MAX),
        ] {
            assert_eq!(rt; value16(digits), small);
            assert_eq!(rt; value64(digits), large);
        }
    }
}
