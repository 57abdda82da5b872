//! Clauses: their order, their faults, and long ones.
use crate::prints::prints;
use anyhow::Result;
use std::alloc::Global;

#[test]
fn clauses(rt: HostRuntime) -> Result<()> {
    for (text, expected) in [
        (
            b"p cnf 3 3\n3 -1 2 0 0\n-3\n0".as_slice(),
            b"p cnf 3 3\n-1 2 3 0\n0\n-3 0\n".as_slice(),
        ),
        (b"p cnf 2 2\n1 0\nc 2 0\n-2\r0\t", b"p cnf 2 2\n1 0\n-2 0\n"),
        // words after the last clause
        (b"p cnf 2 1\n1 0 2 0", b"refused 2 14\n"),
        (b"p cnf 2 1\n1 0 x", b"refused 2 14\n"),
        (b"p cnf 2 0\n-0", b"refused 2 10\n"),
        (b"p cnf 2 1\n1 0\n%\n0\n", b"refused 2 14\n"),
        (b"p cnf 2 2\n1 0\np cnf 2 2", b"refused 1 14\n"),
        (b"p cnf 2 1\nd 1 0", b"refused 1 10\n"),
        // a literal out of range wins over a repeated variable, and comes once the clause is closed
        (b"p cnf 2 1\n1 3 0", b"refused 4 12\n"),
        (b"p cnf 2 1\n1 -1 0", b"refused 5 12\n"),
        (b"p cnf 2 1\n1 1 2 1 3 0", b"refused 4 18\n"),
        (b"p cnf 2 1\n1 1 3 4", b"refused 3 17\n"),
        (b"p cnf 2 1\n1 1 x", b"refused 1 14\n"),
        (b"p cnf 2 1\n2 1 2 1 0", b"refused 5 14\n"),
        (b"p cnf 0 1\n1 0", b"refused 4 10\n"),
    ] {
        prints(rt.alloc(), text, expected)?;
    }
    Ok(())
}

/// A clause of five thousand literals `1`, and then these words.
fn long(heap: Global, last: &[u8], expected: &[u8]) -> Result<()> {
    let mut text = b"p cnf 1 1\n".to_vec(heap)?;
    for _ in 0..5000u16 {
        text.extend_from_slice(b"1 ")?;
    }
    text.extend_from_slice(last)?;
    prints(heap, &text, expected)
}

#[test]
fn long_clauses(rt: HostRuntime) -> Result<()> {
    long(rt.alloc(), b"0", b"refused 5 12\n")?;
    long(rt.alloc(), b"2 0", b"refused 4 10010\n")?;
    long(rt.alloc(), b"x 0", b"refused 1 10010\n")?;
    long(rt.alloc(), b"2", b"refused 3 10011\n")
}
