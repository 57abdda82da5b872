//! Numbers of every size and form.
use crate::prints::prints;
use anyhow::Result;

#[test]
fn forms(rt: HostRuntime) -> Result<()> {
    for (text, expected) in [
        (b"p cnf 03 0".as_slice(), b"refused 1 6\n".as_slice()),
        (b"p cnf 3 00", b"refused 1 8\n"),
        (b"p cnf 3 1\n01 0", b"refused 1 10\n"),
        (b"p cnf 3 1\n-01 0", b"refused 1 10\n"),
        (b"p cnf 3 1\n+1 0", b"refused 1 10\n"),
        (b"p cnf 3 1\n1. 0", b"refused 1 10\n"),
        (b"p cnf 3 1\n- 0", b"refused 1 10\n"),
        (b"p cnf 3 1\n--1 0", b"refused 1 10\n"),
        // neither -0 nor 00 closes a clause
        (b"p cnf 3 1\n1 -0", b"refused 1 12\n"),
        (b"p cnf 3 1\n1 00", b"refused 1 12\n"),
    ] {
        prints(rt.alloc(), text, expected)?;
    }
    Ok(())
}

#[test]
fn sizes(rt: HostRuntime) -> Result<()> {
    for (text, expected) in [
        (b"p cnf 513 0".as_slice(), b"refused 7 0\n".as_slice()),
        (b"p cnf 513 x", b"refused 1 10\n"),
        (b"p cnf 513", b"refused 2 9\n"),
        (b"p cnf 65536 0", b"refused 7 0\n"),
        (b"p cnf 4294967297 1 x", b"refused 7 0\n"),
        (b"p cnf 18446744073709551617 0", b"refused 7 0\n"),
        (b"p cnf 512 1\n512 -1 0", b"p cnf 512 1\n-1 512 0\n"),
        (b"p cnf 3 1\n65537 0", b"refused 4 10\n"),
        (b"p cnf 3 1\n-4294967297 0", b"refused 4 10\n"),
        (b"p cnf 3 1\n1 18446744073709551617 0", b"refused 4 12\n"),
        (b"p cnf 3 1\n99999999999999999999 x", b"refused 1 31\n"),
        (b"p cnf 3 18446744073709551616\n1 0", b"refused 2 32\n"),
        (b"p cnf 3 4294967297\n1 0\n2 x", b"refused 1 25\n"),
    ] {
        prints(rt.alloc(), text, expected)?;
    }
    Ok(())
}
