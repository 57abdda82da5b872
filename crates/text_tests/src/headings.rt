//! Headings, comments and ends.
use crate::prints::prints;
use anyhow::Result;

#[test]
fn headings(rt: HostRuntime) -> Result<()> {
    for (text, expected) in [
        (b"p cnf 0 0".as_slice(), b"p cnf 0 0\n".as_slice()),
        (b"p cnf 512 0\n", b"p cnf 512 0\n"),
        (b"\t p\r\n \ncc\n cnf\t3\r0  ", b"p cnf 3 0\n"),
        // a line whose first byte is c is a comment, also where cnf is due
        (b"p\ncnf 3 0", b"refused 2 9\n"),
        (b"p\n cnf 3 0", b"p cnf 3 0\n"),
        // a carriage return ends no line
        (b"c x\rp cnf 0 0", b"refused 2 13\n"),
        // behind a blank, c is a word
        (b" c\np cnf 0 0", b"refused 1 1\n"),
        (b"p cnf 0 0\n c", b"refused 2 11\n"),
        (b"q cnf 0 0", b"refused 1 0\n"),
        (b"P cnf 0 0", b"refused 1 0\n"),
        (b"p dnf 0 0", b"refused 1 2\n"),
        (b"p cnff 0 0", b"refused 1 2\n"),
        (b"p 3 0", b"refused 1 2\n"),
        (b"1 p", b"refused 1 0\n"),
        (b"p cnf -3 0", b"refused 1 6\n"),
        (b"p cnf 3 -1", b"refused 1 8\n"),
        (b"p cnf +3 0", b"refused 1 6\n"),
        (b"p cnf x 0", b"refused 1 6\n"),
        (b"p cnf 3 x", b"refused 1 8\n"),
        (b"\xffp cnf 0 0", b"refused 1 0\n"),
        (b"p\x00 cnf 0 0", b"refused 1 0\n"),
    ] {
        prints(rt.alloc(), text, expected)?;
    }
    Ok(())
}

#[test]
fn ends(rt: HostRuntime) -> Result<()> {
    for (text, expected) in [
        (b"".as_slice(), b"refused 2 0\n".as_slice()),
        (b" \n\n", b"refused 2 3\n"),
        (b"c only a comment", b"refused 2 16\n"),
        (b"p", b"refused 2 1\n"),
        (b"p cnf ", b"refused 2 6\n"),
        (b"p cnf 3", b"refused 2 7\n"),
        (b"p cnf 3\nc 0\n", b"refused 2 12\n"),
        (b"p cnf 3 1", b"refused 2 9\n"),
        (b"p cnf 3 1 \n", b"refused 2 11\n"),
        (b"p cnf 3 2\n1 0\n", b"refused 2 14\n"),
        (b"p cnf 3 1\n1", b"refused 3 11\n"),
        (b"p cnf 3 1\n1 -2 \nc 0", b"refused 3 19\n"),
        (b"p cnf 3 1\n-2 1 0", b"p cnf 3 1\n1 -2 0\n"),
    ] {
        prints(rt.alloc(), text, expected)?;
    }
    Ok(())
}
