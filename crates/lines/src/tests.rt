//! Exact bytes, exactly enough room, and one byte less.
use crate::faults::WriteFault;
use crate::writers::*;
use cnf::literals::Literal;
use std::test::Fail;

const NOT_TWENTY: Literal = Literal {
    variable: 20,
    negated: true,
};

#[test]
fn a_clause_finds_room_or_leaves_all_alone(rt: HostRuntime) {
    let clause = [
        Literal {
            variable: 1,
            negated: false,
        },
        NOT_TWENTY,
    ];
    let table = [
        (0, Ok(8), b"1 -20 0\n.."),
        (2, Ok(10), b"..1 -20 0\n"),
        (3, Err(WriteFault::NoRoom), b".........."),
        (usize::MAX, Err(WriteFault::NoRoom), b".........."),
    ];
    for (at, answer, bytes) in table {
        let mut out = [b'.'; 10];
        assert_eq!(rt; write_clause(&mut out, at, &clause), answer);
        assert_eq!(rt; &out, bytes);
    }
}

#[test]
fn lines_follow_one_another(rt: HostRuntime) -> Result<(), Fail> {
    let clauses = [[NOT_TWENTY].to_vec(rt.alloc())?, Vec::new(rt.alloc())];
    let mut out = [b'.'; 52];
    let next = write_formula(&mut out, 0, 20, &clauses)?;
    let next = write_refusal(&mut out, next, 6, 0)?;
    let next = write_number(&mut out, next, u64::MAX)?;
    assert_eq!(rt; next, 51);
    assert_eq!(rt;
        &out,
        b"p cnf 20 2\n-20 0\n0\nrefused 6 0\n18446744073709551615."
    );
    Ok(())
}
