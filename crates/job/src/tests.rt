//! A job told call by call.
use crate::jobs::opening::{Size, open};
use crate::rows::{ClauseRow, StepRow};
use cnf::literals::Literal;

#[test]
fn a_lone_clause_is_struck_once(rt: HostRuntime) {
    let mut records = [ClauseRow {
        start: 9,
        len: 9,
        entered: 9,
        struck: Some(9),
        kept: true,
    }; 1];
    let mut steps = [StepRow::Lemma(7); 2];
    let one = Literal {
        variable: 1,
        negated: false,
    };
    let mut literals = [one; 1];
    let mut arcs = [5u16; 1];
    let size = Size {
        variables: 1,
        places: 1,
        room: 1,
    };
    let mut job = open(size, &mut records, &mut steps, &mut literals, &mut arcs);
    assert!(rt; job.clause(&[one]).is_ok());
    assert!(rt; job.strike(&[one]).is_ok());
    assert!(rt; job.strike(&[one]).is_err());
    assert!(rt; job.withdraw().is_ok());
    assert!(rt; job.strike(&[one]).is_ok());
}
