// Small methods over the week file, by the check and by the listing.
use crate::bench::{Bench, CheckResult};
use crate::drafts::method;
use listing::list;
use samples::in_numbers;
use std::test::*;

// Every code and what is found of it.
const CASES: [(&[u8], CheckResult); 15] = [
    (&[56, 0, 51, 0], Ok(1)),
    (&[40, 2], Ok(0)),
    (&[51, 0], Err((21, 0))),
    (&[56, 0], Err((23, 0))),
    (&[44, 1, 40, 4], Err((24, 0))),
    (&[41, 1, 56, 0, 51, 0], Err((19, 0))),
    (&[41, 2, 55, 0, 56, 0, 51, 0], Err((19, 0))),
    (&[56, 0, 39, 2, 51, 0], Ok(1)),
    (&[56, 0, 39, 3, 51, 0], Err((17, 2))),
    (&[56, 0, 39, 4, 51, 0], Err((15, 2))),
    (&[55, 3, 44, 232, 51, 0], Ok(1)),
    (&[56, 0, 43, 4, 44, 255, 51, 0, 44, 0, 51, 0], Ok(1)),
    (&[55, 32, 55, 0, 55, 0, 44, 0, 51, 0], Err((15, 0))),
    (&[56, 0, 56, 0, 56, 0, 56, 0, 51, 0], Ok(4)),
    (&[56, 0, 56, 0, 56, 0, 56, 0, 56, 0, 51, 0], Err((22, 8))),
];

#[test]
fn by_the_check(rt: HostRuntime) -> Result<(), Fail> {
    Bench::new(rt.alloc())?.codes(&rt, &CASES)
}

#[test]
fn by_the_listing(rt: HostRuntime) -> Result<(), Fail> {
    for (k, case) in CASES.iter().enumerate() {
        let (code, want) = *case;
        let bytes = method(code).bytes(rt.alloc())?;
        let verdict = list(rt.alloc(), &bytes)?.0;
        assert_eq!(rt; in_numbers(verdict), want, "case {k}");
    }
    Ok(())
}

#[test]
fn lines(rt: HostRuntime) -> Result<(), Fail> {
    let accepted = list(rt.alloc(), &method(&[56, 0, 51, 0]).bytes(rt.alloc())?)?;
    let refused = list(
        rt.alloc(),
        &method(&[56, 0, 39, 3, 51, 0]).bytes(rt.alloc())?,
    )?;
    assert_eq!(rt;
        format!(in rt.alloc(); "{accepted}")?.as_str(),
        "accepted 1"
    );
    assert_eq!(rt;
        format!(in rt.alloc(); "{refused}")?.as_str(),
        "refused 17 at 2"
    );
    Ok(())
}
