// The numbers that come out, and the edges of the range.
use crate::worlds::between;
use hosts::Host;
use samples::{int, over_file};
use std::process::Abort;
use std::test::Fail;
use values::Value;

const LEAST: i32 = -1_073_741_824;

const GREATEST: i32 = 1_073_741_823;

// Each row has a, a selector, b, and the integer that is answered.
fn all_give(rt: &impl Abort, host: &mut impl Host, rows: &[(i32, u32, i32, i32)]) {
    for (a, selector, b, n) in rows {
        assert_eq!(rt; between(host, *a, *selector, *b), Some(int(*n)));
    }
}

// Each row has a, a selector and b; there is no answer, here and below.
fn all_go_below(rt: &impl Abort, host: &mut impl Host, rows: &[(i32, u32, i32)]) {
    for (a, selector, b) in rows {
        assert_eq!(rt; between(host, *a, *selector, *b), None);
    }
}

// The answers to the six comparisons of a and b, from `<` to `~=`.
fn compare_as(rt: &impl Abort, host: &mut impl Host, a: i32, b: i32, answers: &[bool]) {
    for (selector, yes) in (2..8u32).zip(answers) {
        assert_eq!(rt; between(host, a, selector, b), Some(Value::from(*yes)));
    }
}

#[test]
fn quotients_round_down(rt: HostRuntime) -> Result<(), Fail> {
    let mut host = over_file(rt.alloc())?;
    let rows = [
        (7, 13, 2, 3),
        (-7, 13, 2, -4),
        (7, 13, -2, -4),
        (-7, 13, -2, 3),
        (-8, 13, 2, -4),
        (GREATEST, 13, -1, -GREATEST),
    ];
    all_give(&rt, &mut host, &rows);
    Ok(())
}

#[test]
fn remainders_have_the_sign_of_the_divisor(rt: HostRuntime) -> Result<(), Fail> {
    let mut host = over_file(rt.alloc())?;
    let rows = [
        (7, 10, 2, 1),
        (-7, 10, 2, 1),
        (7, 10, -2, -1),
        (-7, 10, -2, -1),
        (-8, 10, 2, 0),
        (LEAST, 10, -1, 0),
    ];
    all_give(&rt, &mut host, &rows);
    Ok(())
}

#[test]
fn results_inside_the_range(rt: HostRuntime) -> Result<(), Fail> {
    let mut host = over_file(rt.alloc())?;
    let rows = [
        (GREATEST - 1, 0, 1, GREATEST),
        (LEAST + 1, 1, 1, LEAST),
        (32768, 8, 32767, 1_073_709_056),
        (32768, 8, -32768, LEAST),
    ];
    all_give(&rt, &mut host, &rows);
    Ok(())
}

#[test]
fn results_outside_the_range(rt: HostRuntime) -> Result<(), Fail> {
    let mut host = over_file(rt.alloc())?;
    let rows = [
        (GREATEST, 0, 1),
        (LEAST, 0, LEAST),
        (LEAST, 1, 1),
        (32768, 8, 32768),
        (LEAST, 8, LEAST),
        (LEAST, 13, -1),
        (5, 13, 0),
        (5, 10, 0),
    ];
    all_go_below(&rt, &mut host, &rows);
    Ok(())
}

#[test]
fn comparisons(rt: HostRuntime) -> Result<(), Fail> {
    let mut host = over_file(rt.alloc())?;
    compare_as(
        &rt,
        &mut host,
        3,
        3,
        &[false, false, true, true, true, false],
    );
    compare_as(
        &rt,
        &mut host,
        -1,
        1,
        &[true, false, true, false, false, true],
    );
    compare_as(
        &rt,
        &mut host,
        9,
        8,
        &[false, true, false, true, false, true],
    );
    Ok(())
}
