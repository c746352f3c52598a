// The stage literals.
use crate::bench::{Bench, CheckResult};
use crate::drafts::with_literals;
use samples::{BINDING_0, BINDING_1, BINDING_2, BLOCK, Entry, KEYWORD, NIL, OBJECT, UNARY};
use std::process::Abort;
use std::test::*;

// Literals of a method that turns for ever, and what is to be found.
fn expect(
    rt: &impl Abort,
    bench: &Bench,
    literals: &[Entry],
    want: CheckResult,
) -> Result<(), Fail> {
    bench.drafts(rt, &[(with_literals(literals, &[40, 2]), want)])
}

#[test]
fn every_kind(rt: HostRuntime) -> Result<(), Fail> {
    let bench = Bench::new(rt.alloc())?;
    for literal in [
        [0, 1, 0, 0, 0, 0],
        [0, 2, 0, 0, 0, 0],
        [0, 3, 0x3F, 0xFF, 0xFF, 0xFF],
        [0, 3, 0xC0, 0, 0, 0],
        [0, 4, 0xFF, 0xFF, 0xFF, 0xFF],
        [0, 5, 0xFF, 0xFF, 0xFF, 0xFF],
        [31, 7, 0xFF, 0xFF, 0xFF, 0xFF],
        BINDING_1,
    ] {
        expect(&rt, &bench, &[literal], Ok(0))?;
    }
    expect(
        &rt,
        &bench,
        &[NIL, OBJECT, BLOCK, UNARY, KEYWORD, BINDING_0],
        Ok(0),
    )
}

#[test]
fn wrong_ones(rt: HostRuntime) -> Result<(), Fail> {
    let bench = Bench::new(rt.alloc())?;
    for literal in [
        [0, 0, 0, 0, 0, 1],
        [0, 1, 1, 0, 0, 0],
        [0, 2, 0, 1, 0, 0],
        [0, 3, 0x40, 0, 0, 0],
        [0, 3, 0xBF, 0xFF, 0xFF, 0xFF],
        [0, 6, 0, 0, 0, 0],
        [0, 9, 0, 0, 0, 0],
        [0, 255, 0, 0, 0, 0],
        [1, 0, 0, 0, 0, 0],
        [1, 4, 0, 0, 0, 0],
        [1, 8, 0, 0, 0, 0],
        [32, 7, 0, 0, 0, 0],
    ] {
        expect(&rt, &bench, &[literal], Err((9, 0)))?;
        expect(&rt, &bench, &[NIL, BINDING_0, literal, NIL], Err((9, 2)))?;
    }
    Ok(())
}

#[test]
fn bindings_there(rt: HostRuntime) -> Result<(), Fail> {
    let bench = Bench::new(rt.alloc())?;
    expect(&rt, &bench, &[BINDING_2], Err((10, 0)))?;
    expect(
        &rt,
        &bench,
        &[BINDING_0, BINDING_1, BINDING_2],
        Err((10, 2)),
    )?;
    expect(&rt, &bench, &[[0, 8, 255, 255, 255, 255]], Err((10, 0)))
}

// The literals are taken in order, and each is tried by 9 and then by 10.
#[test]
fn in_order(rt: HostRuntime) -> Result<(), Fail> {
    let bench = Bench::new(rt.alloc())?;
    let wrong = [0, 6, 0, 0, 0, 0];
    expect(&rt, &bench, &[[1, 8, 0, 0, 0, 2]], Err((9, 0)))?;
    expect(&rt, &bench, &[BINDING_2, wrong], Err((10, 0)))?;
    expect(&rt, &bench, &[wrong, BINDING_2], Err((9, 0)))?;
    expect(&rt, &bench, &[NIL, wrong, wrong], Err((9, 1)))
}
