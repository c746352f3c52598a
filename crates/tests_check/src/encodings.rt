// The stage encoding.
use crate::bench::Bench;
use crate::drafts::{block, with_flags, with_literals};
use samples::{BINDING_0, BINDING_1, BLOCK, Entry, KEYWORD, NIL, OBJECT, UNARY};
use std::test::*;

// One literal of each sort that operands name.
const LITERALS: [Entry; 7] = [NIL, OBJECT, BLOCK, UNARY, KEYWORD, BINDING_0, BINDING_1];

#[test]
fn extension_pairs(rt: HostRuntime) -> Result<(), Fail> {
    Bench::new(rt.alloc())?.codes(
        &rt,
        &[
            (&[55, 0, 55, 0, 55, 0, 45, 2, 51, 0], Ok(1)),
            (&[55, 0, 55, 0, 55, 0, 55, 0, 45, 2, 51, 0], Err((13, 0))),
            (&[54, 0, 55, 0, 55, 0, 55, 0, 55, 0], Err((13, 2))),
            (&[55, 0], Err((12, 0))),
            (&[54, 0, 55, 0, 55, 0, 55, 0], Err((12, 2))),
            (&[54, 0, 55, 0, 55], Err((12, 4))),
        ],
    )
}

#[test]
fn small_operands(rt: HostRuntime) -> Result<(), Fail> {
    Bench::new(rt.alloc())?.codes(
        &rt,
        &[
            (&[45, 2, 51, 0], Ok(1)),
            (&[45, 3, 51, 0], Err((15, 0))),
            (&[55, 1, 45, 0, 51, 0], Err((15, 0))),
            (&[55, 31, 55, 255, 55, 255, 44, 255, 51, 0], Ok(1)),
            (&[55, 32, 55, 0, 55, 0, 44, 0, 51, 0], Err((15, 0))),
            (&[35, 3, 51, 0], Ok(1)),
            (&[35, 4, 51, 0], Err((15, 0))),
            (&[32, 0, 51, 0], Err((15, 0))),
        ],
    )
}

// With one argument and one local, the frame cells are 0 and 1.
#[test]
fn frame_cells(rt: HostRuntime) -> Result<(), Fail> {
    let flags = 1 + 32 + (1 << 11);
    Bench::new(rt.alloc())?.drafts(
        &rt,
        &[
            (with_flags(flags, &[32, 1, 36, 0, 51, 0]), Ok(1)),
            (with_flags(flags, &[32, 0, 36, 1, 51, 0]), Ok(1)),
            (with_flags(flags, &[32, 2, 51, 0]), Err((15, 0))),
            (with_flags(flags, &[32, 0, 36, 2, 51, 0]), Err((15, 2))),
        ],
    )
}

#[test]
fn literal_operands(rt: HostRuntime) -> Result<(), Fail> {
    Bench::new(rt.alloc())?.codes_with(
        &rt,
        &LITERALS,
        &[
            (&[46, 0, 51, 0], Ok(1)),
            (&[46, 2, 51, 0], Ok(1)),
            (&[46, 3, 51, 0], Err((15, 0))),
            (&[46, 5, 51, 0], Err((15, 0))),
            (&[46, 7, 51, 0], Err((15, 0))),
            (&[34, 5, 38, 5, 51, 0], Ok(1)),
            (&[34, 6, 51, 0], Ok(1)),
            (&[34, 2, 51, 0], Err((15, 0))),
            (&[34, 7, 51, 0], Err((15, 0))),
            (&[56, 0, 38, 3, 51, 0], Err((15, 2))),
        ],
    )
}

#[test]
fn selectors(rt: HostRuntime) -> Result<(), Fail> {
    Bench::new(rt.alloc())?.codes_with(
        &rt,
        &LITERALS,
        &[
            (&[56, 0, 55, 3, 28, 0, 51, 0], Ok(1)),
            (&[56, 0, 55, 3, 29, 0, 51, 0], Ok(1)),
            (&[56, 0, 55, 3, 28, 1, 51, 0], Err((15, 2))),
            (&[56, 0, 55, 2, 28, 0, 51, 0], Err((15, 2))),
            (&[56, 0, 55, 7, 29, 0, 51, 0], Err((15, 2))),
            (&[56, 0, 28, 0, 51, 0], Err((15, 2))),
        ],
    )
}

#[test]
fn trusted_cells(rt: HostRuntime) -> Result<(), Fail> {
    Bench::new(rt.alloc())?.codes_with(
        &rt,
        &LITERALS,
        &[
            (&[56, 0, 39, 2, 51, 0], Ok(1)),
            (&[56, 0, 39, 3, 51, 0], Err((17, 2))),
            (&[56, 0, 38, 5, 51, 0], Ok(1)),
            (&[56, 0, 38, 6, 51, 0], Err((17, 2))),
            (&[35, 3, 34, 6, 51, 0], Ok(2)),
        ],
    )
}

#[test]
fn trusted_parcels(rt: HostRuntime) -> Result<(), Fail> {
    Bench::new(rt.alloc())?.trusted(
        &rt,
        &[
            (with_literals(&[], &[56, 0, 39, 3, 51, 0]), Ok(1)),
            (with_literals(&[BINDING_1], &[56, 0, 38, 0, 51, 0]), Ok(1)),
            (with_literals(&[], &[56, 0, 39, 4, 51, 0]), Err((15, 2))),
        ],
    )
}

#[test]
fn clean_blocks(rt: HostRuntime) -> Result<(), Fail> {
    Bench::new(rt.alloc())?.drafts(
        &rt,
        &[
            (block(0, &[56, 0, 51, 0]), Err((16, 0))),
            (block(0, &[35, 0, 51, 0]), Err((16, 0))),
            (block(0, &[44, 1, 39, 0, 51, 0]), Err((16, 2))),
            (block(0, &[44, 1, 51, 0]), Ok(1)),
            (block(1, &[56, 0, 48, 0, 35, 0, 39, 0, 51, 0]), Ok(1)),
            (with_flags(32, &[56, 0, 35, 0, 39, 0, 51, 0]), Ok(2)),
        ],
    )
}

#[test]
fn method_returns(rt: HostRuntime) -> Result<(), Fail> {
    let bench = Bench::new(rt.alloc())?;
    for chain in [0, 1, 30, 32, 63] {
        bench.drafts(&rt, &[(block(chain, &[44, 1, 50, 0]), Err((18, 2)))])?;
    }
    bench.drafts(
        &rt,
        &[
            (block(31, &[44, 1, 50, 0]), Ok(1)),
            (with_flags(32, &[44, 1, 50, 0]), Err((18, 2))),
            (with_flags(32 + 31, &[44, 1, 50, 0]), Err((18, 2))),
        ],
    )
}

#[test]
fn landings(rt: HostRuntime) -> Result<(), Fail> {
    Bench::new(rt.alloc())?.codes(
        &rt,
        &[
            (&[41, 0, 56, 0, 51, 0], Ok(1)),
            (&[41, 2, 54, 0, 55, 0, 44, 1, 51, 0], Ok(1)),
            (&[41, 4, 54, 0, 55, 0, 44, 1, 51, 0], Err((19, 0))),
            (&[41, 2, 55, 0, 55, 0, 44, 1, 51, 0], Err((19, 0))),
            (&[41, 1, 56, 0, 51, 0], Err((19, 0))),
            (&[41, 4, 56, 0, 51, 0], Err((19, 0))),
            (&[41, 6, 56, 0, 51, 0], Err((19, 0))),
            (&[55, 255, 55, 255, 55, 255, 41, 255], Err((19, 0))),
            (&[54, 0, 40, 4], Ok(0)),
            (&[54, 0, 40, 3], Err((19, 2))),
            (&[54, 0, 40, 6], Err((19, 2))),
            (&[54, 0, 40, 0], Err((19, 2))),
            (&[55, 0, 40, 2], Err((19, 0))),
            (&[55, 0, 40, 4], Ok(0)),
            (&[56, 0, 42, 4, 56, 0, 51, 0], Err((19, 2))),
            (&[56, 0, 43, 1, 56, 0, 51, 0], Err((19, 2))),
        ],
    )
}

// A closure is made of a block that the instruction before pushes, in the code.
#[test]
fn closures(rt: HostRuntime) -> Result<(), Fail> {
    Bench::new(rt.alloc())?.codes_with(
        &rt,
        &LITERALS,
        &[
            (&[46, 2, 49, 0, 51, 0], Ok(1)),
            (&[55, 0, 46, 2, 55, 0, 49, 0, 51, 0], Ok(1)),
            (&[56, 0, 41, 2, 46, 2, 49, 0, 51, 0], Ok(1)),
            (&[46, 1, 49, 0, 51, 0], Err((20, 2))),
            (&[46, 2, 54, 0, 49, 0, 51, 0], Err((20, 4))),
            (&[46, 2, 49, 0, 49, 0, 51, 0], Err((20, 4))),
            (&[56, 0, 49, 0, 51, 0], Err((20, 2))),
            (&[49, 0, 51, 0], Err((20, 0))),
        ],
    )
}
