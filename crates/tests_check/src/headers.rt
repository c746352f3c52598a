// The stages header and flags.
use crate::bench::Bench;
use crate::drafts::{BLOCK_SLOTS, block_with, repeated, with_flags, with_literals};
use samples::NIL;
use std::test::*;

// A code that is accepted with height 0.
const TURNING: [u8; 2] = [40, 2];

#[test]
fn short_and_unknown(rt: HostRuntime) -> Result<(), Fail> {
    let bench = Bench::new(rt.alloc())?;
    bench.bytes(&rt, &[], Err((1, 0)))?;
    bench.bytes(&rt, &[0; 9], Err((1, 0)))?;
    bench.bytes(&rt, &[0, 2, 0, 0, 0, 0, 0, 0, 0, 0], Err((2, 0)))?;
    bench.bytes(&rt, &[1, 0, 0, 0, 0, 0, 0, 0, 0, 0], Err((2, 0)))
}

#[test]
fn lengths(rt: HostRuntime) -> Result<(), Fail> {
    let bench = Bench::new(rt.alloc())?;
    bench.bytes(&rt, &[0, 0, 0, 0, 0, 0, 0, 32, 0, 2, 40], Err((4, 8)))?;
    bench.bytes(&rt, &[0, 0, 0, 0, 0, 0, 0, 32, 0, 2, 40, 2, 0], Err((4, 8)))?;
    bench.bytes(&rt, &[0, 0, 0, 1, 0, 0, 0, 32, 0, 2, 40, 2], Err((4, 8)))?;
    bench.bytes(&rt, &[0, 0, 0, 0, 0, 0, 0, 32, 0, 2, 40, 2], Ok(0))
}

#[test]
fn most_literals(rt: HostRuntime) -> Result<(), Fail> {
    Bench::new(rt.alloc())?.drafts(
        &rt,
        &[
            (with_literals(&[NIL; 1024], &TURNING), Ok(0)),
            (with_literals(&[NIL; 1025], &TURNING), Err((3, 2))),
        ],
    )
}

#[test]
fn code_lengths(rt: HostRuntime) -> Result<(), Fail> {
    let longest = repeated(rt.alloc(), 54, 2047, &TURNING)?;
    let longer = repeated(rt.alloc(), 54, 2048, &[40])?;
    Bench::new(rt.alloc())?.codes(
        &rt,
        &[
            (&[], Err((12, 0))),
            (&[56], Err((12, 0))),
            (&[56, 0, 51], Err((12, 2))),
            (&[56, 0, 51, 0, 54], Err((12, 4))),
            (&longest, Ok(0)),
            (&longer, Err((3, 8))),
        ],
    )
}

#[test]
fn method_flags(rt: HostRuntime) -> Result<(), Fail> {
    let bench = Bench::new(rt.alloc())?;
    for bit in 17..32u32 {
        bench.drafts(&rt, &[(with_flags(32 + (1 << bit), &TURNING), Err((6, 4)))])?;
    }
    bench.drafts(
        &rt,
        &[
            (with_flags(0x0001_FFFF, &TURNING), Ok(0)),
            (with_flags(32 + (4 << 11), &TURNING), Ok(0)),
            (with_flags(32 + (5 << 11), &TURNING), Err((7, 4))),
            (with_flags(1 << 11, &TURNING), Err((7, 4))),
        ],
    )
}

#[test]
fn block_flags(rt: HostRuntime) -> Result<(), Fail> {
    let bench = Bench::new(rt.alloc())?;
    for bit in [6, 7, 8, 9, 10, 11, 12, 13, 30, 31u32] {
        bench.drafts(&rt, &[(block_with(1 << bit, &TURNING), Err((6, 4)))])?;
    }
    bench.drafts(
        &rt,
        &[
            (block_with(0x3FFF_C03F, &TURNING), Ok(0)),
            (block_with(BLOCK_SLOTS + (4 << 20), &TURNING), Ok(0)),
            (block_with(BLOCK_SLOTS + (5 << 20), &TURNING), Err((7, 4))),
            (block_with(1 << 20, &TURNING), Err((7, 4))),
        ],
    )
}

// The limit is what the slots leave beside the locals.
#[test]
fn limits(rt: HostRuntime) -> Result<(), Fail> {
    let bench = Bench::new(rt.alloc())?;
    let most = repeated(rt.alloc(), 45, 252, &[51, 0])?;
    let over = repeated(rt.alloc(), 45, 253, &[51, 0])?;
    let three = repeated(rt.alloc(), 45, 3, &[51, 0])?;
    bench.draft(&rt, with_flags(63 << 5, &most), Ok(252))?;
    bench.draft(&rt, with_flags(63 << 5, &over), Err((22, 504)))?;
    bench.draft(&rt, with_flags(32 + (1 << 11), &three), Ok(3))?;
    bench.draft(&rt, with_flags(32 + (2 << 11), &three), Err((22, 4)))?;
    bench.draft(&rt, with_flags(0, &three), Err((22, 0)))?;
    bench.draft(&rt, block_with(BLOCK_SLOTS, &three), Ok(3))?;
    bench.draft(&rt, block_with(BLOCK_SLOTS + (1 << 20), &three), Ok(3))?;
    bench.draft(
        &rt,
        block_with(BLOCK_SLOTS + (2 << 20), &three),
        Err((22, 4)),
    )
}

// Each field of a method's flags at its greatest: the frame cells that the code may name, and the
// limit.
#[test]
fn method_fields(rt: HostRuntime) -> Result<(), Fail> {
    let arguments = 32 + 31;
    let locals = (16 << 5) + (63 << 11);
    Bench::new(rt.alloc())?.drafts(
        &rt,
        &[
            (with_flags(arguments, &[32, 30, 51, 0]), Ok(1)),
            (with_flags(arguments, &[32, 31, 51, 0]), Err((15, 0))),
            (with_flags(locals, &[32, 62, 51, 0]), Ok(1)),
            (with_flags(locals, &[32, 63, 51, 0]), Err((15, 0))),
            (with_flags(locals, &[45, 0, 45, 0, 51, 0]), Err((22, 2))),
        ],
    )
}

// The same of a block's flags.
#[test]
fn block_fields(rt: HostRuntime) -> Result<(), Fail> {
    let arguments = BLOCK_SLOTS + (31 << 25);
    let locals = (8 << 14) + (31 << 20);
    let both = BLOCK_SLOTS + (1 << 20) + (2 << 25);
    Bench::new(rt.alloc())?.drafts(
        &rt,
        &[
            (block_with(arguments, &[32, 30, 51, 0]), Ok(1)),
            (block_with(arguments, &[32, 31, 51, 0]), Err((15, 0))),
            (block_with(locals, &[32, 30, 51, 0]), Ok(1)),
            (block_with(locals, &[32, 31, 51, 0]), Err((15, 0))),
            (block_with(locals, &[45, 0, 45, 0, 51, 0]), Err((22, 2))),
            (block_with(both, &[32, 2, 51, 0]), Ok(1)),
            (block_with(both, &[32, 3, 51, 0]), Err((15, 0))),
        ],
    )
}

// The most slots of a block.
#[test]
fn block_slots(rt: HostRuntime) -> Result<(), Fail> {
    let bench = Bench::new(rt.alloc())?;
    let most = repeated(rt.alloc(), 45, 252, &[51, 0])?;
    let over = repeated(rt.alloc(), 45, 253, &[51, 0])?;
    bench.draft(&rt, block_with(63 << 14, &most), Ok(252))?;
    bench.draft(&rt, block_with(63 << 14, &over), Err((22, 504)))
}
