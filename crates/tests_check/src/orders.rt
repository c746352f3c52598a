// Parcels that break two rules: the earlier one is answered.
use crate::bench::Bench;
use crate::drafts::{BLOCK_SLOTS, Draft, block, with_literals};
use checker::check;
use samples::{BINDING_0, BINDING_2, Entry, in_numbers};
use std::test::*;

#[test]
fn header_rows(rt: HostRuntime) -> Result<(), Fail> {
    let bench = Bench::new(rt.alloc())?;
    bench.bytes(&rt, &[0, 2], Err((1, 0)))?;
    bench.bytes(&rt, &[0, 2, 4, 1, 0, 0, 0, 0, 0, 0], Err((2, 0)))?;
    bench.bytes(&rt, &[0, 0, 4, 1, 0, 0, 0, 0, 16, 1], Err((3, 2)))?;
    bench.bytes(&rt, &[0, 0, 4, 0, 0, 0, 0, 0, 16, 1], Err((3, 8)))?;
    bench.bytes(&rt, &[0, 0, 4, 0, 255, 0, 0, 0, 16, 0], Err((4, 8)))
}

// A draft with literals, of a kind and with flags.
fn marked(kind: u8, flags: u32, literals: &[Entry]) -> Draft<'_> {
    Draft {
        kind,
        flags,
        ..with_literals(literals, &[40, 2])
    }
}

#[test]
fn flags_and_literals(rt: HostRuntime) -> Result<(), Fail> {
    let wrong = [[0, 6, 0, 0, 0, 0]];
    Bench::new(rt.alloc())?.drafts(
        &rt,
        &[
            (marked(0, (1 << 17) + (1 << 11), &[]), Err((6, 4))),
            (marked(1, (1 << 30) + (1 << 20), &[]), Err((6, 4))),
            (marked(0, 1 << 11, &wrong), Err((7, 4))),
            (marked(1, 1 << 20, &wrong), Err((7, 4))),
            (marked(0, 0, &wrong), Err((9, 0))),
            (
                marked(1, BLOCK_SLOTS, &[BINDING_0, BINDING_2]),
                Err((10, 1)),
            ),
        ],
    )
}

// A draft over lists without entries.
fn listless(bench: &Bench, draft: Draft) -> Result<(u8, usize), Fail> {
    let bytes = draft.bytes(bench.heap)?;
    let Err(fault) = in_numbers(check(&bench.host, &bytes, false, &mut [], &mut [])) else {
        return Err(Fail::new("accepted"));
    };
    Ok(fault)
}

#[test]
fn around_the_lists(rt: HostRuntime) -> Result<(), Fail> {
    let bench = Bench::new(rt.alloc())?;
    assert_eq!(rt;
        listless(&bench, with_literals(&[BINDING_2], &[40, 2]))?,
        (10, 0)
    );
    assert_eq!(rt;
        listless(&bench, with_literals(&[], &[40, 2, 40]))?,
        (11, 0)
    );
    assert_eq!(rt; listless(&bench, with_literals(&[], &[55, 0]))?, (11, 0));
    assert_eq!(rt; listless(&bench, with_literals(&[], &[25, 0]))?, (11, 0));
    assert_eq!(rt; listless(&bench, with_literals(&[], &[40]))?, (12, 0));
    assert_eq!(rt; listless(&bench, with_literals(&[], &[]))?, (12, 0));
    Ok(())
}

#[test]
fn at_one_instruction(rt: HostRuntime) -> Result<(), Fail> {
    Bench::new(rt.alloc())?.drafts(
        &rt,
        &[
            (block(0, &[55, 0, 55, 0, 55, 0, 55, 0]), Err((13, 0))),
            (block(0, &[55, 0, 55, 0, 55, 0, 55, 0, 25, 0]), Err((13, 0))),
            (block(0, &[55, 0, 55, 0, 55, 0, 55, 0, 25]), Err((12, 8))),
            (block(0, &[25, 0, 25]), Err((12, 2))),
            (block(0, &[35, 4, 51, 0]), Err((15, 0))),
            (block(0, &[44, 1, 39, 4, 51, 0]), Err((15, 2))),
            (block(0, &[44, 1, 39, 3, 51, 0]), Err((16, 2))),
            (block(1, &[44, 1, 39, 3, 51, 0]), Err((17, 2))),
            (block(0, &[49, 0]), Err((20, 0))),
            (block(0, &[50, 0]), Err((18, 0))),
        ],
    )
}

// Each row in turn stands before the next one and after it.
#[test]
fn between_instructions(rt: HostRuntime) -> Result<(), Fail> {
    Bench::new(rt.alloc())?.codes(
        &rt,
        &[
            (&[25, 0, 55, 0, 55, 0, 55, 0, 55, 0], Err((14, 0))),
            (&[25, 0, 55, 0], Err((14, 0))),
            (&[25, 0, 45, 3], Err((14, 0))),
            (&[45, 3, 25, 0], Err((15, 0))),
            (&[39, 3, 45, 3], Err((17, 0))),
            (&[45, 3, 39, 3], Err((15, 0))),
            (&[50, 0, 39, 3], Err((18, 0))),
            (&[39, 3, 50, 0], Err((17, 0))),
            (&[41, 1, 50, 0], Err((19, 0))),
            (&[50, 0, 41, 1], Err((18, 0))),
            (&[49, 0, 41, 1], Err((20, 0))),
            (&[41, 1, 49, 0], Err((19, 0))),
        ],
    )
}

// Every instruction is tried by the encoding rules before any height is.
#[test]
fn encoding_before_heights(rt: HostRuntime) -> Result<(), Fail> {
    Bench::new(rt.alloc())?.codes(
        &rt,
        &[
            (&[51, 0, 50, 0], Err((18, 2))),
            (&[56, 0, 51, 0, 49, 0], Err((20, 4))),
            (&[51, 0, 55, 0], Err((12, 2))),
            (&[40, 2, 45, 3], Err((15, 2))),
        ],
    )
}
