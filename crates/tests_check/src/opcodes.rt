// Every opcode and every message.
use crate::bench::Bench;
use crate::drafts::{repeated, with_flags};
use parcels::argument_count;
use samples::KEYWORD;
use std::test::*;

// The opcodes above 24 that are in the table, without the extension.
const ABOVE: [u8; 22] = [
    28, 29, 32, 34, 35, 36, 38, 39, 40, 41, 42, 43, 44, 45, 46, 48, 49, 50, 51, 52, 54, 56,
];

// Opcode 55 begins an instruction that goes on, here with the unknown opcode 25.
#[test]
fn known(rt: HostRuntime) -> Result<(), Fail> {
    let bench = Bench::new(rt.alloc())?;
    for opcode in 0..=255u8 {
        let bytes = with_flags(32, &[opcode, 0, 25, 0]).bytes(rt.alloc())?;
        let is_known = opcode <= 24 || ABOVE.contains(&opcode);
        let unknown_first = bench.finds(&bytes, false) == Err((14, 0));
        assert_eq!(rt; unknown_first, !is_known, "opcode {opcode}");
    }
    Ok(())
}

// A message with c arguments needs c + 1 cells, and leaves one in their place.
#[test]
fn messages(rt: HostRuntime) -> Result<(), Fail> {
    let bench = Bench::new(rt.alloc())?;
    for message in 0..=24u8 {
        let count = match message {
            17 => 2,
            18..=22 => 0,
            _ => 1,
        };
        assert_eq!(rt; argument_count(message), count);
        let cells = count as usize;
        let short = repeated(rt.alloc(), 45, cells, &[message, 0, 51, 0])?;
        let enough = repeated(rt.alloc(), 45, cells + 1, &[message, 0, 51, 0])?;
        let two = repeated(rt.alloc(), 45, cells + 1, &[message, 0, 48, 0, 51, 0])?;
        bench.codes(
            &rt,
            &[
                (&short, Err((21, 2 * cells))),
                (&enough, Ok(count + 1)),
                (&two, Err((21, 2 * cells + 6))),
            ],
        )?;
    }
    assert_eq!(rt; argument_count(25), 0);
    Ok(())
}

// Sends by selector need the detail and one more.
#[test]
fn selector_heights(rt: HostRuntime) -> Result<(), Fail> {
    Bench::new(rt.alloc())?.codes_with(
        &rt,
        &[KEYWORD],
        &[
            (&[45, 0, 45, 0, 28, 2, 51, 0], Err((21, 4))),
            (&[45, 0, 45, 0, 45, 0, 28, 2, 51, 0], Ok(3)),
            (&[45, 0, 45, 0, 45, 0, 29, 2, 51, 0], Ok(3)),
            (&[45, 0, 45, 0, 45, 0, 28, 2, 48, 0, 51, 0], Err((21, 10))),
        ],
    )
}

// What every other opcode needs, and what it leaves: a pop and a return follow.
#[test]
fn effects(rt: HostRuntime) -> Result<(), Fail> {
    Bench::new(rt.alloc())?.codes(
        &rt,
        &[
            (&[36, 0, 51, 0], Err((15, 0))),
            (&[39, 0, 51, 0], Err((21, 0))),
            (&[56, 0, 39, 0, 48, 0, 51, 0], Err((21, 6))),
            (&[48, 0, 40, 2], Err((21, 0))),
            (&[56, 0, 48, 0, 40, 2], Ok(1)),
            (&[52, 0, 40, 2], Err((21, 0))),
            (&[56, 0, 52, 0, 48, 0, 51, 0], Ok(2)),
            (&[56, 0, 52, 0, 48, 0, 48, 0, 51, 0], Err((21, 8))),
            (&[42, 0, 40, 2], Err((21, 0))),
            (&[43, 0, 40, 2], Err((21, 0))),
            (&[56, 0, 42, 0, 40, 2], Ok(1)),
            (&[54, 0, 51, 0], Err((21, 2))),
            (&[35, 0, 51, 0], Ok(1)),
            (&[44, 0, 51, 0], Ok(1)),
            (&[45, 0, 51, 0], Ok(1)),
        ],
    )
}
