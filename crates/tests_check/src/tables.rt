// The tables of `docs/INSTRUCTIONS.md` and `docs/FAULTS.md`, row by row, with their numbers written
// out.
use crate::bench::{Bench, CheckResult};
use crate::drafts::{Draft, block, method, repeated, with_flags, with_literals};
use checker::check;
use samples::{
    BINDING_0, BINDING_1, BINDING_2, BLOCK, Entry, KEYWORD, NIL, OBJECT, UNARY, in_numbers,
};
use std::alloc::AllocError;
use std::process::Abort;
use std::test::*;
use values::Stage;

// Literals 0 to 6: values are 0 to 2, a selector without arguments is 3 and one with two is 4, and
// bindings are 5 and 6.
const LITERALS: [Entry; 7] = [NIL, OBJECT, BLOCK, UNARY, KEYWORD, BINDING_0, BINDING_1];

// The flags of a block with chain use 31, one argument, one local and 8 slots. Every opcode may
// stand in it.
const FLAGS: u32 = 31 + (2 << 14) + (1 << 20) + (1 << 25);

// No height.
const NONE: u8 = 255;

// The greatest argument.
const MOST: u32 = 4_294_967_295;

// How an instruction goes on: to the following place, to the landing place, to either, or to none.
#[derive(Clone, Copy)]
enum Goes {
    Follows,
    Jumps,
    Either,
    Ends,
}

// The first and the last of some opcodes, an argument that their operand rule permits, how many
// cells they take and how many they leave, and how they go on.
type OpcodeRow = (u8, u8, u32, u8, u8, Goes);

// Every opcode but the extension. 28 and 29 name literal 3 with no argument here.
const OPCODES: [OpcodeRow; 22] = [
    (0, 16, 0, 2, 1, Goes::Follows),
    (17, 17, 0, 3, 1, Goes::Follows),
    (18, 22, 0, 1, 1, Goes::Follows),
    (23, 24, 0, 2, 1, Goes::Follows),
    (28, 29, 768, 1, 1, Goes::Follows),
    (32, 32, 0, 0, 1, Goes::Follows),
    (34, 34, 5, 0, 1, Goes::Follows),
    (35, 35, 0, 0, 1, Goes::Follows),
    (36, 36, 0, 1, 1, Goes::Follows),
    (38, 38, 5, 1, 1, Goes::Follows),
    (39, 39, 0, 1, 1, Goes::Follows),
    (40, 40, 8, 0, 0, Goes::Ends),
    (41, 41, 2, 0, 0, Goes::Jumps),
    (42, 43, 2, 1, 0, Goes::Either),
    (44, 45, 0, 0, 1, Goes::Follows),
    (46, 46, 0, 0, 1, Goes::Follows),
    (48, 48, 0, 1, 0, Goes::Follows),
    (49, 49, 0, 1, 1, Goes::Follows),
    (50, 51, 0, 1, 0, Goes::Ends),
    (52, 52, 0, 1, 2, Goes::Follows),
    (54, 54, 0, 0, 0, Goes::Follows),
    (56, 56, 0, 0, 1, Goes::Follows),
];

// What a check finds, and the heights at the following place and two places on.
#[derive(Clone, Copy)]
struct Met {
    found: CheckResult,
    following: u8,
    landing: u8,
}

// An instruction at height h, at place 2 * h + 4, with its argument in four pairs, directly after a
// push of a block that no path reaches. Two jumps to themselves follow it: a forward jump by 2
// lands at the second.
fn meets(bench: &Bench, h: u8, opcode: u8, argument: u32) -> Result<Met, AllocError> {
    let [a, b, c, d] = argument.to_be_bytes();
    let rest = [41, 2, 46, 2, 55, a, 55, b, 55, c, opcode, d, 40, 2, 40, 2];
    let code = repeated(bench.heap, 45, h as usize, &rest)?;
    let draft = Draft {
        kind: 1,
        flags: FLAGS,
        literals: &LITERALS,
        code: &code,
    };
    let bytes = draft.bytes(bench.heap)?;
    let mut heights = [7u8; 300];
    let mut waiting = [7u16; 300];
    let found = in_numbers(check(&bench.host, &bytes, true, &mut heights, &mut waiting));
    Ok(Met {
        found,
        following: heights[h as usize + 6],
        landing: heights[h as usize + 7],
    })
}

// An instruction of a row, at a height that is enough for it.
fn goes_on(rt: &impl Abort, bench: &Bench, row: OpcodeRow, opcode: u8, h: u8) -> Result<(), Fail> {
    let (_, _, argument, takes, leaves, goes) = row;
    let met = meets(bench, h, opcode, argument)?;
    let after = h.wrapping_sub(takes).wrapping_add(leaves);
    let (following, landing) = match goes {
        Goes::Follows => (after, NONE),
        Goes::Jumps => (NONE, after),
        Goes::Either => (after, after),
        Goes::Ends => (NONE, NONE),
    };
    assert_eq!(rt; met.found.is_ok(), true, "opcode {opcode} at {h}");
    assert_eq!(rt; met.following, following, "opcode {opcode} at {h}");
    assert_eq!(rt; met.landing, landing, "opcode {opcode} at {h}");
    Ok(())
}

// A row's opcode goes on from its need and from a greater height, and is refused one below it.
fn keeps(rt: &impl Abort, bench: &Bench, row: OpcodeRow, opcode: u8) -> Result<(), Fail> {
    let (_, _, argument, takes, _, _) = row;
    goes_on(rt, bench, row, opcode, takes)?;
    goes_on(rt, bench, row, opcode, 4)?;
    if takes > 0 {
        let h = takes - 1;
        let met = meets(bench, h, opcode, argument)?;
        assert_eq!(rt;
            met.found,
            Err((21, 2 * h as usize + 4)),
            "opcode {opcode} at {h}"
        );
    }
    Ok(())
}

// An opcode that has no row is unknown; 55 would be a fourth extension pair.
#[test]
fn opcodes(rt: HostRuntime) -> Result<(), Fail> {
    let bench = Bench::new(rt.alloc())?;
    for opcode in 0..=255u8 {
        let mut is_known = false;
        for row in OPCODES {
            let (from, to, _, _, _, _) = row;
            if from <= opcode && opcode <= to {
                is_known = true;
                keeps(&rt, &bench, row, opcode)?;
            }
        }
        if !is_known {
            let rule = if opcode == 55 { 13 } else { 14 };
            let met = meets(&bench, 4, opcode, 0)?;
            assert_eq!(rt; met.found, Err((rule, 12)), "opcode {opcode}");
        }
    }
    Ok(())
}

// Opcodes, arguments that their operand rule permits, others that it does not, and the rule that
// these break. The instruction stands at place 12, its following place is 20 and L is 24.
type OperandRow = (&'static [u8], &'static [u32], &'static [u32], u8);

// Every opcode but the extension: those without a rule permit every argument.
const OPERANDS: [OperandRow; 10] = [
    (
        &[
            0, 1, 2, 3, 4, 5, 6, 7, 8, 9, 10, 11, 12, 13, 14, 15, 16, 17, 18, 19, 20, 21, 22, 23,
            24, 48, 49, 50, 51, 52, 54, 56,
        ],
        &[0, 1, 255, 256, MOST],
        &[],
        15,
    ),
    (
        &[28, 29],
        &[768, 1026],
        &[0, 512, 767, 769, 1024, 1025, 1027, 1280, 1792, MOST],
        15,
    ),
    (&[32, 36], &[0, 1], &[2, 256, MOST], 15),
    (&[34, 38], &[5, 6], &[0, 3, 4, 7, 256, MOST], 15),
    (&[35, 39], &[0, 3], &[4, 256, MOST], 15),
    (&[40], &[0, 8, 12], &[1, 2, 4, 6, 7, 9, 21, 22, MOST], 19),
    (&[41, 42, 43], &[0, 2], &[1, 3, 4, 6, MOST], 19),
    (&[44], &[0, 536_870_911], &[536_870_912, MOST], 15),
    (&[45], &[0, 1, 2], &[3, 256, MOST], 15),
    (&[46], &[0, 1, 2], &[3, 4, 5, 6, 7, 256, MOST], 15),
];

// One opcode of a row.
fn permits(rt: &impl Abort, bench: &Bench, row: OperandRow, opcode: u8) -> Result<(), Fail> {
    let (_, inside, beyond, rule) = row;
    for argument in inside {
        let met = meets(bench, 4, opcode, *argument)?;
        assert_eq!(rt; met.found.is_ok(), true, "opcode {opcode} with {argument}");
    }
    for argument in beyond {
        let met = meets(bench, 4, opcode, *argument)?;
        assert_eq!(rt;
            met.found,
            Err((rule, 12)),
            "opcode {opcode} with {argument}"
        );
    }
    Ok(())
}

#[test]
fn operand_rules(rt: HostRuntime) -> Result<(), Fail> {
    let bench = Bench::new(rt.alloc())?;
    for row in OPERANDS {
        for opcode in row.0 {
            permits(&rt, &bench, row, *opcode)?;
        }
    }
    Ok(())
}

// What a check of an untrusted draft finds: the stage, the number and the place.
fn faults(rt: &impl Abort, bench: &Bench, rows: &[(Draft, Stage, u8, usize)]) -> Result<(), Fail> {
    for row in rows {
        let (draft, stage, number, place) = *row;
        let bytes = draft.bytes(bench.heap)?;
        let mut heights = [7u8; 2048];
        let mut waiting = [7u16; 2048];
        let found = check(&bench.host, &bytes, false, &mut heights, &mut waiting);
        let seen = found.map_err(|fault| (fault.stage(), fault.number(), fault.place()));
        assert_eq!(rt; seen, Err((stage, number, place)), "fault {number}");
    }
    Ok(())
}

// The stages flags to heights; `headers` has the bytes that break a rule of the header, and `lists`
// the lists that are too short.
#[test]
fn faults_of_a_check(rt: HostRuntime) -> Result<(), Fail> {
    faults(
        &rt,
        &Bench::new(rt.alloc())?,
        &[
            (with_literals(&[NIL; 1025], &[40, 2]), Stage::Header, 3, 2),
            (with_flags(1 << 17, &[40, 2]), Stage::Flags, 6, 4),
            (with_flags(1 << 11, &[40, 2]), Stage::Flags, 7, 4),
            (
                with_literals(&[NIL, [1, 0, 0, 0, 0, 0]], &[40, 2]),
                Stage::Literals,
                9,
                1,
            ),
            (
                with_literals(&[NIL, BINDING_2], &[40, 2]),
                Stage::Literals,
                10,
                1,
            ),
            (method(&[]), Stage::Encoding, 12, 0),
            (method(&[54, 0, 54]), Stage::Encoding, 12, 2),
            (
                method(&[54, 0, 55, 0, 55, 0, 55, 0, 55, 0]),
                Stage::Encoding,
                13,
                2,
            ),
            (method(&[54, 0, 55, 0]), Stage::Encoding, 12, 2),
            (method(&[54, 0, 25, 0]), Stage::Encoding, 14, 2),
            (method(&[54, 0, 45, 3]), Stage::Encoding, 15, 2),
            (block(0, &[54, 0, 56, 0]), Stage::Encoding, 16, 2),
            (method(&[56, 0, 39, 3]), Stage::Encoding, 17, 2),
            (method(&[56, 0, 50, 0]), Stage::Encoding, 18, 2),
            (method(&[54, 0, 41, 0]), Stage::Encoding, 19, 2),
            (method(&[56, 0, 49, 0]), Stage::Encoding, 20, 2),
            (method(&[54, 0, 51, 0]), Stage::Heights, 21, 2),
            (with_flags(0, &[54, 0, 56, 0, 51, 0]), Stage::Heights, 22, 2),
            (method(&[54, 0, 54, 0]), Stage::Heights, 23, 2),
            (method(&[54, 0, 56, 0, 40, 4]), Stage::Heights, 24, 2),
        ],
    )
}
