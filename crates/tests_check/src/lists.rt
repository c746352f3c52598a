// What the two lists hold after a check.
use crate::bench::{Bench, CheckResult};
use crate::drafts::{Draft, block, method, with_flags};
use checker::check;
use samples::in_numbers;
use std::process::Abort;
use std::test::*;

// What a check leaves in five height bytes that were 7 and four waiting entries that were 9.
#[derive(Clone, Copy)]
struct Left<'a> {
    draft: Draft<'a>,
    want: CheckResult,
    heights: [u8; 5],
    waiting: [u16; 4],
}

impl Left<'_> {
    fn expect(self, rt: &impl Abort, bench: &Bench) -> Result<(), Fail> {
        let mut heights = [7; 5];
        let mut waiting = [9; 4];
        let bytes = self.draft.bytes(bench.heap)?;
        let answer = check(&bench.host, &bytes, false, &mut heights, &mut waiting);
        assert_eq!(rt; in_numbers(answer), self.want);
        assert_eq!(rt; heights, self.heights);
        assert_eq!(rt; waiting, self.waiting);
        Ok(())
    }
}

// Code as a method with 4 slots, what is found, and both lists afterwards.
fn leaves(code: &[u8], want: CheckResult, heights: [u8; 5], waiting: [u16; 4]) -> Left<'_> {
    Left {
        draft: method(code),
        want,
        heights,
        waiting,
    }
}

#[test]
fn accepted(rt: HostRuntime) -> Result<(), Fail> {
    let bench = Bench::new(rt.alloc())?;
    for case in [
        leaves(&[56, 0, 51, 0], Ok(1), [0, 1, 7, 7, 7], [0, 0, 9, 9]),
        leaves(&[40, 2], Ok(0), [0, 7, 7, 7, 7], [0, 9, 9, 9]),
        leaves(
            &[55, 3, 44, 232, 51, 0],
            Ok(1),
            [0, 255, 1, 7, 7],
            [0, 0, 0, 9],
        ),
        leaves(
            &[41, 2, 56, 0, 44, 1, 51, 0],
            Ok(1),
            [0, 255, 0, 1, 7],
            [0, 0, 0, 0],
        ),
        leaves(
            &[56, 0, 43, 2, 40, 2, 40, 2],
            Ok(1),
            [0, 1, 0, 0, 7],
            [0, 0, 0, 0],
        ),
    ] {
        case.expect(&rt, &bench)?;
    }
    Ok(())
}

#[test]
fn refused_late(rt: HostRuntime) -> Result<(), Fail> {
    let bench = Bench::new(rt.alloc())?;
    for case in [
        leaves(&[], Err((12, 0)), [7; 5], [9; 4]),
        leaves(&[56], Err((12, 0)), [7; 5], [9; 4]),
        leaves(&[56, 0, 51], Err((12, 2)), [255, 7, 7, 7, 7], [0, 9, 9, 9]),
        leaves(
            &[56, 0, 55, 0],
            Err((12, 2)),
            [255, 255, 7, 7, 7],
            [0, 0, 9, 9],
        ),
        leaves(
            &[55, 0, 55, 0, 55, 0, 55, 0],
            Err((13, 0)),
            [255, 255, 255, 255, 7],
            [0; 4],
        ),
        leaves(
            &[56, 0, 25, 0],
            Err((14, 2)),
            [255, 255, 7, 7, 7],
            [0, 0, 9, 9],
        ),
        leaves(&[45, 3], Err((15, 0)), [255, 7, 7, 7, 7], [0, 9, 9, 9]),
        leaves(
            &[56, 0, 39, 3],
            Err((17, 2)),
            [255, 255, 7, 7, 7],
            [0, 0, 9, 9],
        ),
        leaves(&[50, 0], Err((18, 0)), [255, 7, 7, 7, 7], [0, 9, 9, 9]),
        leaves(&[40, 4], Err((19, 0)), [255, 7, 7, 7, 7], [0, 9, 9, 9]),
        leaves(
            &[56, 0, 49, 0],
            Err((20, 2)),
            [255, 255, 7, 7, 7],
            [0, 0, 9, 9],
        ),
        leaves(
            &[56, 0, 48, 0, 51, 0],
            Err((21, 4)),
            [255, 255, 255, 7, 7],
            [0, 0, 0, 9],
        ),
        leaves(
            &[56, 0, 54, 0],
            Err((23, 2)),
            [255, 255, 7, 7, 7],
            [0, 0, 9, 9],
        ),
        leaves(
            &[44, 1, 40, 4],
            Err((24, 0)),
            [255, 255, 7, 7, 7],
            [0, 0, 9, 9],
        ),
    ] {
        case.expect(&rt, &bench)?;
    }
    Ok(())
}

// A clean block that pushes its receiver, and a push over a limit of 0.
#[test]
fn refused_by_flags(rt: HostRuntime) -> Result<(), Fail> {
    let bench = Bench::new(rt.alloc())?;
    for (draft, want) in [
        (block(0, &[56, 0, 51, 0]), Err((16, 0))),
        (with_flags(0, &[56, 0, 51, 0]), Err((22, 0))),
    ] {
        let left = Left {
            draft,
            want,
            heights: [255, 255, 7, 7, 7],
            waiting: [0, 0, 9, 9],
        };
        left.expect(&rt, &bench)?;
    }
    Ok(())
}

// The same for bytes of any sort, refused before the lists are used: no draft has them.
fn untouched(rt: &impl Abort, bench: &Bench, bytes: &[u8], want: CheckResult) -> Result<(), Fail> {
    let mut heights = [7; 5];
    let mut waiting = [9; 4];
    let answer = check(&bench.host, bytes, false, &mut heights, &mut waiting);
    assert_eq!(rt; in_numbers(answer), want);
    assert_eq!(rt; heights, [7; 5]);
    assert_eq!(rt; waiting, [9; 4]);
    Ok(())
}

#[test]
fn refused_early(rt: HostRuntime) -> Result<(), Fail> {
    let bench = Bench::new(rt.alloc())?;
    untouched(&rt, &bench, &[0; 9], Err((1, 0)))?;
    untouched(
        &rt,
        &bench,
        &[0, 2, 0, 0, 0, 0, 0, 32, 0, 2, 40, 2],
        Err((2, 0)),
    )?;
    untouched(
        &rt,
        &bench,
        &[0, 0, 4, 1, 0, 0, 0, 32, 0, 2, 40, 2],
        Err((3, 2)),
    )?;
    untouched(
        &rt,
        &bench,
        &[0, 0, 0, 0, 0, 0, 0, 32, 16, 2, 40, 2],
        Err((3, 8)),
    )?;
    untouched(
        &rt,
        &bench,
        &[0, 0, 0, 0, 0, 0, 0, 32, 0, 4, 40, 2],
        Err((4, 8)),
    )?;
    untouched(
        &rt,
        &bench,
        &[0, 0, 0, 0, 1, 0, 0, 32, 0, 2, 40, 2],
        Err((6, 4)),
    )?;
    untouched(
        &rt,
        &bench,
        &[0, 0, 0, 0, 0, 0, 8, 0, 0, 2, 40, 2],
        Err((7, 4)),
    )?;
    untouched(
        &rt,
        &bench,
        &[0, 0, 0, 1, 0, 0, 0, 32, 0, 2, 0, 6, 0, 0, 0, 0, 40, 2],
        Err((9, 0)),
    )?;
    untouched(
        &rt,
        &bench,
        &[0, 0, 0, 1, 0, 0, 0, 32, 0, 2, 0, 8, 0, 0, 0, 2, 40, 2],
        Err((10, 0)),
    )?;
    let five_pairs = method(&[54, 0, 54, 0, 54, 0, 54, 0, 40, 2]).bytes(rt.alloc())?;
    untouched(&rt, &bench, &five_pairs, Err((11, 0)))
}

// A code over lists of any length.
fn over_lists(
    bench: &Bench,
    code: &[u8],
    heights: &mut [u8],
    waiting: &mut [u16],
) -> Result<CheckResult, Fail> {
    let bytes = method(code).bytes(bench.heap)?;
    Ok(in_numbers(check(&bench.host, &bytes, false, heights, waiting)))
}

// Three pairs need three entries in each list.
#[test]
fn long_enough(rt: HostRuntime) -> Result<(), Fail> {
    let bench = Bench::new(rt.alloc())?;
    let code = [56, 0, 48, 0, 40, 2];
    assert_eq!(rt;
        over_lists(&bench, &code, &mut [7; 2], &mut [9; 3])?,
        Err((11, 0))
    );
    assert_eq!(rt;
        over_lists(&bench, &code, &mut [7; 3], &mut [9; 2])?,
        Err((11, 0))
    );
    assert_eq!(rt; over_lists(&bench, &code, &mut [], &mut [])?, Err((11, 0)));
    assert_eq!(rt; over_lists(&bench, &code, &mut [7; 3], &mut [9; 3])?, Ok(1));
    assert_eq!(rt; over_lists(&bench, &code, &mut [7; 9], &mut [9; 3])?, Ok(1));
    Ok(())
}

// An odd length is rounded down.
#[test]
fn odd_lengths(rt: HostRuntime) -> Result<(), Fail> {
    let bench = Bench::new(rt.alloc())?;
    assert_eq!(rt; over_lists(&bench, &[56], &mut [], &mut [])?, Err((12, 0)));
    assert_eq!(rt;
        over_lists(&bench, &[56, 0, 51], &mut [7; 1], &mut [9; 1])?,
        Err((12, 2))
    );
    assert_eq!(rt;
        over_lists(&bench, &[56, 0, 51], &mut [7; 1], &mut [])?,
        Err((11, 0))
    );
    Ok(())
}
