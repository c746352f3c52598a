// The stage heights.
use crate::bench::Bench;
use crate::drafts::with_flags;
use std::test::*;

#[test]
fn loops(rt: HostRuntime) -> Result<(), Fail> {
    Bench::new(rt.alloc())?.codes(
        &rt,
        &[
            (&[56, 0, 48, 0, 40, 6], Ok(1)),
            (&[44, 1, 40, 4], Err((24, 0))),
            (&[54, 0, 56, 0, 40, 4], Err((24, 2))),
            (&[56, 0, 54, 0, 48, 0, 40, 4], Err((24, 4))),
            (&[45, 1, 42, 2, 40, 6, 40, 2], Ok(1)),
        ],
    )
}

#[test]
fn ends(rt: HostRuntime) -> Result<(), Fail> {
    Bench::new(rt.alloc())?.codes(
        &rt,
        &[
            (&[56, 0], Err((23, 0))),
            (&[54, 0, 54, 0], Err((23, 2))),
            (&[41, 2, 54, 0, 55, 0, 54, 0], Err((23, 4))),
            (&[56, 0, 51, 0, 56, 0], Ok(1)),
            (&[40, 2, 51, 0], Ok(0)),
        ],
    )
}

#[test]
fn meetings(rt: HostRuntime) -> Result<(), Fail> {
    Bench::new(rt.alloc())?.codes(
        &rt,
        &[
            (&[45, 1, 43, 4, 56, 0, 41, 2, 56, 0, 51, 0], Ok(1)),
            (&[45, 1, 43, 4, 56, 0, 41, 0, 56, 0, 51, 0], Err((24, 8))),
            (&[45, 1, 42, 2, 56, 0, 54, 0, 40, 2], Err((24, 6))),
        ],
    )
}

// The newest waiting place is taken first, so the following place before the landing place.
#[test]
fn newest_first(rt: HostRuntime) -> Result<(), Fail> {
    Bench::new(rt.alloc())?.codes(
        &rt,
        &[
            (&[56, 0, 43, 2, 51, 0, 51, 0], Err((21, 4))),
            (&[56, 0, 43, 2, 40, 2, 51, 0], Err((21, 6))),
            (&[56, 0, 43, 4, 56, 0, 41, 2, 51, 0, 51, 0], Err((21, 8))),
        ],
    )
}

// Of two successors with other heights, the landing place is named.
#[test]
fn landing_before_following(rt: HostRuntime) -> Result<(), Fail> {
    Bench::new(rt.alloc())?.codes(
        &rt,
        &[
            (
                &[
                    56, 0, 43, 12, 56, 0, 43, 10, 56, 0, 56, 0, 56, 0, 43, 2, 54, 0, 40, 2,
                ],
                Err((24, 18)),
            ),
            (
                &[
                    56, 0, 43, 12, 56, 0, 43, 12, 56, 0, 56, 0, 56, 0, 43, 2, 54, 0, 40, 2, 40, 2,
                ],
                Err((24, 16)),
            ),
        ],
    )
}

// The need is tried before the limit, and the limit before the end of the code.
#[test]
fn within_a_turn(rt: HostRuntime) -> Result<(), Fail> {
    Bench::new(rt.alloc())?.drafts(
        &rt,
        &[
            (with_flags(0, &[52, 0]), Err((21, 0))),
            (with_flags(0, &[56, 0]), Err((22, 0))),
            (with_flags(32, &[56, 0]), Err((23, 0))),
            (with_flags(0, &[54, 0, 40, 4]), Ok(0)),
        ],
    )
}
