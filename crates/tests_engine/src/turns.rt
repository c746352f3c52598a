// Runs over many steps, in turn, and with frames that are altered between them. Each test opens its
// own run, as in `refusals`.
use crate::worlds::{make_steps, method_of, open_in, state_after};
use engine::Run;
use hosts::{Host, Row};
use parcels::Ending;
use samples::{int, over_file};
use semantics::{State, Stop};
use std::test::Fail;
use values::Value;

// Adds 1 to variable 0 in every turn of six steps.
const COUNTING: [u8; 12] = [35, 0, 44, 1, 0, 0, 39, 0, 48, 0, 40, 12];

// Forty turns, counted in the local; each pushes a figure and drops it.
const FORTY: [u8; 30] = [
    44, 40, 36, 1, 48, 0, 44, 1, 48, 0, 32, 1, 44, 1, 1, 0, 36, 1, 44, 0, 3, 0, 43, 2, 40, 20, 45,
    0, 51, 0,
];

#[test]
fn jump_to_itself(rt: HostRuntime) -> Result<(), Fail> {
    let mut host = over_file(rt.alloc())?;
    let bytes = method_of(rt.alloc(), &[40, 2])?;
    assert_eq!(rt; state_after(&mut host, &bytes, &[int(9)], 500), State::Live);
    Ok(())
}

#[test]
fn forty_turns(rt: HostRuntime) -> Result<(), Fail> {
    let mut host = over_file(rt.alloc())?;
    let bytes = method_of(rt.alloc(), &FORTY)?;
    let ended = State::Ended {
        how: Ending::Return,
        value: Value::Nil,
    };
    assert_eq!(rt; state_after(&mut host, &bytes, &[int(9)], 403), State::Live);
    assert_eq!(rt; state_after(&mut host, &bytes, &[int(9)], 404), ended);
    Ok(())
}

// Two runs of one parcel on one host, step by step: each adds to what it read before the other
// stored.
#[test]
fn two_runs(rt: HostRuntime) -> Result<(), Fail> {
    let mut host = over_file(rt.alloc())?;
    let bytes = method_of(rt.alloc(), &COUNTING)?;
    let mut ones = [Value::Nil; 9];
    let mut others = [Value::Nil; 9];
    let mut one = Run::empty();
    let mut other = Run::empty();
    assert_eq!(rt;
        open_in(&mut one, &host, &bytes, &[int(9)], &mut ones),
        Ok(2)
    );
    assert_eq!(rt;
        open_in(&mut other, &host, &bytes, &[int(9)], &mut others),
        Ok(2)
    );
    make_steps(&mut one, &mut host, &mut ones, 1);
    make_steps(&mut other, &mut host, &mut others, 1);
    make_steps(&mut one, &mut host, &mut ones, 5);
    assert_eq!(rt; host.value(Row::Variables, 0), Ok(int(-6)));
    make_steps(&mut other, &mut host, &mut others, 5);
    assert_eq!(rt; host.value(Row::Variables, 0), Ok(int(-6)));
    make_steps(&mut one, &mut host, &mut ones, 6);
    assert_eq!(rt; host.value(Row::Variables, 0), Ok(int(-5)));
    Ok(())
}

#[test]
fn altered_frame(rt: HostRuntime) -> Result<(), Fail> {
    let mut host = over_file(rt.alloc())?;
    let bytes = method_of(rt.alloc(), &[44, 3, 51, 0])?;
    let mut frame = [Value::Nil; 9];
    let mut run = Run::empty();
    assert_eq!(rt;
        open_in(&mut run, &host, &bytes, &[int(9)], &mut frame),
        Ok(1)
    );
    make_steps(&mut run, &mut host, &mut frame, 1);
    assert_eq!(rt; run.place(), 2);
    assert_eq!(rt; run.height(), 1);
    assert_eq!(rt; frame[2], int(3));
    frame[2] = int(99);
    make_steps(&mut run, &mut host, &mut frame, 1);
    let (_, value) = run.collect(&host);
    assert_eq!(rt; value, int(99));
    Ok(())
}

// Opening writes the argument and the local alone, and a popped cell keeps its contents.
#[test]
fn cells_that_stay(rt: HostRuntime) -> Result<(), Fail> {
    let mut host = over_file(rt.alloc())?;
    let bytes = method_of(rt.alloc(), &[44, 3, 48, 0, 45, 0, 51, 0])?;
    let mut frame = [Value::True; 10];
    let mut run = Run::empty();
    assert_eq!(rt;
        open_in(&mut run, &host, &bytes, &[int(9)], &mut frame),
        Ok(1)
    );
    assert_eq!(rt; frame[0], int(9));
    assert_eq!(rt; frame[1], Value::Nil);
    assert_eq!(rt; frame[2], Value::True);
    assert_eq!(rt; frame[9], Value::True);
    make_steps(&mut run, &mut host, &mut frame, 2);
    assert_eq!(rt; run.height(), 0);
    assert_eq!(rt; frame[2], int(3));
    Ok(())
}

// A stop leaves the place and the height at the instruction that stopped the run.
#[test]
fn stopped_place(rt: HostRuntime) -> Result<(), Fail> {
    let mut host = over_file(rt.alloc())?;
    let bytes = method_of(rt.alloc(), &[44, 5, 18, 0, 51, 0])?;
    let mut frame = [Value::Nil; 9];
    let mut run = Run::empty();
    assert_eq!(rt;
        open_in(&mut run, &host, &bytes, &[int(9)], &mut frame),
        Ok(1)
    );
    make_steps(&mut run, &mut host, &mut frame, 2);
    assert_eq!(rt; run.place(), 2);
    assert_eq!(rt; run.height(), 1);
    let (state, value) = run.collect(&host);
    assert_eq!(rt; state, State::Stopped(Stop::NotUnderstood { selector: 18 }));
    assert_eq!(rt; value, Value::Nil);
    Ok(())
}
