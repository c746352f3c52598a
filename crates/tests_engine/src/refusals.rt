// What is refused, and what a refusal leaves. Each test opens its own run: a run borrows its bytes,
// so that no function can hand out the two, and one that takes what a test does as a closure would
// take the handle, the host and the frame along.
use crate::worlds::{make_steps, method_of, open_in};
use engine::Run;
use hosts::Host;
use parcels::Ending;
use samples::{int, over_bytes, over_file};
use semantics::State;
use std::process::Abort;
use std::test::Fail;
use values::{Fault, Rule, Value};

// The state of an empty run.
const EMPTY: State = State::Ended {
    how: Ending::Return,
    value: Value::Nil,
};

// Opening a method of this code with these arguments is refused. The run and the frame stay.
fn open_refused(
    rt: &(impl Abort + AllocGlobal),
    code: &[u8],
    arguments: &[Value],
    cells: usize,
    rule: Rule,
) -> Result<(), Fail> {
    let host = over_file(rt.alloc())?;
    let bytes = method_of(rt.alloc(), code)?;
    let mut frame = vec![in rt.alloc(); Value::True; cells]?;
    let mut run = Run::empty();
    let answer = open_in(&mut run, &host, &bytes, arguments, &mut frame);
    assert_eq!(rt; answer, Err(rule.at(0)));
    assert_eq!(rt; run.state(), EMPTY);
    if let Some(v) = frame.get(0) {
        assert_eq!(rt; *v, Value::True);
    }
    Ok(())
}

#[test]
fn opening(rt: HostRuntime) -> Result<(), Fail> {
    open_refused(&rt, &[44, 3, 51, 0], &[], 9, Rule::ArgumentsDiffer)?;
    open_refused(&rt, &[44, 3, 51, 0], &[], 8, Rule::ArgumentsDiffer)?;
    open_refused(&rt, &[44, 3, 51, 0], &[int(1)], 8, Rule::FrameShort)?;
    open_refused(&rt, &[51, 0], &[], 8, Rule::HeightLow)
}

#[test]
fn empty_run(rt: HostRuntime) -> Result<(), Fail> {
    let mut host = over_file(rt.alloc())?;
    let mut run = Run::empty();
    let refused = Rule::RunNotLive.at(0);
    assert_eq!(rt; run.step(&mut host, &mut []), Err(refused));
    let (state, value) = run.collect(&host);
    assert_eq!(rt; state, EMPTY);
    assert_eq!(rt; value, Value::Nil);
    Ok(())
}

#[test]
fn ended_run(rt: HostRuntime) -> Result<(), Fail> {
    let mut host = over_file(rt.alloc())?;
    let bytes = method_of(rt.alloc(), &[44, 3, 51, 0])?;
    let mut frame = [Value::Nil; 9];
    let mut run = Run::empty();
    assert_eq!(rt;
        open_in(&mut run, &host, &bytes, &[int(9)], &mut frame),
        Ok(1)
    );
    make_steps(&mut run, &mut host, &mut frame, 2);
    let refused = Rule::RunNotLive.at(2);
    assert_eq!(rt; run.step(&mut host, &mut frame), Err(refused));
    let (_, value) = run.collect(&host);
    assert_eq!(rt; value, int(3));
    Ok(())
}

// A live run after one step on the week file, stepped on another host with another frame.
fn step_refused(
    rt: &(impl Abort + AllocGlobal),
    host: &mut impl Host,
    other: &mut [Value],
    rule: Rule,
) -> Result<(), Fail> {
    let mut week = over_file(rt.alloc())?;
    let bytes = method_of(rt.alloc(), &[44, 3, 51, 0])?;
    let mut frame = [Value::Nil; 9];
    let mut run = Run::empty();
    assert_eq!(rt;
        open_in(&mut run, &week, &bytes, &[int(9)], &mut frame),
        Ok(1)
    );
    make_steps(&mut run, &mut week, &mut frame, 1);
    assert_eq!(rt; run.step(host, other), Err(rule.at(2)));
    assert_eq!(rt; run.state(), State::Live);
    make_steps(&mut run, &mut week, &mut frame, 1);
    let (_, value) = run.collect(&week);
    assert_eq!(rt; value, int(3));
    Ok(())
}

#[test]
fn other_counts(rt: HostRuntime) -> Result<(), Fail> {
    let mut host = over_bytes(rt.alloc(), &[])?;
    let mut frame = [Value::Nil; 9];
    step_refused(&rt, &mut host, &mut frame, Rule::CountsDiffer)?;
    step_refused(&rt, &mut host, &mut [], Rule::CountsDiffer)
}

#[test]
fn short_frame(rt: HostRuntime) -> Result<(), Fail> {
    let mut host = over_file(rt.alloc())?;
    let mut frame = [Value::Nil; 8];
    step_refused(&rt, &mut host, &mut frame, Rule::StepFrameShort)
}
