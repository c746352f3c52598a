// Checks a small method over a week file, runs it, and prints what came of it.
#![tactic(auto)]

use arithmetic::Arithmetic;
use checker::check;
use engine::Run;
use hosts::Host;
use semantics::State;
use values::{Fault, Value};
use week_file::WeekFile;

// Two open variables, the integers 40 and 2; no bindings; the receiver is object 7.
const WEEK: [u8; 20] = [0, 2, 0, 0, 0, 0, 0, 7, 0, 3, 0, 0, 0, 40, 0, 3, 0, 0, 0, 2];

// A method with 4 slots and 8 bytes of code: push variable 0, push variable 1, add, return.
const METHOD: [u8; 18] = [0, 0, 0, 0, 0, 0, 0, 32, 0, 8, 35, 0, 35, 1, 0, 0, 51, 0];

// The greatest height of the untrusted method, and the value that it comes to in 100 steps at most.
fn check_and_run(host: &mut impl Host) -> Result<(u8, Value), Fault> {
    let mut heights = [0u8; 4];
    let mut waiting = [0u16; 4];
    let height = check(host, &METHOD, false, &mut heights, &mut waiting)?;
    let mut frame = [Value::Nil; 4];
    let mut run = Run::empty();
    run.open(
        host,
        &METHOD,
        false,
        &[],
        &mut frame,
        &mut heights,
        &mut waiting,
    )?;
    for _ in 0..100 {
        let State::Live = run.state() else { break };
        run.step(host, &mut frame)?;
    }
    let (_, value) = run.collect(host);
    Ok((height, value))
}

fn main(rt: HostRuntime) -> anyhow::Result<()> {
    let mut host = Arithmetic::new(WeekFile::open(WEEK.to_vec(rt.alloc())?));
    match check_and_run(&mut host) {
        Ok((height, value)) => println!(rt; "accepted {height}, returned {value}")?,
        Err(fault) => println!(rt; "{fault}")?,
    }
    Ok(())
}
