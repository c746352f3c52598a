// What the trials share: parcels in parts, and runs of them.
use engine::Run;
use hosts::Host;
use parcels::Ending;
use samples::{Entry, int, parcel_bytes};
use semantics::State;
use std::alloc::{AllocError, Global};
use std::process::Abort;
use std::test::Fail;
use values::{Fault, Value};

// The flags of a method with one argument, one local and 8 slots: its working cells are 2 to 8 of
// the frame.
const METHOD: u32 = 2113;

// The flags of a block with 8 slots and chain use 0.
const BLOCK: u32 = 32768;

// A method with those flags.
pub(crate) fn method_with(
    heap: Global,
    literals: &[Entry],
    code: &[u8],
) -> Result<Vec<u8>, AllocError> {
    parcel_bytes(heap, 0, METHOD, literals, code)
}

// The same without literals.
pub(crate) fn method_of(heap: Global, code: &[u8]) -> Result<Vec<u8>, AllocError> {
    method_with(heap, &[], code)
}

// A block with a chain use and without literals.
pub(crate) fn block_of(heap: Global, chain: u32, code: &[u8]) -> Result<Vec<u8>, AllocError> {
    parcel_bytes(heap, 1, BLOCK | chain, &[], code)
}

// Opens an untrusted parcel.
pub(crate) fn open_in<'a>(
    run: &mut Run<'a>,
    host: &impl Host,
    bytes: &'a [u8],
    arguments: &[Value],
    frame: &mut [Value],
) -> Result<u8, Fault> {
    let mut heights = [0u8; 64];
    let mut waiting = [0u16; 64];
    run.open(
        host,
        bytes,
        false,
        arguments,
        frame,
        &mut heights,
        &mut waiting,
    )
}

// So many steps, refused or not.
pub(crate) fn make_steps(run: &mut Run, host: &mut impl Host, frame: &mut [Value], count: usize) {
    for _ in 0..count {
        let _ = run.step(host, frame);
    }
}

// The state of a parcel's run with these arguments, after so many steps.
pub(crate) fn state_after(
    host: &mut impl Host,
    bytes: &[u8],
    arguments: &[Value],
    count: usize,
) -> State {
    let mut frame = [Value::Nil; 9];
    let mut run = Run::empty();
    let _ = open_in(&mut run, host, bytes, arguments, &mut frame);
    make_steps(&mut run, host, &mut frame, count);
    let (state, _) = run.collect(host);
    state
}

// A parcel, run with these arguments, comes to a state.
pub(crate) fn comes_to(
    rt: &impl Abort,
    host: &mut impl Host,
    bytes: &[u8],
    arguments: &[Value],
    state: State,
) {
    assert_eq!(rt; state_after(host, bytes, arguments, 20), state);
}

// A method of this code, run with the argument 9, returns a value.
pub(crate) fn returns(
    rt: &(impl Abort + AllocGlobal),
    host: &mut impl Host,
    literals: &[Entry],
    code: &[u8],
    value: Value,
) -> Result<(), Fail> {
    let bytes = method_with(rt.alloc(), literals, code)?;
    let state = State::Ended {
        how: Ending::Return,
        value,
    };
    comes_to(rt, host, &bytes, &[int(9)], state);
    Ok(())
}
