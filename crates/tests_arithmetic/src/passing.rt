// What goes below, and what is below.
use crate::worlds::between;
use arithmetic::Arithmetic;
use hosts::{Host, Row};
use samples::{SMALL_WEEK, int, over_bytes, over_file, send_to};
use std::process::Abort;
use std::test::Fail;
use values::{Fault, Rule, Value};

// The file after 2 went into variable 0 and nil into binding 0.
const WRITTEN: [u8; 26] = [
    0, 1, 0, 2, 0, 0, 0, 42, 0, 3, 0, 0, 0, 2, 1, 0, 0, 0, 0, 0, 0, 1, 0, 0, 0, 0,
];

// Bytes that are no week file.
const REFUSED: [u8; 3] = [1, 2, 3];

// The fault of a cell that is not there.
fn missing(i: usize) -> Fault {
    Rule::CellMissing.at(i)
}

// What comes of a message without arguments.
fn asked(host: &mut impl Host, receiver: Value, selector: u32) -> Option<Value> {
    send_to(host, false, selector, receiver, &[])
}

// What comes of `+`.
fn plus(
    host: &mut impl Host,
    is_super: bool,
    receiver: Value,
    arguments: &[Value],
) -> Option<Value> {
    send_to(host, is_super, 0, receiver, arguments)
}

// The messages of a week file are answered, and others are not.
fn try_messages(rt: &impl Abort, host: &mut impl Host) {
    assert_eq!(rt; asked(host, Value::Nil, 20), Some(Value::True));
    assert_eq!(rt; asked(host, int(0), 21), Some(Value::True));
    assert_eq!(rt; asked(host, int(0), 25), Some(Value::Nil));
    assert_eq!(rt; between(host, 5, 24, 5), Some(Value::True));
    assert_eq!(rt; between(host, 5, 9, 6), None);
    assert_eq!(rt; between(host, 5, 14, 6), None);
}

// Only a sum of two small integers is one.
fn try_sums(rt: &impl Abort, host: &mut impl Host) {
    assert_eq!(rt; plus(host, false, int(5), &[int(6)]), Some(int(11)));
    assert_eq!(rt; plus(host, true, int(5), &[int(6)]), None);
    assert_eq!(rt; plus(host, false, int(5), &[]), None);
    assert_eq!(rt; plus(host, false, int(5), &[int(6), int(7)]), None);
    assert_eq!(rt; plus(host, false, Value::Nil, &[int(6)]), None);
    assert_eq!(rt; plus(host, false, int(5), &[Value::Object(6)]), None);
}

// The questions are answered by the file.
fn try_questions(rt: &impl Abort, host: &impl Host) {
    assert_eq!(rt; host.receiver(), Value::Object(42));
    assert_eq!(rt; host.count(Row::Variables), 1);
    assert_eq!(rt; host.count(Row::Bindings), 2);
    assert_eq!(rt; host.trusted(Row::Variables, 0), Ok(false));
    assert_eq!(rt; host.trusted(Row::Bindings, 0), Ok(true));
}

// The reads too, with the fault of a cell that is not there.
fn try_reads(rt: &impl Abort, host: &impl Host) {
    assert_eq!(rt; host.value(Row::Variables, 0), Ok(int(-7)));
    assert_eq!(rt; host.value(Row::Bindings, 0), Ok(Value::Object(100)));
    assert_eq!(rt; host.value(Row::Variables, 1), Err(missing(1)));
    assert_eq!(rt; host.value(Row::Bindings, 2), Err(missing(2)));
}

// Writes 2 into variable 0 and nil into binding 0.
fn try_writes(rt: &impl Abort, host: &mut impl Host) {
    assert_eq!(rt; host.set_value(Row::Variables, 0, int(2)), Ok(()));
    assert_eq!(rt; host.set_value(Row::Bindings, 0, Value::Nil), Ok(()));
    assert_eq!(rt;
        host.set_value(Row::Bindings, 2, Value::Nil),
        Err(missing(2))
    );
}

#[test]
fn messages_pass_and_leave_the_file(rt: HostRuntime) -> Result<(), Fail> {
    let mut host = over_file(rt.alloc())?;
    try_messages(&rt, &mut host);
    try_sums(&rt, &mut host);
    let bytes = host.into_below().into_bytes();
    assert!(rt; bytes.as_slice() == SMALL_WEEK.as_slice());
    Ok(())
}

#[test]
fn questions_and_reads_reach_the_file(rt: HostRuntime) -> Result<(), Fail> {
    let host = over_file(rt.alloc())?;
    try_questions(&rt, &host);
    try_reads(&rt, &host);
    Ok(())
}

#[test]
fn writes_reach_the_file(rt: HostRuntime) -> Result<(), Fail> {
    let mut host = over_file(rt.alloc())?;
    try_writes(&rt, &mut host);
    let bytes = host.into_below().into_bytes();
    assert!(rt; bytes.as_slice() == WRITTEN.as_slice());
    Ok(())
}

#[test]
fn a_layer_over_a_layer(rt: HostRuntime) -> Result<(), Fail> {
    let mut host = Arithmetic::new(over_file(rt.alloc())?);
    try_messages(&rt, &mut host);
    try_sums(&rt, &mut host);
    try_questions(&rt, &host);
    try_reads(&rt, &host);
    try_writes(&rt, &mut host);
    let bytes = host.into_below().into_below().into_bytes();
    assert!(rt; bytes.as_slice() == WRITTEN.as_slice());
    Ok(())
}

#[test]
fn a_layer_over_a_refused_file(rt: HostRuntime) -> Result<(), Fail> {
    let mut host = over_bytes(rt.alloc(), &REFUSED)?;
    try_messages(&rt, &mut host);
    try_sums(&rt, &mut host);
    assert_eq!(rt; host.receiver(), Value::Nil);
    assert_eq!(rt; host.count(Row::Variables), 0);
    assert_eq!(rt; host.set_value(Row::Variables, 0, int(2)), Err(missing(0)));
    let bytes = host.into_below().into_bytes();
    assert!(rt; bytes.as_slice() == REFUSED.as_slice());
    Ok(())
}
