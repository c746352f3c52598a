// What each class of instructions does. Each row is a call of its own, so that what fails is told
// by its line.
use crate::worlds::{block_of, comes_to, method_of, method_with, returns};
use hosts::{Host, Row};
use parcels::Ending;
use samples::{BINDING_1, BLOCK, Entry, OBJECT, int, over_file};
use semantics::{State, Stop};
use std::test::Fail;
use values::Value;

// The selector of `-`.
const MINUS: Entry = [1, 7, 0, 0, 0, 1];

#[test]
fn sends(rt: HostRuntime) -> Result<(), Fail> {
    let mut host = over_file(rt.alloc())?;
    returns(&rt, &mut host, &[], &[44, 7, 44, 2, 1, 0, 51, 0], int(5))?;
    returns(
        &rt,
        &mut host,
        &[MINUS],
        &[44, 7, 44, 2, 28, 1, 51, 0],
        int(5),
    )
}

#[test]
fn messages_that_nobody_understands(rt: HostRuntime) -> Result<(), Fail> {
    let mut host = over_file(rt.alloc())?;
    let size = State::Stopped(Stop::NotUnderstood { selector: 18 });
    let bytes = method_of(rt.alloc(), &[44, 5, 18, 0, 51, 0])?;
    comes_to(&rt, &mut host, &bytes, &[int(9)], size);
    let minus = State::Stopped(Stop::NotUnderstood { selector: 1 });
    let bytes = method_with(rt.alloc(), &[MINUS], &[44, 7, 44, 2, 29, 1, 51, 0])?;
    comes_to(&rt, &mut host, &bytes, &[int(9)], minus);
    Ok(())
}

#[test]
fn arguments_and_locals(rt: HostRuntime) -> Result<(), Fail> {
    let mut host = over_file(rt.alloc())?;
    returns(&rt, &mut host, &[], &[32, 0, 51, 0], int(9))?;
    returns(&rt, &mut host, &[], &[32, 1, 51, 0], Value::Nil)?;
    returns(
        &rt,
        &mut host,
        &[],
        &[44, 3, 36, 1, 48, 0, 32, 1, 51, 0],
        int(3),
    )
}

#[test]
fn variables(rt: HostRuntime) -> Result<(), Fail> {
    let mut host = over_file(rt.alloc())?;
    returns(&rt, &mut host, &[], &[35, 0, 51, 0], int(-7))?;
    returns(&rt, &mut host, &[], &[44, 3, 39, 0, 51, 0], int(3))?;
    assert_eq!(rt; host.value(Row::Variables, 0), Ok(int(3)));
    Ok(())
}

#[test]
fn bindings(rt: HostRuntime) -> Result<(), Fail> {
    let mut host = over_file(rt.alloc())?;
    returns(&rt, &mut host, &[BINDING_1], &[34, 0, 51, 0], Value::True)?;
    returns(
        &rt,
        &mut host,
        &[BINDING_1],
        &[44, 3, 38, 0, 51, 0],
        Value::Nil,
    )?;
    assert_eq!(rt; host.value(Row::Bindings, 1), Ok(int(3)));
    Ok(())
}

#[test]
fn jumps(rt: HostRuntime) -> Result<(), Fail> {
    let mut host = over_file(rt.alloc())?;
    returns(
        &rt,
        &mut host,
        &[],
        &[41, 2, 45, 1, 45, 2, 51, 0],
        Value::False,
    )?;
    returns(&rt, &mut host, &[], &[41, 4, 44, 8, 51, 0, 40, 6], int(8))
}

#[test]
fn branches(rt: HostRuntime) -> Result<(), Fail> {
    let mut host = over_file(rt.alloc())?;
    returns(
        &rt,
        &mut host,
        &[],
        &[45, 1, 42, 4, 44, 1, 51, 0, 44, 2, 51, 0],
        int(2),
    )?;
    returns(
        &rt,
        &mut host,
        &[],
        &[45, 2, 42, 4, 44, 1, 51, 0, 44, 2, 51, 0],
        int(1),
    )?;
    returns(
        &rt,
        &mut host,
        &[],
        &[45, 1, 43, 4, 44, 1, 51, 0, 44, 2, 51, 0],
        int(1),
    )?;
    returns(
        &rt,
        &mut host,
        &[],
        &[45, 2, 43, 4, 44, 1, 51, 0, 44, 2, 51, 0],
        int(2),
    )
}

// Message 25 is sent to what is no Boolean, and the jump is taken.
#[test]
fn no_boolean(rt: HostRuntime) -> Result<(), Fail> {
    let mut host = over_file(rt.alloc())?;
    returns(
        &rt,
        &mut host,
        &[],
        &[44, 5, 42, 4, 44, 1, 51, 0, 44, 2, 51, 0],
        int(2),
    )?;
    returns(
        &rt,
        &mut host,
        &[],
        &[45, 0, 43, 4, 44, 1, 51, 0, 44, 2, 51, 0],
        int(2),
    )
}

#[test]
fn constants(rt: HostRuntime) -> Result<(), Fail> {
    let mut host = over_file(rt.alloc())?;
    returns(&rt, &mut host, &[], &[55, 3, 44, 232, 51, 0], int(1000))?;
    returns(&rt, &mut host, &[], &[45, 0, 51, 0], Value::Nil)?;
    returns(&rt, &mut host, &[], &[45, 1, 51, 0], Value::True)?;
    returns(&rt, &mut host, &[OBJECT], &[46, 0, 51, 0], Value::Object(9))?;
    returns(
        &rt,
        &mut host,
        &[],
        &[54, 3, 56, 0, 51, 0],
        Value::Object(42),
    )
}

#[test]
fn pops_and_copies(rt: HostRuntime) -> Result<(), Fail> {
    let mut host = over_file(rt.alloc())?;
    returns(&rt, &mut host, &[], &[44, 3, 52, 0, 8, 0, 51, 0], int(9))?;
    returns(&rt, &mut host, &[], &[44, 3, 44, 4, 48, 0, 51, 0], int(3))
}

#[test]
fn closures(rt: HostRuntime) -> Result<(), Fail> {
    let mut host = over_file(rt.alloc())?;
    returns(
        &rt,
        &mut host,
        &[BLOCK],
        &[46, 0, 49, 0, 51, 0],
        Value::Closure(9),
    )?;
    let none = State::Stopped(Stop::NoBlock);
    let code = [44, 5, 41, 2, 46, 0, 49, 0, 51, 0];
    let bytes = method_with(rt.alloc(), &[BLOCK], &code)?;
    comes_to(&rt, &mut host, &bytes, &[int(9)], none);
    Ok(())
}

#[test]
fn blocks(rt: HostRuntime) -> Result<(), Fail> {
    let mut host = over_file(rt.alloc())?;
    let three = State::Ended {
        how: Ending::Return,
        value: int(3),
    };
    let bytes = block_of(rt.alloc(), 0, &[44, 3, 51, 0])?;
    comes_to(&rt, &mut host, &bytes, &[], three);
    let variable = State::Ended {
        how: Ending::Return,
        value: int(-7),
    };
    let bytes = block_of(rt.alloc(), 1, &[35, 0, 51, 0])?;
    comes_to(&rt, &mut host, &bytes, &[], variable);
    let receiver = State::Ended {
        how: Ending::MethodReturn,
        value: Value::Object(42),
    };
    let bytes = block_of(rt.alloc(), 31, &[56, 0, 50, 0])?;
    comes_to(&rt, &mut host, &bytes, &[], receiver);
    Ok(())
}
