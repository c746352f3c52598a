// Week files and the host over them.
use hosts::{Host, Row};
use samples::{Entry, NIL, in_numbers, int, over_file, send_to};
use std::alloc::{AllocError, Global};
use std::process::Abort;
use std::test::Fail;
use values::{Fault, Value};
use week_file::{WeekFile, check_file};

// A trusted cell that holds nil.
const TRUSTED_NIL: Entry = [1, 0, 0, 0, 0, 0];

// The bytes of a week file: the first eight, then the cells.
fn week(heap: Global, header: [u8; 8], cells: &[Entry]) -> Result<Vec<u8>, AllocError> {
    let mut bytes = Vec::new(heap);
    bytes.extend_from_slice(&header)?;
    bytes.extend_from_slice(cells.as_flattened())?;
    Ok(bytes)
}

// One variable and two bindings, receiver object 42.
fn small_file(heap: Global) -> Result<WeekFile, AllocError> {
    Ok(over_file(heap)?.into_below())
}

// Why bytes are refused, in numbers.
fn why(bytes: &[u8]) -> Option<(u8, usize)> {
    missing(check_file(bytes))
}

// A fault in numbers; none where all is well.
fn missing<T>(answer: Result<T, Fault>) -> Option<(u8, usize)>
where
    T: Drop,
{
    in_numbers(answer).err()
}

#[test]
fn refused_headers(rt: HostRuntime) {
    assert_eq!(rt; why(&[]), Some((30, 0)));
    assert_eq!(rt; why(&[4, 1, 4, 1, 0, 0, 0]), Some((30, 0)));
    assert_eq!(rt; why(&[4, 1, 4, 1, 0, 0, 0, 0]), Some((31, 0)));
    assert_eq!(rt; why(&[4, 0, 4, 1, 0, 0, 0, 0]), Some((31, 2)));
    assert_eq!(rt; why(&[4, 0, 4, 0, 0, 0, 0, 0]), Some((32, 0)));
    assert_eq!(rt; why(&[0, 0, 0, 0, 9, 9, 9, 9]), None);
}

#[test]
fn refused_lengths(rt: HostRuntime) -> Result<(), Fail> {
    let short = week(rt.alloc(), [0, 1, 0, 1, 0, 0, 0, 0], &[[9; 6]])?;
    let long = week(rt.alloc(), [0, 1, 0, 0, 0, 0, 0, 0], &[NIL, NIL])?;
    let full = week(rt.alloc(), [4, 0, 4, 0, 0, 0, 0, 0], &[NIL; 2048])?;
    assert_eq!(rt; why(&short), Some((32, 0)));
    assert_eq!(rt; why(&long), Some((32, 0)));
    assert_eq!(rt; why(&full), None);
    Ok(())
}

#[test]
fn refused_cells(rt: HostRuntime) -> Result<(), Fail> {
    for cell in [
        [2, 0, 0, 0, 0, 0],
        [0, 7, 0, 0, 0, 0],
        [0, 0, 0, 0, 0, 1],
        [1, 1, 1, 0, 0, 0],
        [0, 2, 0, 0, 1, 0],
        [0, 3, 0x40, 0, 0, 0],
        [0, 3, 0xBF, 0xFF, 0xFF, 0xFF],
    ] {
        let first = week(rt.alloc(), [0, 1, 0, 1, 0, 0, 0, 0], &[cell, [9; 6]])?;
        let last = week(
            rt.alloc(),
            [0, 1, 0, 2, 0, 0, 0, 0],
            &[NIL, TRUSTED_NIL, cell],
        )?;
        assert_eq!(rt; why(&first), Some((34, 8)));
        assert_eq!(rt; why(&last), Some((34, 20)));
    }
    Ok(())
}

#[test]
fn reads(rt: HostRuntime) -> Result<(), Fail> {
    let host = small_file(rt.alloc())?;
    assert_eq!(rt; host.receiver(), Value::Object(42));
    assert_eq!(rt;
        (host.count(Row::Variables), host.count(Row::Bindings)),
        (1, 2)
    );
    assert_eq!(rt; host.value(Row::Variables, 0).ok(), Some(int(-7)));
    assert_eq!(rt; host.value(Row::Bindings, 0).ok(), Some(Value::Object(100)));
    assert_eq!(rt; host.value(Row::Bindings, 1).ok(), Some(Value::True));
    assert_eq!(rt; host.trusted(Row::Variables, 0).ok(), Some(false));
    assert_eq!(rt; host.trusted(Row::Bindings, 0).ok(), Some(true));
    assert_eq!(rt; host.trusted(Row::Bindings, 1).ok(), Some(false));
    Ok(())
}

// The most significant byte comes first, in the receiver and in a cell, read or written.
#[test]
fn bytes_in_order(rt: HostRuntime) -> Result<(), Fail> {
    let header = [0, 1, 0, 1, 1, 2, 3, 4];
    let mut host = WeekFile::open(week(rt.alloc(), header, &[[0, 4, 5, 6, 7, 8], NIL])?);
    assert_eq!(rt; host.receiver(), Value::Object(16_909_060));
    assert_eq!(rt;
        host.value(Row::Variables, 0).ok(),
        Some(Value::Object(84_281_096))
    );
    assert_eq!(rt;
        missing(host.set_value(Row::Bindings, 0, Value::Block(16_909_060))),
        None
    );
    let after = week(
        rt.alloc(),
        header,
        &[[0, 4, 5, 6, 7, 8], [0, 5, 1, 2, 3, 4]],
    )?;
    assert_eq!(rt; host.into_bytes().as_slice(), after.as_slice());
    Ok(())
}

#[test]
fn cells_not_there(rt: HostRuntime) -> Result<(), Fail> {
    let mut host = small_file(rt.alloc())?;
    assert_eq!(rt; missing(host.value(Row::Variables, 1)), Some((29, 1)));
    assert_eq!(rt; missing(host.value(Row::Bindings, 2)), Some((29, 2)));
    assert_eq!(rt; missing(host.trusted(Row::Variables, 1)), Some((29, 1)));
    assert_eq!(rt;
        missing(host.trusted(Row::Bindings, usize::MAX)),
        Some((29, usize::MAX))
    );
    assert_eq!(rt;
        missing(host.set_value(Row::Variables, 1, Value::True)),
        Some((29, 1))
    );
    assert_eq!(rt;
        missing(host.set_value(Row::Bindings, 2, Value::True)),
        Some((29, 2))
    );
    let before = small_file(rt.alloc())?.into_bytes();
    assert_eq!(rt; host.into_bytes().as_slice(), before.as_slice());
    Ok(())
}

// A write alters its cell and no mark, also in a trusted cell.
#[test]
fn writes(rt: HostRuntime) -> Result<(), Fail> {
    let mut host = small_file(rt.alloc())?;
    assert_eq!(rt;
        missing(host.set_value(Row::Variables, 0, Value::Closure(258))),
        None
    );
    assert_eq!(rt; missing(host.set_value(Row::Bindings, 0, Value::Nil)), None);
    assert_eq!(rt;
        host.value(Row::Variables, 0).ok(),
        Some(Value::Closure(258))
    );
    assert_eq!(rt; host.value(Row::Bindings, 0).ok(), Some(Value::Nil));
    assert_eq!(rt; host.value(Row::Bindings, 1).ok(), Some(Value::True));
    assert_eq!(rt; host.trusted(Row::Bindings, 0).ok(), Some(true));
    let cells = [[0, 6, 0, 0, 1, 2], TRUSTED_NIL, [0, 1, 0, 0, 0, 0]];
    let after = week(rt.alloc(), [0, 1, 0, 2, 0, 0, 0, 42], &cells)?;
    assert_eq!(rt; host.into_bytes().as_slice(), after.as_slice());
    Ok(())
}

// What a host answers to a message with these arguments.
fn reply(
    host: &mut WeekFile,
    selector: u32,
    receiver: Value,
    arguments: &[Value],
) -> Option<Value> {
    send_to(host, false, selector, receiver, arguments)
}

#[test]
fn understood(rt: HostRuntime) -> Result<(), Fail> {
    let mut host = small_file(rt.alloc())?;
    let seven = int(7);
    assert_eq!(rt; reply(&mut host, 20, Value::Nil, &[]), Some(Value::True));
    assert_eq!(rt; reply(&mut host, 20, Value::False, &[]), Some(Value::False));
    assert_eq!(rt; reply(&mut host, 21, Value::Nil, &[]), Some(Value::False));
    assert_eq!(rt; reply(&mut host, 21, seven, &[]), Some(Value::True));
    assert_eq!(rt; reply(&mut host, 24, seven, &[seven]), Some(Value::True));
    assert_eq!(rt;
        reply(&mut host, 24, seven, &[Value::Object(7)]),
        Some(Value::False)
    );
    assert_eq!(rt;
        reply(&mut host, 24, Value::Block(7), &[Value::Block(8)]),
        Some(Value::False)
    );
    assert_eq!(rt; reply(&mut host, 25, seven, &[]), Some(Value::Nil));
    Ok(())
}

// Sends nil each of these selectors, and none is understood.
fn ignores(
    rt: &impl Abort,
    host: &mut WeekFile,
    is_super: bool,
    selectors: &[u32],
    arguments: &[Value],
) {
    for selector in selectors {
        let answer = send_to(host, is_super, *selector, Value::Nil, arguments);
        assert_eq!(rt; answer, None, "{}", *selector);
    }
}

#[test]
fn not_understood(rt: HostRuntime) -> Result<(), Fail> {
    let mut host = small_file(rt.alloc())?;
    ignores(&rt, &mut host, false, &[0, 19, 22, 23, 24, 26, 276], &[]);
    ignores(&rt, &mut host, false, &[0, 20, 21, 23, 25], &[Value::Nil]);
    ignores(
        &rt,
        &mut host,
        false,
        &[20, 24, 25],
        &[Value::Nil, Value::Nil],
    );
    ignores(&rt, &mut host, true, &[20, 21, 25], &[]);
    ignores(&rt, &mut host, true, &[24], &[Value::Nil]);
    let before = small_file(rt.alloc())?.into_bytes();
    assert_eq!(rt; host.into_bytes().as_slice(), before.as_slice());
    Ok(())
}

// Why a file with these bytes is refused, asked of the host over it.
fn refusal_over(
    heap: Global,
    header: [u8; 8],
    cells: &[Entry],
) -> Result<Option<(u8, usize)>, AllocError> {
    let host = WeekFile::open(week(heap, header, cells)?);
    Ok(missing(host.refusal()))
}

// The fault of opening is answered as `check_file` answers it, also after a write.
#[test]
fn refusals_are_kept(rt: HostRuntime) -> Result<(), Fail> {
    let mut host = small_file(rt.alloc())?;
    assert_eq!(rt; missing(host.refusal()), None);
    assert_eq!(rt; missing(host.set_value(Row::Bindings, 0, Value::Nil)), None);
    assert_eq!(rt; missing(host.refusal()), None);
    let mut empty = WeekFile::open(Vec::new(rt.alloc()));
    assert_eq!(rt; missing(empty.refusal()), Some((30, 0)));
    assert_eq!(rt;
        missing(empty.set_value(Row::Bindings, 0, Value::Nil)),
        Some((29, 0))
    );
    assert_eq!(rt; missing(empty.refusal()), Some((30, 0)));
    let variables = refusal_over(rt.alloc(), [4, 1, 4, 1, 0, 0, 0, 0], &[])?;
    let bindings = refusal_over(rt.alloc(), [4, 0, 4, 1, 0, 0, 0, 0], &[])?;
    let length = refusal_over(rt.alloc(), [0, 1, 0, 1, 0, 0, 0, 42], &[NIL])?;
    let cell = refusal_over(rt.alloc(), [0, 1, 0, 1, 0, 0, 0, 42], &[NIL, [9; 6]])?;
    assert_eq!(rt; variables, Some((31, 0)));
    assert_eq!(rt; bindings, Some((31, 2)));
    assert_eq!(rt; length, Some((32, 0)));
    assert_eq!(rt; cell, Some((34, 14)));
    Ok(())
}

#[test]
fn over_a_refused_file(rt: HostRuntime) -> Result<(), Fail> {
    let mut host = WeekFile::open(week(rt.alloc(), [0, 1, 0, 1, 0, 0, 0, 42], &[NIL])?);
    assert_eq!(rt; host.receiver(), Value::Nil);
    assert_eq!(rt;
        (host.count(Row::Variables), host.count(Row::Bindings)),
        (0, 0)
    );
    assert_eq!(rt; missing(host.value(Row::Variables, 0)), Some((29, 0)));
    assert_eq!(rt; missing(host.value(Row::Bindings, 0)), Some((29, 0)));
    assert_eq!(rt;
        missing(host.set_value(Row::Variables, 0, Value::True)),
        Some((29, 0))
    );
    assert_eq!(rt; reply(&mut host, 20, Value::Nil, &[]), Some(Value::True));
    let before = week(rt.alloc(), [0, 1, 0, 1, 0, 0, 0, 42], &[NIL])?;
    assert_eq!(rt; host.into_bytes().as_slice(), before.as_slice());
    Ok(())
}
