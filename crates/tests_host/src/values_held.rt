// Values, small integers, the stack, and what a fault says of itself.
use samples::int;
use values::{Rule, SmallInteger, Stack, Stage, Value};

// Only the low 31 bits count, signed.
#[test]
fn low_bits(rt: HostRuntime) {
    for (n, kept) in [
        (0, 0),
        (-1, -1),
        (1_073_741_823, 1_073_741_823),
        (1_073_741_824, -1_073_741_824),
        (-1_073_741_824, -1_073_741_824),
        (-1_073_741_825, 1_073_741_823),
        (i32::MAX, -1),
        (i32::MIN, 0),
    ] {
        assert_eq!(rt; i32::from(SmallInteger::new(n)), kept, "{}", n);
        assert_eq!(rt;
            SmallInteger::try_from(i64::from(n)).is_ok(),
            n == kept,
            "{}",
            n
        );
    }
}

#[test]
fn from_parts(rt: HostRuntime) {
    assert_eq!(rt; Value::from_parts(0, 0), Some(Value::Nil));
    assert_eq!(rt; Value::from_parts(1, 0), Some(Value::True));
    assert_eq!(rt; Value::from_parts(2, 0), Some(Value::False));
    assert_eq!(rt;
        Value::from_parts(4, u32::MAX),
        Some(Value::Object(u32::MAX))
    );
    assert_eq!(rt; Value::from_parts(5, 1), Some(Value::Block(1)));
    assert_eq!(rt; Value::from_parts(6, 0), Some(Value::Closure(0)));
    for (kind, number) in [
        (0, 1),
        (1, 1),
        (2, u32::MAX),
        (3, 0x4000_0000),
        (3, 0xBFFF_FFFF),
        (3, 0x8000_0000),
        (7, 0),
        (255, 0),
    ] {
        assert_eq!(rt; Value::from_parts(kind, number), None, "{}", number);
    }
}

#[test]
fn integers_from_parts(rt: HostRuntime) {
    for (number, n) in [
        (0, 0),
        (0xFFFF_FFFF, -1),
        (0x3FFF_FFFF, 1_073_741_823),
        (0xC000_0000, -1_073_741_824),
    ] {
        let value = int(n);
        assert_eq!(rt; Value::from_parts(3, number), Some(value), "{}", n);
        assert_eq!(rt; (value.kind(), value.number()), (3, number), "{}", n);
    }
}

#[test]
fn stack_of_two(rt: HostRuntime) {
    let mut cells = [1u8, 2];
    let mut stack = Stack {
        cells: &mut cells,
        height: 0,
    };
    assert_eq!(rt; stack.pop(), None);
    assert_eq!(rt; stack.push(5), Ok(()));
    assert_eq!(rt; stack.push(6), Ok(()));
    assert_eq!(rt; stack.push(7), Err(7));
    assert_eq!(rt; stack.height, 2);
    assert_eq!(rt; stack.pop(), Some(6));
    assert_eq!(rt; stack.pop(), Some(5));
    assert_eq!(rt; stack.pop(), None);
    assert_eq!(rt; cells, [5, 6]);
}

// A height above the number of cells refuses both.
#[test]
fn stack_too_high(rt: HostRuntime) {
    let mut cells = [Value::Nil];
    let mut stack = Stack {
        cells: &mut cells,
        height: 2,
    };
    assert_eq!(rt; stack.pop(), None);
    assert_eq!(rt; stack.push(Value::True), Err(Value::True));
    assert_eq!(rt; stack.height, 2);
    assert_eq!(rt; cells, [Value::Nil]);
}

// Every rule with its number and its stage.
const RULES: [(Rule, u8, Stage); 33] = [
    (Rule::HeaderShort, 1, Stage::Header),
    (Rule::KindUnknown, 2, Stage::Header),
    (Rule::LiteralsTooMany, 3, Stage::Header),
    (Rule::CodeTooLong, 3, Stage::Header),
    (Rule::LengthWrong, 4, Stage::Header),
    (Rule::FlagsReserved, 6, Stage::Flags),
    (Rule::LocalsOverSlots, 7, Stage::Flags),
    (Rule::LiteralWrong, 9, Stage::Literals),
    (Rule::BindingMissing, 10, Stage::Literals),
    (Rule::ListShort, 11, Stage::Lists),
    (Rule::CodeCut, 12, Stage::Encoding),
    (Rule::ExtensionFourth, 13, Stage::Encoding),
    (Rule::OpcodeUnknown, 14, Stage::Encoding),
    (Rule::OperandWrong, 15, Stage::Encoding),
    (Rule::CleanBlock, 16, Stage::Encoding),
    (Rule::StoreTrusted, 17, Stage::Encoding),
    (Rule::ReturnForeign, 18, Stage::Encoding),
    (Rule::LandingWrong, 19, Stage::Encoding),
    (Rule::ClosureAlone, 20, Stage::Encoding),
    (Rule::HeightLow, 21, Stage::Heights),
    (Rule::HeightOver, 22, Stage::Heights),
    (Rule::FallsOffEnd, 23, Stage::Heights),
    (Rule::HeightsDiffer, 24, Stage::Heights),
    (Rule::ArgumentsDiffer, 25, Stage::Opening),
    (Rule::FrameShort, 26, Stage::Opening),
    (Rule::RunNotLive, 27, Stage::Step),
    (Rule::CountsDiffer, 28, Stage::Step),
    (Rule::StepFrameShort, 26, Stage::Step),
    (Rule::CellMissing, 29, Stage::Host),
    (Rule::FileShort, 30, Stage::WeekFile),
    (Rule::CellsTooMany, 31, Stage::WeekFile),
    (Rule::FileLength, 32, Stage::WeekFile),
    (Rule::CellWrong, 34, Stage::WeekFile),
];

#[test]
fn rules(rt: HostRuntime) {
    for (rule, number, stage) in RULES {
        let fault = rule.at(77);
        assert_eq!(rt; fault.number(), number);
        assert_eq!(rt; fault.stage(), stage, "{}", number);
        assert_eq!(rt; fault.place(), 77, "{}", number);
    }
}
