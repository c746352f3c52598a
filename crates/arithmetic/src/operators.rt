// The messages that the layer answers itself.
ghost use Rattle.std.specs.Prelude.{◌≡◌};
ghost use Rattle.std.specs.Option.{ok_or};
ghost use Rattle.arithmetic.specs.Operators.{operator_of, applied};

use crate::division::{floor_quotient, floor_remainder};
use values::{SmallInteger, Unknown, Value};

/// What is done with two small integers.
#[derive(Clone, Copy)]
pub(crate) enum Operator {
    Add,
    Subtract,
    Less,
    Greater,
    AtMost,
    AtLeast,
    Equal,
    Unequal,
    Multiply,
    Remainder,
    Quotient,
}

impl TryFrom<u32> for Operator {
    type Error = Unknown<u32>;

    ghost try_from_gives = { λ s r. r ≡ ok_or (operator_of s) (record { 0 = s }) };

    /// The operator that a selector number stands for. 9, 11, 12 and the numbers above 13 stand for
    /// none, and come back in the error.
    fn try_from(selector: u32) -> Result<Operator, Unknown<u32>> {
        match selector {
            0 => Ok(Operator::Add),
            1 => Ok(Operator::Subtract),
            2 => Ok(Operator::Less),
            3 => Ok(Operator::Greater),
            4 => Ok(Operator::AtMost),
            5 => Ok(Operator::AtLeast),
            6 => Ok(Operator::Equal),
            7 => Ok(Operator::Unequal),
            8 => Ok(Operator::Multiply),
            10 => Ok(Operator::Remainder),
            13 => Ok(Operator::Quotient),
            _ => Err(Unknown(selector)),
        }
    }
}

impl Operator {
    /// What it gives for x and y. None where the result is no small integer, and where x is divided
    /// by 0.
    pub(crate) fn apply(self, x: SmallInteger, y: SmallInteger) -> Option<Value>
        ensures { result ≡ applied self x.value y.value }
    {
        let a = i64::from(x);
        let b = i64::from(y);
        match self {
            Operator::Add => Value::try_from(a + b).ok(),
            Operator::Subtract => Value::try_from(a - b).ok(),
            Operator::Less => Some(Value::from(a < b)),
            Operator::Greater => Some(Value::from(a > b)),
            Operator::AtMost => Some(Value::from(a <= b)),
            Operator::AtLeast => Some(Value::from(a >= b)),
            Operator::Equal => Some(Value::from(a == b)),
            Operator::Unequal => Some(Value::from(a != b)),
            Operator::Multiply => Value::try_from(a * b).ok(),
            Operator::Remainder if b != 0 => Value::try_from(floor_remainder(a, b)).ok(),
            Operator::Quotient if b != 0 => Value::try_from(floor_quotient(a, b)).ok(),
            Operator::Remainder | Operator::Quotient => None,
        }
    }
}
