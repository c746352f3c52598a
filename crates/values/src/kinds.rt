// What a cell may hold.
ghost use Rattle.std.specs.Prelude.{◌≡◌, Some};
ghost use Rattle.std.specs.Option.{ok_or};
ghost use Rattle.values.specs.Kinds.{kind_number, number_field, plain_of, integer, value_of, truth, value_text, ReadBack};

use crate::small::SmallInteger;
use crate::unknown::Unknown;
use std::fmt;

/// A value of one of the seven kinds.
#[derive(Clone, Copy, PartialEq, Eq, Debug)]
pub enum Value {
    Nil,
    True,
    False,
    Integer(SmallInteger),
    /// An object, by its number in the world of the host.
    Object(u32),
    /// A block, by its number.
    Block(u32),
    /// A closure of the block with this number.
    Closure(u32),
}

impl Value {
    /// The number of its kind, 0 to 6, as parcels and week files write it.
    pub fn kind(self) -> u8
        ensures { result ≡ kind_number self }
    {
        match self {
            Value::Nil => 0,
            Value::True => 1,
            Value::False => 2,
            Value::Integer(_) => 3,
            Value::Object(_) => 4,
            Value::Block(_) => 5,
            Value::Closure(_) => 6,
        }
    }

    /// What the four-byte number field beside the kind holds: 0, an integer in two's complement, or
    /// the number of an object, a block or a closure.
    pub fn number(self) -> u32
        ensures { result ≡ number_field self }
    {
        match self {
            Value::Integer(s) => i32::from(s).cast_unsigned(),
            Value::Object(n) | Value::Block(n) | Value::Closure(n) => n,
            Value::Nil | Value::True | Value::False => 0,
        }
    }

    /// The value of a kind and a number field. None where the kind is above 6, where the field
    /// beside nil, true or false is not 0, and where that of an integer is no small integer.
    pub fn from_parts(kind: u8, number: u32) -> Option<Value>
        ensures made { result ≡ value_of kind number }
        ensures back { ReadBack }
    {
        of_kind(kind, number)
    }
}

// A value whose number field is 0.
fn plain(v: Value, number: u32) -> Option<Value>
    ensures { result ≡ plain_of v number }
{
    (number == 0).then_some(v)
}

// The value of a kind, by the rule of that kind.
fn of_kind(kind: u8, number: u32) -> Option<Value>
    ensures { result ≡ value_of kind number }
{
    match kind {
        0 => plain(Value::Nil, number),
        1 => plain(Value::True, number),
        2 => plain(Value::False, number),
        3 => Value::try_from(i64::from(number.cast_signed())).ok(),
        4 => Some(Value::Object(number)),
        5 => Some(Value::Block(number)),
        6 => Some(Value::Closure(number)),
        _ => None,
    }
}

impl TryFrom<i64> for Value {
    type Error = Unknown<i64>;

    ghost try_from_gives = { λ n r. r ≡ ok_or (integer n) (record { 0 = n }) };

    /// The small integer that n is, as a value. Any other n comes back in the error.
    fn try_from(n: i64) -> Result<Value, Unknown<i64>> {
        Ok(Value::Integer(SmallInteger::try_from(n)?))
    }
}

impl From<bool> for Value {
    ghost from_gives = { λ b v. v ≡ truth b };

    /// True or false, as a value.
    fn from(b: bool) -> Value {
        if b { Value::True } else { Value::False }
    }
}

impl fmt::Display for Value {
    ghost output = { λ v. Some (value_text v) };

    /// Its kind, and the number that it holds.
    fn fmt<W: fmt::Write>(&self, f: &mut fmt::Formatter<W>) -> fmt::Result {
        match *self {
            Value::Nil => write!(f, "nil"),
            Value::True => write!(f, "true"),
            Value::False => write!(f, "false"),
            Value::Integer(s) => {
                let n = i32::from(s);
                write!(f, "integer {n}")
            }
            Value::Object(n) => write!(f, "object {n}"),
            Value::Block(n) => write!(f, "block {n}"),
            Value::Closure(n) => write!(f, "closure {n}"),
        }
    }
}
