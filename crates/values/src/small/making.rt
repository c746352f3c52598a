// Small integers out of numbers, and back.
ghost use Rattle.std.specs.Prelude.{◌≡◌};
ghost use Rattle.std.specs.Option.{ok_or};
ghost use Rattle.values.specs.Low.{low31};
ghost use Rattle.values.specs.Small.{small};

use super::SmallInteger;
use crate::unknown::Unknown;

impl SmallInteger {
    /// The low 31 bits of n, signed: the highest bit of n does not count, and of the others the
    /// highest is the sign.
    pub fn new(n: i32) -> SmallInteger
        ensures { result.value ≡ low31 n }
    {
        let low = (n.cast_unsigned() % 0x8000_0000) as i32;
        if low < 0x4000_0000 {
            SmallInteger { value: low }
        } else {
            SmallInteger {
                value: low - 0x4000_0000 - 0x4000_0000,
            }
        }
    }
}

impl TryFrom<i64> for SmallInteger {
    type Error = Unknown<i64>;

    ghost try_from_gives = { λ n r. r ≡ ok_or (small n) (record { 0 = n }) };

    /// The small integer that n is. Any other n comes back in the error.
    fn try_from(n: i64) -> Result<SmallInteger, Unknown<i64>> {
        if -0x4000_0000 <= n && n < 0x4000_0000 {
            Ok(SmallInteger { value: n as i32 })
        } else {
            Err(Unknown(n))
        }
    }
}

impl From<SmallInteger> for i64 {
    ghost from_gives = { λ s n. n ≡ s.value };

    /// The number itself, in twice the width: any sum or product of two fits.
    fn from(s: SmallInteger) -> i64 {
        i64::from(s.value)
    }
}

impl From<SmallInteger> for i32 {
    ghost from_gives = { λ s n. n ≡ s.value };

    /// The number itself.
    fn from(s: SmallInteger) -> i32 {
        s.value
    }
}
