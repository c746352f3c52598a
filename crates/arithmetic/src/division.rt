// Division that rounds down.
ghost use Rattle.std.specs.Prelude.{◌≡◌, pos, FitsSigned, ◌≢◌};
ghost use Rattle.std.specs.Int.{w32};
ghost use Rattle.arithmetic.specs.Division.{floor_quotient, floor_remainder};

/// The quotient of a by b, rounded down.
pub(crate) fn floor_quotient(a: i64, b: i64) -> i64
    requires nonzero { b ≢ pos 0 }
    requires dividend { FitsSigned w32 a }
    requires divisor { FitsSigned w32 b }
    ensures { result ≡ floor_quotient a b }
{
    if 0 < b {
        a.div_euclid(b)
    } else {
        (-a).div_euclid(-b)
    }
}

/// What is left of a then; it is 0 or has the sign of b.
pub(crate) fn floor_remainder(a: i64, b: i64) -> i64
    requires nonzero { b ≢ pos 0 }
    requires dividend { FitsSigned w32 a }
    requires divisor { FitsSigned w32 b }
    ensures { result ≡ floor_remainder a b }
{
    if 0 < b {
        a.rem_euclid(b)
    } else {
        -(-a).rem_euclid(-b)
    }
}
