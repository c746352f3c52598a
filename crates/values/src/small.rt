// A small integer: 31 bits, signed. What makes one stands in `making`.
ghost use Rattle.std.specs.Prelude.{◌^◌, ◌-◌, pos, negsuc, ◌≤ℤ◌, ◌<ℤ◌};

mod making;

/// An integer from -1,073,741,824, which is -2 ^ 30, to 1,073,741,823.
#[derive(Clone, Copy, PartialEq, Eq, Debug)]
pub struct SmallInteger {
    value: i32,
    ghost low: { negsuc (2 ^ 30 - 1) ≤ℤ value },
    ghost high: { value <ℤ pos (2 ^ 30) },
}
