// A small week file, hosts over bytes, and integers to put into them.
ghost use Rattle.std.specs.Prelude.{◌≡◌, IfOk};
ghost use Rattle.samples.specs.Weeks.{small_week, IntegerOf};

use arithmetic::Arithmetic;
use std::alloc::{AllocError, Global};
use values::{SmallInteger, Value};
use week_file::WeekFile;

/// One variable, which is open, -7; two bindings, object 100, trusted, and true, open; the receiver
/// is object 42.
pub const SMALL_WEEK: [u8; 26] = [
    0, 1, 0, 2, 0, 0, 0, 42, 0, 3, 255, 255, 255, 249, 1, 4, 0, 0, 0, 100, 0, 1, 0, 0, 0, 0,
];

/// A host over a copy of these bytes, with arithmetic. An error only where memory runs out.
pub fn over_bytes(heap: Global, bytes: &[u8]) -> Result<Arithmetic<WeekFile>, AllocError>
    ensures { IfOk result (λ h. h.below.bytes.items ≡ bytes.now) }
{
    Ok(Arithmetic::new(WeekFile::open(bytes.to_vec(heap)?)))
}

/// A host over `SMALL_WEEK`, with arithmetic. An error only where memory runs out.
pub fn over_file(heap: Global) -> Result<Arithmetic<WeekFile>, AllocError>
    ensures { IfOk result (λ h. h.below.bytes.items ≡ small_week) }
{
    over_bytes(heap, &SMALL_WEEK)
}

/// The small integer of the low 31 bits of n, as a value.
pub fn int(n: i32) -> Value
    ensures { IntegerOf n result }
{
    Value::Integer(SmallInteger::new(n))
}
