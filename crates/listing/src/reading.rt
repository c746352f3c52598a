// As much of an input as its verdict needs.
ghost use Rattle.std.specs.Prelude.{◌≡◌, ◌+◌, take, IfSome, IfOk};
ghost use Rattle.listing.specs.Listed.{SameVerdict};

use parcels::{HEADER_BYTES, LITERAL_BYTES, MAX_CODE, MAX_LITERALS};
use std::alloc::Global;
use std::io::{self, Read};

/// The length of the longest parcel, in bytes.
pub const MAX_PARCEL: usize = HEADER_BYTES
    + LITERAL_BYTES * MAX_LITERALS as usize
    + MAX_CODE as usize;

/// Reads a parcel to the end of an input, or as far as one byte beyond the longest parcel, since
/// every longer input has the verdict of these bytes. An error says that the input could not be
/// read or that memory ran out.
pub fn read_parcel<R: Read + Drop>(heap: Global, input: R) -> io::Result<Vec<u8>>
    ensures cut { IfOk result (λ v. IfSome (R.remaining input) (λ all.
        v.items ≡ take (MAX_PARCEL + 1) all)) }
    ensures settles { IfOk result (λ v. IfSome (R.remaining input) (λ all.
        SameVerdict v.items all)) }
{
    let mut parcel = Vec::new(heap);
    input.take(MAX_PARCEL as u64 + 1).read_to_end(&mut parcel)?;
    Ok(parcel)
}
