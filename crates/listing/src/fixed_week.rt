// A week file that is always the same.
ghost use Rattle.std.specs.Prelude.{◌≡◌};
ghost use Rattle.listing.specs.Listed.{fixed_week, listed};

use crate::listed::verdict_of;
use crate::verdicts::Verdict;
use std::alloc::{AllocError, Global};
use week_file::WeekFile;

// Four variables and two bindings, all nil, and receiver object 0; variable 3 and binding 1 are
// trusted.
const FIXED_WEEK: [u8; 44] = [
    0, 4, 0, 2, 0, 0, 0, 0, 0, 0, 0, 0, 0, 0, 0, 0, 0, 0, 0, 0, 0, 0, 0, 0, 0, 0, 1, 0, 0, 0, 0, 0,
    0, 0, 0, 0, 0, 0, 1, 0, 0, 0, 0, 0,
];

/// The fixed week file: four variables and two bindings, all nil, of which variable 3 and binding 1
/// are trusted, and receiver object 0.
#[derive(Drop)]
pub struct FixedWeek {
    file: WeekFile,
    ghost known: { file.bytes.items ≡ fixed_week },
}

impl FixedWeek {
    /// A host over the file. It takes memory for the bytes, and an error says that there was none.
    pub fn new(heap: Global) -> Result<FixedWeek, AllocError> {
        let file = WeekFile::open(FIXED_WEEK.to_vec(heap)?);
        Ok(FixedWeek { file })
    }

    /// The verdict on an untrusted parcel over the file. It asks for no memory.
    pub fn verdict(&self, parcel: &[u8]) -> Verdict
        ensures { result ≡ listed parcel.now }
    {
        verdict_of(&self.file, parcel, false)
    }
}
