// A whole parcel, taken apart where it lies.
ghost use Rattle.std.specs.Prelude.{◌≡◌, ◌≤◌, length, IfOk};
ghost use Rattle.parcels.specs.Numbers.{FormatNumbers};
ghost use Rattle.parcels.specs.Parts.{parts_of, as_parts};
ghost use Rattle.parcels.specs.declared.layout.TheConstants.{MAX_CODE, MAX_SLOTS};

use crate::layout::{HEADER_BYTES, Layout};
use crate::literals::LITERAL_BYTES;
use values::Fault;

/// The layout of a parcel, with the bytes of its literals and its code.
#[derive(Clone, Copy)]
pub struct Parcel<'a> {
    pub layout: Layout,
    pub literals: &'a [u8],
    pub code: &'a [u8],
}

impl<'a> Parcel<'a> {
    /// The parts of a parcel, or the first rule of its header or its flags that it breaks.
    pub fn read(bytes: &'a [u8]) -> Result<Parcel<'a>, Fault>
        ensures answer { as_parts result ≡ parts_of bytes.now }
        ensures code { IfOk result (λ p. length p.code.now ≤ MAX_CODE) }
        ensures slots { IfOk result (λ p. p.layout.slot_count ≤ MAX_SLOTS) }
        ensures numbers { FormatNumbers }
    {
        let layout = Layout::read(bytes)?;
        let code_start = HEADER_BYTES + LITERAL_BYTES * layout.literal_count as usize;
        Ok(Parcel {
            layout,
            literals: &bytes[HEADER_BYTES..code_start],
            code: &bytes[code_start..],
        })
    }
}
