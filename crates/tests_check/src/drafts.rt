// Parcels in parts, and their bytes.
use samples::{Entry, parcel_bytes};
use std::alloc::{AllocError, Global};

// The flags of a method with 4 slots, and no arguments or locals.
pub const FOUR_SLOTS: u32 = 32;

// The flags of a block with 4 slots, no arguments or locals, and chain use 0.
pub const BLOCK_SLOTS: u32 = 16384;

// A parcel in parts. Its kind is the byte of the format.
#[derive(Clone, Copy)]
pub struct Draft<'a> {
    pub kind: u8,
    pub flags: u32,
    pub literals: &'a [Entry],
    pub code: &'a [u8],
}

// A method with 4 slots and nothing else but its code.
pub fn method(code: &[u8]) -> Draft<'_> {
    Draft {
        kind: 0,
        flags: FOUR_SLOTS,
        literals: &[],
        code,
    }
}

// The same with literals.
pub fn with_literals<'a>(literals: &'a [Entry], code: &'a [u8]) -> Draft<'a> {
    Draft {
        literals,
        ..method(code)
    }
}

// The same with other flags.
pub fn with_flags(flags: u32, code: &[u8]) -> Draft<'_> {
    Draft {
        flags,
        ..method(code)
    }
}

// A block with these flags.
pub fn block_with(flags: u32, code: &[u8]) -> Draft<'_> {
    Draft {
        kind: 1,
        flags,
        ..method(code)
    }
}

// A block with 4 slots and a chain use.
pub fn block(chain: u8, code: &[u8]) -> Draft<'_> {
    block_with(BLOCK_SLOTS + chain as u32, code)
}

impl Draft<'_> {
    // The bytes of the parcel.
    pub fn bytes(self, heap: Global) -> Result<Vec<u8>, AllocError> {
        parcel_bytes(heap, self.kind, self.flags, self.literals, self.code)
    }
}

// So many pairs of an opcode with argument byte 0, and then more code.
pub fn repeated(
    heap: Global,
    opcode: u8,
    count: usize,
    then: &[u8],
) -> Result<Vec<u8>, AllocError> {
    let mut code = Vec::new(heap);
    for _ in 0..count {
        code.extend_from_slice(&[opcode, 0])?;
    }
    code.extend_from_slice(then)?;
    Ok(code)
}
