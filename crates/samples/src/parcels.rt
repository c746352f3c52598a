// The bytes of a parcel.
ghost use Rattle.std.specs.Prelude.{◌≡◌, length, IfOk};
ghost use Rattle.samples.specs.Parcels.{parcel_of, two_bytes};

use std::alloc::{AllocError, Global};

/// The six bytes of a literal, or of a cell of a week file.
pub type Entry = [u8; 6];

/// The literal nil; also an open cell that holds nil.
pub const NIL: Entry = [0, 0, 0, 0, 0, 0];

/// The literal that is object 9.
pub const OBJECT: Entry = [0, 4, 0, 0, 0, 9];

/// The literal that is block 9.
pub const BLOCK: Entry = [0, 5, 0, 0, 0, 9];

/// The literal that is selector 20, which takes no argument.
pub const UNARY: Entry = [0, 7, 0, 0, 0, 20];

/// The literal that is selector 300, which takes two arguments.
pub const KEYWORD: Entry = [2, 7, 0, 0, 1, 44];

/// The literal that names binding 0.
pub const BINDING_0: Entry = [0, 8, 0, 0, 0, 0];

/// The literal that names binding 1.
pub const BINDING_1: Entry = [0, 8, 0, 0, 0, 1];

/// The literal that names binding 2.
pub const BINDING_2: Entry = [0, 8, 0, 0, 0, 2];

// The low two bytes of a number.
fn two_bytes(n: usize) -> [u8; 2]
    ensures { result ≡ two_bytes n }
{
    ((n % 0x1_0000) as u16).to_be_bytes()
}

/// The bytes of a parcel of a kind, with flags, literals and code. The kind is the byte of the
/// format: 0 is a method, 1 a block. Of more than 65,535 literals or bytes of code, the counts in
/// the header have the low 16 bits. An error only where memory runs out.
pub fn parcel_bytes(
    heap: Global,
    kind: u8,
    flags: u32,
    literals: &[Entry],
    code: &[u8],
) -> Result<Vec<u8>, AllocError>
    ensures { IfOk result (λ v. v.items ≡ parcel_of kind flags literals.now code.now) }
{
    let mut bytes = Vec::new(heap);
    bytes.extend_from_slice(&[0, kind])?;
    bytes.extend_from_slice(&two_bytes(literals.len()))?;
    bytes.extend_from_slice(&flags.to_be_bytes())?;
    bytes.extend_from_slice(&two_bytes(code.len()))?;
    bytes.extend_from_slice(literals.as_flattened())?;
    bytes.extend_from_slice(code)?;
    Ok(bytes)
}
