// One cell of a week file: a mark byte, a kind byte and a number field of four bytes, the most
// significant one first.
ghost use Rattle.std.specs.Prelude.{◌≡◌, ◌+◌, ◌≤◌, length};
ghost use Rattle.week_file.specs.Cells.{AreBytes, raw_at, trusted_by, stored, breaks_rules, written};

use values::Value;

/// How many bytes a cell takes.
pub(crate) const CELL_BYTES: usize = 6;

/// The mark of an open cell.
const OPEN: u8 = 0;

/// The mark of a trusted cell.
const TRUSTED: u8 = 1;

// Whether a cell with this mark is trusted, if it is a mark.
fn trusted_by(mark: u8) -> Option<bool>
    ensures { result ≡ trusted_by mark }
{
    match mark {
        OPEN => Some(false),
        TRUSTED => Some(true),
        _ => None,
    }
}

/// A cell of a file: whether it is trusted, and its value.
#[derive(Clone, Copy)]
pub(crate) struct FileCell {
    pub(crate) trusted: bool,
    pub(crate) value: Value,
}

impl FileCell {
    /// The cell in these six bytes, if they keep the rules of a cell.
    pub(crate) fn read(cell: &[u8; CELL_BYTES]) -> Option<FileCell>
        ensures { result ≡ stored (raw_at cell.now 0) }
    {
        let [mark, kind, a, b, c, d] = *cell;
        let trusted = trusted_by(mark)?;
        let value = Value::from_parts(kind, u32::from_be_bytes([a, b, c, d]))?;
        Some(FileCell { trusted, value })
    }
}

/// Whether these six bytes break the rules of a cell.
pub(crate) fn breaks_rules(cell: &[u8; CELL_BYTES]) -> bool
    ensures { result ≡ breaks_rules cell.now }
{
    FileCell::read(cell).is_none()
}

/// Writes v into the cell that begins at `place` of a file, and leaves its mark.
pub(crate) fn write_value(bytes: &mut [u8], place: usize, v: Value)
    requires { place + CELL_BYTES ≤ length bytes.old }
    ensures written { bytes.new ≡ written bytes.old place v }
    ensures fit { AreBytes bytes.new }
{
    let [a, b, c, d] = v.number().to_be_bytes();
    bytes[place + 1..place + CELL_BYTES].copy_from_slice(&[v.kind(), a, b, c, d]);
}
