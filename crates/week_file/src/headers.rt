// The first eight bytes of a week file, and where they say that rows and cells begin. In each
// number the most significant byte comes first.
ghost use Rattle.std.specs.Prelude.{◌≡◌, ◌^◌, ◌<◌, length, if◌then◌else◌, Some, None, nat_lt};
ghost use Rattle.week_file.specs.Headers.{file_header, header_count, header_start};
ghost use Rattle.week_file.specs.Files.{place_in};

use crate::cells::CELL_BYTES;
use hosts::Row;
use values::{Fault, Rule};

/// How many bytes the header takes.
pub(crate) const HEADER_BYTES: usize = 8;

/// The two counts, and the object number of the receiver.
#[derive(Clone, Copy)]
pub(crate) struct FileHeader {
    pub(crate) variables: u16,
    pub(crate) bindings: u16,
    pub(crate) receiver: u32,
}

impl FileHeader {
    /// The header, if the bytes are as many as it takes.
    pub(crate) fn read(bytes: &[u8]) -> Option<FileHeader>
        ensures { result ≡ (if nat_lt (length bytes.now) HEADER_BYTES then None
            else Some (file_header bytes.now)) }
    {
        let [v, w, x, y, a, b, c, d, ..] = bytes else {
            return None;
        };
        Some(FileHeader {
            variables: u16::from_be_bytes([*v, *w]),
            bindings: u16::from_be_bytes([*x, *y]),
            receiver: u32::from_be_bytes([*a, *b, *c, *d]),
        })
    }

    /// How many cells a row has.
    pub(crate) fn count(self, row: Row) -> usize
        ensures value { result ≡ header_count self row }
        ensures fits { result < 2 ^ 16 }
    {
        match row {
            Row::Variables => usize::from(self.variables),
            Row::Bindings => usize::from(self.bindings),
        }
    }

    // Where a row begins: the variables after the header, and the bindings after the variables.
    fn start(self, row: Row) -> usize
        ensures value { result ≡ header_start self row }
        ensures fits { result < 2 ^ 20 }
    {
        match row {
            Row::Variables => HEADER_BYTES,
            Row::Bindings => HEADER_BYTES + CELL_BYTES * usize::from(self.variables),
        }
    }

    /// Where cell i of a row begins. Fault 29 at i where the row has no such cell.
    pub(crate) fn place(self, row: Row, i: usize) -> Result<usize, Fault>
        ensures { result ≡ place_in (header_start self row) (header_count self row) i }
    {
        if i >= self.count(row) {
            return Err(Rule::CellMissing.at(i));
        }
        Ok(self.start(row) + CELL_BYTES * i)
    }
}
