// Why bytes are no week file.
ghost use Rattle.std.specs.Prelude.{◌≡◌, ◌-◌, ◌/◌, ◌≤◌, length, position};
ghost use Rattle.values.specs.Order.{first, unless};
ghost use Rattle.week_file.specs.Cells.{breaks_rules};
ghost use Rattle.week_file.specs.Files.{cell_tests, why_refused, judged_header};
ghost use Rattle.week_file.specs.Numbers.{FileNumbers};

use crate::cells::{CELL_BYTES, breaks_rules};
use crate::headers::{FileHeader, HEADER_BYTES};
use hosts::{MAX_CELLS, Row};
use values::{Fault, Rule};

// The number of the first cell that breaks its rules, if one does.
fn first_wrong_cell(cells: &[[u8; CELL_BYTES]]) -> Option<usize>
    ensures { result ≡ position breaks_rules cells.now }
{
    cells.iter().position(breaks_rules)
}

// Refuses the first cell that breaks its rules, if one does.
fn check_cells(bytes: &[u8]) -> Result<(), Fault>
    requires { HEADER_BYTES ≤ length bytes.now }
    ensures { let count = (length bytes.now - HEADER_BYTES) / CELL_BYTES in
        result ≡ unless (first (cell_tests bytes.now HEADER_BYTES count)) tt }
{
    let (cells, _) = bytes[HEADER_BYTES..].as_chunks();
    match first_wrong_cell(cells) {
        Some(k) => Err(Rule::CellWrong.at(HEADER_BYTES + CELL_BYTES * k)),
        None => Ok(()),
    }
}

/// The header of bytes that break no rule; otherwise the first rule that they break.
pub(crate) fn checked_header(bytes: &[u8]) -> Result<FileHeader, Fault>
    ensures { result ≡ judged_header bytes.now }
{
    let header = FileHeader::read(bytes).ok_or(Rule::FileShort.at(0))?;
    let variables = header.count(Row::Variables);
    let bindings = header.count(Row::Bindings);
    if variables > MAX_CELLS {
        return Err(Rule::CellsTooMany.at(0));
    }
    if bindings > MAX_CELLS {
        return Err(Rule::CellsTooMany.at(2));
    }
    if bytes.len() != HEADER_BYTES + CELL_BYTES * (variables + bindings) {
        return Err(Rule::FileLength.at(0));
    }
    check_cells(bytes)?;
    Ok(header)
}

/// Whether these bytes are a week file. They are refused by the first of these faults that applies:
/// - 30 at 0: there are fewer than 8 bytes, which a header takes;
/// - 31 at 0: there are more variables than `MAX_CELLS` of `hosts`;
/// - 31 at 2: there are more bindings than that;
/// - 32 at 0: the file does not end exactly with its last cell;
/// - 34 where a cell begins: it breaks the rules of a cell, and is the first that does. Its mark is
///   neither 0 nor 1, its kind is above 6, or its number field does not suit its kind.
pub fn check_file(bytes: &[u8]) -> Result<(), Fault>
    ensures answer { result ≡ unless (why_refused bytes.now) tt }
    ensures numbers { FileNumbers }
{
    checked_header(bytes)?;
    Ok(())
}
