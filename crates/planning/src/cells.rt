// The cells of a host, a line for each.
ghost use Rattle.std.specs.Prelude.{◌≡◌};
ghost use Rattle.std.specs.Option.{option_map};
ghost use Rattle.std.specs.List.{slice_get};
ghost use Rattle.hosts.specs.Meaning.{row_of};
ghost use Rattle.planning.specs.Rows.{cell_line};

use crate::texts::CellText;
use hosts::{Host, Row};
use std::io;

// Cell i of a row of a host, if there is one.
pub fn cell_text<H: Host>(host: &H, row: Row, i: usize) -> Option<CellText>
    ensures { result ≡ option_map (cell_line row i) (slice_get (row_of (H.means host.now) row) i) }
{
    let trusted = host.trusted(row, i).ok()?;
    let value = host.value(row, i).ok()?;
    Some(CellText {
        row,
        number: i,
        trusted,
        value,
    })
}

// Prints the cells of a row, by number, since a host answers by number alone.
fn print_row<H: Host>(rt: &impl Print, host: &H, row: Row) -> io::Result<()> {
    for i in 0..host.count(row) {
        if let Some(text) = cell_text(host, row, i) {
            println!(rt; "{text}")?;
        }
    }
    Ok(())
}

// Prints the variables, and then the bindings.
pub fn print_cells<H: Host>(rt: &impl Print, host: &H) -> io::Result<()> {
    print_row(rt, host, Row::Variables)?;
    print_row(rt, host, Row::Bindings)
}
