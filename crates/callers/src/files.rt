// What a caller can rely on of a host's counts, and of a week file that a run steps over.
ghost use Rattle.std.specs.Prelude.{◌≡◌, ◌≤◌, IsTrue, length};
ghost use Rattle.hosts.specs.Meaning.{row_of};
ghost use Rattle.week_file.specs.Files.{accepted};
ghost use Rattle.engine.specs.View.{view};
ghost use Rattle.callers.specs.Files.{StoresInNoRow};

use engine::Run;
use hosts::{Host, Row};
use values::Value;
use week_file::WeekFile;

/// How many cells a row has, in 16 bits.
pub fn short_count<H: Host>(host: &H, row: Row) -> u16
    ensures value { result ≡ length (row_of (H.means host.now) row) }
    ensures most { result ≤ 1024 }
{
    host.count(row) as u16
}

/// The bytes of a week file after a step over it. If it is accepted, a step that stores in no row
/// leaves every byte, whatever it sends.
pub fn stepped_file(run: &mut Run, bytes: Vec<u8>, frame: &mut [Value]) -> Vec<u8>
    ensures { IsTrue (accepted bytes.items) → StoresInNoRow (view run.old)
        → result.items ≡ bytes.items }
{
    let mut file = WeekFile::open(bytes);
    let _ = run.step(&mut file, frame);
    file.into_bytes()
}
