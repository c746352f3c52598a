// The file itself, as a host.
ghost use Rattle.std.specs.Prelude.{◌≡◌, length};
ghost use Rattle.std.proofs.Common.{ap, arith};
ghost use Rattle.hosts.specs.Meaning.{row_of, with_cell, place_of, Answered};
ghost use Rattle.hosts.specs.Sending.{sent};
ghost use Rattle.week_file.specs.Cells.{AreBytes, written};
ghost use Rattle.values.specs.Order.{unless};
ghost use Rattle.week_file.specs.Files.{why_refused, judged_header, week_meaning, CellAt, Replied};
ghost use Rattle.week_file.specs.Rows.{place_at, filed_in, cell_written};
ghost use Rattle.week_file.specs.Laws.{AcceptsExactly, WritesReadBack, OneReadsBack, MeaningSettlesBytes, RefusalStays};
ghost use Rattle.hosts.proofs.Cells.{kept_same};
ghost use Rattle.week_file.specs.Counts.{few_rows};

use crate::cells::{FileCell, write_value};
use crate::headers::FileHeader;
use crate::opening::checked_header;
use crate::replies::reply;
use hosts::{Host, Message, Row};
use values::{Fault, Rule, Value};

/// A host over the bytes of a week file: it reads and writes the bytes themselves. Over bytes that
/// `check_file` refuses, the receiver is nil and there are no cells.
#[derive(Drop)]
pub struct WeekFile {
    bytes: Vec<u8>,
    header: Result<FileHeader, Fault>,
    ghost fit: { AreBytes bytes.items },
    ghost known: { header ≡ judged_header bytes.items },
}

impl WeekFile {
    /// A host over these bytes, whatever they are. Its receiver is the object that the header
    /// names, and its cells are those of the file. Over bytes that `check_file` refuses, its
    /// receiver is nil and it has no cells; `refusal` says why.
    pub fn open(bytes: Vec<u8>) -> WeekFile
        ensures holds { result.bytes ≡ bytes }
        ensures accepts { AcceptsExactly }
        ensures reads_back { WritesReadBack }
        ensures one { OneReadsBack }
        ensures settles { MeaningSettlesBytes }
    {
        let header = checked_header(&bytes);
        WeekFile { bytes, header }
    }

    /// Why the bytes are no week file, if they are none: the fault that `check_file` answers for
    /// them, kept from opening. Writes and messages leave this answer: those to an accepted file
    /// keep it accepted, and a refused file has no cells to write to.
    pub fn refusal(&self) -> Result<(), Fault>
        ensures why { result ≡ unless (why_refused self.now.bytes.items) tt }
        ensures stays { RefusalStays }
    {
        self.header.and(Ok(()))
    }

    /// The bytes, with all that was written.
    pub fn into_bytes(self) -> Vec<u8>
        ensures { result ≡ self.bytes }
    {
        self.bytes
    }

    // Where cell i of a row begins.
    fn cell_place(&self, row: Row, i: usize) -> Result<usize, Fault>
        ensures { result ≡ place_at self.now.bytes.items row i }
    {
        let Ok(header) = self.header else {
            return Err(Rule::CellMissing.at(i));
        };
        header.place(row, i)
    }

    // Cell i of a row.
    fn cell(&self, row: Row, i: usize) -> Result<FileCell, Fault>
        ensures { result ≡ filed_in self.now.bytes.items row i }
    {
        let place = self.cell_place(row, i)?;
        let bytes = &self.bytes[place..];
        Ok(FileCell::read(bytes.first_chunk().unwrap()).unwrap())
    }

    // Writes v into the cell that begins at `place`.
    fn put(&mut self, place: usize, v: Value)
        requires { CellAt self.old.bytes.items place }
        ensures { self.new.bytes.items ≡ written self.old.bytes.items place v }
    {
        write_value(&mut self.bytes, place, v);
    }
}

impl Host for WeekFile {
    ghost means = { λ s. week_meaning s.bytes.items };

    ghost may = { λ s m v t. Replied s.bytes.items m v t.bytes.items };

    ghost kept = { λ s t m v h. kept_same _ _ (ap week_meaning h.1) };

    ghost few = { λ s row. few_rows s.bytes.items row };

    fn receiver(&self) -> Value {
        self.header
            .map_or(Value::Nil, |header| Value::Object(header.receiver))
    }

    #[tactic(auto, using(crate::specs::Counts::length_good))]
    fn count(&self, row: Row) -> usize {
        self.header.map_or(0, |header| header.count(row))
    }

    #[tactic(auto, using(crate::proofs::Asking::mark_filed))]
    fn trusted(&self, row: Row, i: usize) -> Result<bool, Fault> {
        Ok(self.cell(row, i)?.trusted)
    }

    #[tactic(auto, using(crate::proofs::Asking::value_filed))]
    fn value(&self, row: Row, i: usize) -> Result<Value, Fault> {
        Ok(self.cell(row, i)?.value)
    }

    #[tactic(auto, using(crate::proofs::Asking::place_filed, crate::proofs::Asking::put_at))]
    fn set_value(&mut self, row: Row, i: usize, v: Value) -> Result<(), Fault>
        ensures answer { result ≡ place_of (row_of (week_meaning self.old.bytes.items) row) i }
        ensures after { week_meaning self.new.bytes.items
            ≡ with_cell (week_meaning self.old.bytes.items) row i v }
        ensures writes { self.new.bytes.items ≡ cell_written self.old.bytes.items row i v }
    {
        let place = self.cell_place(row, i)?;
        self.put(place, v);
        Ok(())
    }

    fn send(&mut self, m: &Message) -> Option<Value>
        ensures answer { Answered week_meaning Replied self.old.bytes.items (sent m.now) result
            self.new.bytes.items }
        ensures keeps { self.new.bytes.items ≡ self.old.bytes.items }
    {
        reply(m)
    }
}
