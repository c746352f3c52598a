// The interface of a host, and what a host means.
ghost use Rattle.std.specs.Prelude.{◌≡◌, ◌≤◌, length};
ghost use Rattle.values.specs.declared.kinds.Value.{Value};
ghost use Rattle.hosts.specs.Meaning.{Meaning, Sent, Kept, row_of, with_cell, mark_of, value_at, place_of, Answered};
ghost use Rattle.hosts.specs.Sending.{sent};
ghost use Rattle.hosts.specs.declared.rows.Row.{Row};
ghost use Rattle.hosts.specs.declared.rows.TheConstants.{MAX_CELLS};

use crate::messages::Message;
use crate::rows::Row;
use values::{Fault, Value};

/// What a parcel is checked over and runs on: a receiver, two rows of cells, and answers to
/// messages.
pub trait Host {
    // The receiver, the cells and the yes or no to every message.
    ghost means: { Self → Meaning };

    // Which answer, with which host afterwards, may come of a message that is understood.
    ghost may: { Self → Sent → Value → Self → Type 0 };

    /// The value that methods run for.
    fn receiver(&self) -> Value
        ensures { result ≡ (means self.now).receiver };

    /// How many cells a row has.
    fn count(&self, row: Row) -> usize
        ensures { result ≡ length (row_of (means self.now) row) };

    /// Whether cell i of a row is trusted. A number at or above the count is fault 29 at that
    /// number.
    fn trusted(&self, row: Row, i: usize) -> Result<bool, Fault>
        ensures { result ≡ mark_of (row_of (means self.now) row) i };

    /// The value of cell i of a row. A number at or above the count is fault 29 at that number.
    fn value(&self, row: Row, i: usize) -> Result<Value, Fault>
        ensures { result ≡ value_at (row_of (means self.now) row) i };

    /// Sets the value of cell i of a row alone, trusted or not. A number at or above the count is
    /// fault 29 at that number, and alters nothing.
    fn set_value(&mut self, row: Row, i: usize, v: Value) -> Result<(), Fault>
        ensures answer { result ≡ place_of (row_of (means self.old) row) i }
        ensures after { means self.new ≡ with_cell (means self.old) row i v };

    /// Sends m once, and answers what comes of it. None says that m is not understood, and that
    /// nothing is altered.
    fn send(&mut self, m: &Message) -> Option<Value>
        ensures { Answered means may self.old (sent m.now) result self.new };

    // What may come of a message alters the values of open cells alone.
    ghost kept: { (s t : Self) (m : Sent) (v : Value) → may s m v t → Kept (means s) (means t) };

    // Neither row has more cells than MAX_CELLS.
    ghost few: { (s : Self) (row : Row) → length (row_of (means s) row) ≤ MAX_CELLS };
}
