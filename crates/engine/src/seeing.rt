// What a caller may see of a run.
ghost use Rattle.std.specs.Prelude.{◌≡◌, Some, None, Ok, Err};
ghost use Rattle.parcels.specs.Reading.{read_at};
ghost use Rattle.engine.specs.View.{view};

use crate::runs::Run;
use parcels::Reader;
use semantics::State;

impl Run<'_> {
    /// The state.
    pub fn state(&self) -> State
        ensures { result ≡ (view self.now).state }
    {
        self.state
    }

    /// The place, in bytes of the code, of the next instruction, or of the one that ended or
    /// stopped the run.
    pub fn place(&self) -> usize
        ensures { result ≡ (view self.now).place }
    {
        self.place
    }

    /// How many working cells are in use.
    pub fn height(&self) -> usize
        ensures { result ≡ (view self.now).height }
    {
        self.height
    }

    /// The opcode of the instruction at the place, if there is one.
    pub fn opcode(&self) -> Option<u8>
        ensures { result ≡ elim (read_at (view self.now).parts.code (view self.now).place) [
          | Ok p ↦
              Some p.0.opcode
          | Err e ↦ None
        ] }
    {
        let mut reader = Reader::at(self.parcel.code, self.place);
        let (instruction, _) = reader.advance().ok()?;
        Some(instruction.opcode)
    }
}
