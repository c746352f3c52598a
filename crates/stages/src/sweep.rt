// The encoding stage: the instructions in turn.
ghost use Rattle.std.specs.Prelude.{◌≡◌, ◌%◌, ◌<◌, false, length, OnOk};
ghost use Rattle.parcels.specs.declared.reading.TheConstants.{PAIR_BYTES};
ghost use Rattle.stages.specs.Contexts.{context_of};
ghost use Rattle.stages.specs.Sweep.{pushes_block, swept, encoding_fault};
ghost use Rattle.values.specs.Order.{unless};

use crate::contexts::Context;
use crate::encoding::{Site, is_block};
use hosts::Host;
use parcels::{Instruction, Operation, PAIR_BYTES, Reader, Source, literal_at};
use values::{Fault, Rule};

// Whether an instruction pushes a block.
fn pushes_block(literals: &[u8], instruction: Instruction) -> bool
    ensures { result ≡ pushes_block literals.now instruction }
{
    matches!(
        Operation::try_from(instruction.opcode),
        Ok(Operation::Push(Source::Literal))
    ) && is_block(literal_at(literals, instruction.argument))
}

impl<H: Host> Context<'_, H> {
    // Checks the rules of the instructions in turn.
    fn sweep(&self) -> Result<(), Fault>
        ensures { result
            ≡ unless
            (swept (context_of H.means self.now) (length self.now.parcel.code.now) false 0) tt }
    {
        let mut reader = Reader::at(self.parcel.code, 0);
        let mut after_block = false;
        while reader.place < self.parcel.code.len() {
            let place = reader.place;
            let (instruction, _) = reader.advance().map_err(|e| Rule::from(e).at(place))?;
            self.check_site(Site {
                place,
                instruction,
                next: reader.place,
                after_block,
            })?;
            after_block = pushes_block(self.parcel.literals, instruction);
        }
        Ok(())
    }

    // Checks the rules of the encoding stage, in order.
    pub fn check_encoding(&self) -> Result<(), Fault>
        ensures some { OnOk result (0 < length self.now.parcel.code.now) }
        ensures whole { OnOk result (length self.now.parcel.code.now % PAIR_BYTES ≡ 0) }
        ensures answer { result ≡ unless (encoding_fault (context_of H.means self.now)) tt }
    {
        let length = self.parcel.code.len();
        if length == 0 {
            return Err(Rule::CodeCut.at(0));
        }
        if length % PAIR_BYTES == 1 {
            return Err(Rule::CodeCut.at(length - 1));
        }
        self.sweep()
    }
}
