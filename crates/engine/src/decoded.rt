// A decoded instruction, and what comes of performing it.
ghost use Rattle.std.specs.Prelude.{◌≡◌, ◌≤◌, true};
ghost use Rattle.parcels.specs.Layouts.{limit_of};
ghost use Rattle.parcels.specs.Opcodes.{effect_of, after, flow_of};
ghost use Rattle.parcels.specs.Parts.{parts};
ghost use Rattle.stages.specs.Encoding.{landing_fits};
ghost use Rattle.stages.specs.Operands.{operand_fits};

use parcels::{Ending, Instruction, Operation, Parcel};
use semantics::Stop;
use values::Value;

/// An instruction of an accepted parcel at the place of a run: its operation, the following place
/// and the run's height. The ghost fields are what acceptance gives of it; the rule on its operand
/// speaks of the count of variables that the parcel was accepted with.
#[derive(Clone, Copy)]
pub struct Decoded<'a> {
    pub parcel: Parcel<'a>,
    pub variable_count: usize,
    pub instruction: Instruction,
    pub operation: Operation,
    pub next: usize,
    pub height: usize,
    ghost operand: { operand_fits (parts parcel) variable_count instruction.argument operation
        ≡ true },
    ghost lands: { landing_fits parcel.code.now next instruction.argument (flow_of operation)
        ≡ true },
    ghost need: { (effect_of operation instruction).takes ≤ height },
    ghost within: { after (effect_of operation instruction) height ≤ limit_of parcel.layout },
    ghost low: { height ≤ limit_of parcel.layout },
    ghost locals: { parcel.layout.local_count ≤ parcel.layout.slot_count },
}

/// It continued at a place and a height, ended the run, or stopped it.
#[derive(Clone, Copy)]
pub enum StepResult {
    Continued { place: usize, height: usize },
    Ended { how: Ending, value: Value },
    Stopped(Stop),
}
