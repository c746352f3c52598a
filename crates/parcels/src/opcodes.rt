// What an opcode asks: the one place that knows the opcodes by number, but for the extension pair,
// which the reader knows.
ghost use Rattle.std.specs.Prelude.{◌≡◌};
ghost use Rattle.std.specs.Option.{ok_or};
ghost use Rattle.parcels.specs.Opcodes.{arity_of, operation_of, effect_of, flow_of, landing_of, successors_of};
ghost use Rattle.parcels.specs.Reading.{starts_at};

use crate::reading::{EXTENSION, Instruction, PAIR_BYTES};
use values::Unknown;

/// A pushed integer is below this.
pub const INTEGER_LIMIT: u32 = 536_870_912;

/// How many special values there are: nil, true and false, by numbers from 0 on.
pub const SPECIAL_COUNT: u32 = 3;

/// Where a pushed value comes from.
#[derive(Clone, Copy, PartialEq, Eq, Debug)]
pub enum Source {
    Cell,
    Binding,
    Variable,
    Integer,
    Special,
    Literal,
    Receiver,
}

/// Where a stored value goes.
#[derive(Clone, Copy, PartialEq, Eq, Debug)]
pub enum Target {
    Cell,
    Binding,
    Variable,
}

/// Which way a jump goes.
#[derive(Clone, Copy, PartialEq, Eq, Debug)]
pub enum Direction {
    Back,
    Forward,
}

/// How a run ends.
#[derive(Clone, Copy, PartialEq, Eq, Debug)]
pub enum Ending {
    MethodReturn,
    Return,
}

/// What an instruction does.
#[derive(Clone, Copy, PartialEq, Eq, Debug)]
pub enum Operation {
    Send,
    SendSelector { is_super: bool },
    Push(Source),
    Store(Target),
    Jump(Direction),
    Branch { when: bool },
    Pop,
    Duplicate,
    Close,
    End(Ending),
    Line,
}

/// How many working cells an instruction takes, and how many it leaves in their place. An operand
/// states up to 255 arguments of a selector, so that up to 256 cells are taken.
#[derive(Clone, Copy, PartialEq, Eq, Debug)]
pub struct Effect {
    pub takes: u16,
    pub leaves: u8,
}

/// Where a path goes on from an instruction: to the following place, to a landing place, to either,
/// or nowhere.
#[derive(Clone, Copy, PartialEq, Eq, Debug)]
pub enum Flow {
    Follows,
    Jumps(Direction),
    Branches,
    Ends,
}

// The argument counts of messages 0 to 24.
const ARGUMENT_COUNTS: [u8; 25] = [
    1, 1, 1, 1, 1, 1, 1, 1, 1, 1, 1, 1, 1, 1, 1, 1, 1, 2, 0, 0, 0, 0, 0, 1, 1,
];

/// The argument count of a message that an opcode or a run sends by its number; beyond the table,
/// as for the message to what must be Boolean, it is 0.
pub fn argument_count(message: u8) -> u8
    ensures { result ≡ arity_of message }
{
    ARGUMENT_COUNTS.get(message as usize).copied().unwrap_or(0)
}

impl TryFrom<u8> for Operation {
    type Error = Unknown<u8>;

    ghost try_from_gives = { λ op r. r ≡ ok_or (operation_of op) (record { 0 = op }) };

    // What an opcode does, if it is in the table.
    fn try_from(opcode: u8) -> Result<Operation, Unknown<u8>> {
        let operation = match opcode {
            0..=24 => Operation::Send,
            28 => Operation::SendSelector { is_super: false },
            29 => Operation::SendSelector { is_super: true },
            32 => Operation::Push(Source::Cell),
            34 => Operation::Push(Source::Binding),
            35 => Operation::Push(Source::Variable),
            36 => Operation::Store(Target::Cell),
            38 => Operation::Store(Target::Binding),
            39 => Operation::Store(Target::Variable),
            40 => Operation::Jump(Direction::Back),
            41 => Operation::Jump(Direction::Forward),
            42 => Operation::Branch { when: true },
            43 => Operation::Branch { when: false },
            44 => Operation::Push(Source::Integer),
            45 => Operation::Push(Source::Special),
            46 => Operation::Push(Source::Literal),
            48 => Operation::Pop,
            49 => Operation::Close,
            50 => Operation::End(Ending::MethodReturn),
            51 => Operation::End(Ending::Return),
            52 => Operation::Duplicate,
            54 => Operation::Line,
            56 => Operation::Push(Source::Receiver),
            _ => return Err(Unknown(opcode)),
        };
        Ok(operation)
    }
}

impl Operation {
    /// What an instruction takes and leaves: it needs the height that it takes.
    pub fn effect(self, instruction: Instruction) -> Effect
        ensures { result ≡ effect_of self instruction }
    {
        match self {
            Operation::Send => Effect {
                takes: argument_count(instruction.opcode) as u16 + 1,
                leaves: 1,
            },
            Operation::SendSelector { is_super: _ } => Effect {
                takes: (instruction.argument % 256) as u16 + 1,
                leaves: 1,
            },
            Operation::Push(_) => Effect {
                takes: 0,
                leaves: 1,
            },
            Operation::Store(_) | Operation::Close => Effect {
                takes: 1,
                leaves: 1,
            },
            Operation::Branch { when: _ } | Operation::Pop | Operation::End(_) => Effect {
                takes: 1,
                leaves: 0,
            },
            Operation::Duplicate => Effect {
                takes: 1,
                leaves: 2,
            },
            Operation::Jump(_) | Operation::Line => Effect {
                takes: 0,
                leaves: 0,
            },
        }
    }

    /// Where a path goes on after an operation.
    pub fn flow(self) -> Flow
        ensures { result ≡ flow_of self }
    {
        match self {
            Operation::Jump(direction) => Flow::Jumps(direction),
            Operation::Branch { when: _ } => Flow::Branches,
            Operation::End(_) => Flow::Ends,
            _ => Flow::Follows,
        }
    }
}

/// Whether an instruction starts at a place: it is even, below the end, and not directly after an
/// extension pair.
pub fn starts(code: &[u8], place: usize) -> bool
    ensures { result ≡ starts_at code.now place }
{
    place % PAIR_BYTES == 0
        && place < code.len()
        && !(place >= PAIR_BYTES && code[place - PAIR_BYTES] == EXTENSION)
}

/// The landing place of a jump by so much from the following place, if an instruction starts there.
pub fn landing(code: &[u8], direction: Direction, next: usize, by: u32) -> Option<usize>
    ensures { result ≡ landing_of code.now direction next by }
{
    let place = match direction {
        Direction::Back => next.checked_sub(by as usize)?,
        Direction::Forward => next.checked_add(by as usize)?,
    };
    starts(code, place).then_some(place)
}

impl Flow {
    /// The successors of an instruction, the landing place first and then the following place: no
    /// instruction has more than two.
    pub fn successors(self, code: &[u8], next: usize, by: u32) -> [Option<usize>; 2]
        ensures { result ≡ successors_of code.now self next by }
    {
        match self {
            Flow::Follows => [None, Some(next)],
            Flow::Jumps(direction) => [landing(code, direction, next, by), None],
            Flow::Branches => [landing(code, Direction::Forward, next, by), Some(next)],
            Flow::Ends => [None, None],
        }
    }
}
