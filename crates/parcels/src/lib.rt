// A parcel: its header and flags, its literals, its instructions, and what an opcode asks.
#![tactic(auto)]

mod layout;
mod literals;
mod opcodes;
mod parts;
mod reading;

pub use layout::{CodeKind, HEADER_BYTES, Layout, MAX_CODE, MAX_LITERALS, MAX_SLOTS};
pub use literals::{LITERAL_BYTES, Literal, check_literals, literal_at};
pub use opcodes::{
    Direction, Effect, Ending, Flow, INTEGER_LIMIT, Operation, SPECIAL_COUNT, Source, Target,
    argument_count, landing, starts,
};
pub use parts::Parcel;
pub use reading::{EXTENSION, Instruction, MAX_EXTENSIONS, PAIR_BYTES, Reader, Unreadable};
