// A fault: which rule was broken, and where.
ghost use Rattle.std.specs.Prelude.{◌≡◌, Some};
ghost use Rattle.values.specs.Faults.{rule_number, rule_stage, fault, fault_text};

use std::fmt;

/// When a fault is found: one of the six stages of a check, in their order, or one of what comes
/// beside a check.
#[derive(Clone, Copy, PartialEq, Eq, Debug)]
pub enum Stage {
    /// The header of a parcel.
    Header,
    /// The flags of a parcel.
    Flags,
    /// The literals of a parcel.
    Literals,
    /// The lists that a check is lent.
    Lists,
    /// The instructions of a parcel, each by itself.
    Encoding,
    /// The heights along the paths through the code.
    Heights,
    /// Opening a run of a parcel that is accepted.
    Opening,
    /// A step of a run.
    Step,
    /// A call of a host.
    Host,
    /// Opening a week file.
    WeekFile,
}

/// A rule that can be broken, one for each row of the table of faults.
#[derive(Clone, Copy, PartialEq, Eq, Debug)]
pub enum Rule {
    /// A parcel has at least the bytes of a header.
    HeaderShort,
    /// The kind of a parcel is a method or a block.
    KindUnknown,
    /// A parcel has at most 1,024 literals.
    LiteralsTooMany,
    /// The code of a parcel has at most 4,096 bytes.
    CodeTooLong,
    /// A parcel ends exactly with its code.
    LengthWrong,
    /// Every reserved bit of the flags is 0.
    FlagsReserved,
    /// There are no more locals than slots.
    LocalsOverSlots,
    /// Detail, kind and number of a literal go together.
    LiteralWrong,
    /// A binding that a literal names is one of the host's.
    BindingMissing,
    /// Each list of a check has an entry for every pair of bytes of the code.
    ListShort,
    /// The code is not empty, and ends with an instruction.
    CodeCut,
    /// An instruction has at most three extension pairs.
    ExtensionFourth,
    /// An opcode stands in the table of opcodes.
    OpcodeUnknown,
    /// The operand of an instruction keeps the rule of its opcode.
    OperandWrong,
    /// A clean block does not ask for the receiver.
    CleanBlock,
    /// An untrusted parcel stores into open cells alone.
    StoreTrusted,
    /// Only a block with the whole chain returns from the method around it.
    ReturnForeign,
    /// A jump lands at the start of an instruction.
    LandingWrong,
    /// A closure is made of the block that was pushed directly before.
    ClosureAlone,
    /// An instruction finds as much on the stack as it needs.
    HeightLow,
    /// An instruction leaves the stack within the limit.
    HeightOver,
    /// An instruction that can go on has another one after it.
    FallsOffEnd,
    /// A place is reached at one height on every path.
    HeightsDiffer,
    /// A run is opened with as many arguments as its parcel takes.
    ArgumentsDiffer,
    /// The frame at opening has a cell for each argument and each slot.
    FrameShort,
    /// A step is made of a run that has neither ended nor stopped.
    RunNotLive,
    /// The host of a step has as many cells as the host had at opening.
    CountsDiffer,
    /// The frame at a step has a cell for each argument and each slot.
    StepFrameShort,
    /// A cell that is asked for is there.
    CellMissing,
    /// A week file has at least the bytes of a header.
    FileShort,
    /// A week file has at most as many cells in a row as a host may have.
    CellsTooMany,
    /// A week file ends exactly with its last cell.
    FileLength,
    /// The mark, the kind and the number of a cell of a week file go together.
    CellWrong,
}

/// A broken rule, and the place where that was found: a place of the code or of the bytes, or the
/// number of a literal or a cell.
#[derive(Clone, Copy, PartialEq, Eq, Debug)]
pub struct Fault {
    pub rule: Rule,
    pub place: usize,
}

impl Rule {
    /// The fault of this rule, broken at a place.
    pub fn at(self, place: usize) -> Fault
        ensures { result ≡ fault self place }
    {
        Fault { rule: self, place }
    }
}

impl fmt::Display for Fault {
    ghost output = { λ f. Some (fault_text f) };

    /// `refused`, its number, and where it was found.
    fn fmt<W: fmt::Write>(&self, f: &mut fmt::Formatter<W>) -> fmt::Result {
        let number = self.number();
        let place = self.place;
        write!(f, "refused {number} at {place}")
    }
}

impl Fault {
    /// The number of its rule, as the table of faults has it: two rules may share one.
    pub fn number(self) -> u8
        ensures { result ≡ rule_number self.rule }
    {
        match self.rule {
            Rule::HeaderShort => 1,
            Rule::KindUnknown => 2,
            Rule::LiteralsTooMany => 3,
            Rule::CodeTooLong => 3,
            Rule::LengthWrong => 4,
            Rule::FlagsReserved => 6,
            Rule::LocalsOverSlots => 7,
            Rule::LiteralWrong => 9,
            Rule::BindingMissing => 10,
            Rule::ListShort => 11,
            Rule::CodeCut => 12,
            Rule::ExtensionFourth => 13,
            Rule::OpcodeUnknown => 14,
            Rule::OperandWrong => 15,
            Rule::CleanBlock => 16,
            Rule::StoreTrusted => 17,
            Rule::ReturnForeign => 18,
            Rule::LandingWrong => 19,
            Rule::ClosureAlone => 20,
            Rule::HeightLow => 21,
            Rule::HeightOver => 22,
            Rule::FallsOffEnd => 23,
            Rule::HeightsDiffer => 24,
            Rule::ArgumentsDiffer => 25,
            Rule::FrameShort => 26,
            Rule::RunNotLive => 27,
            Rule::CountsDiffer => 28,
            Rule::StepFrameShort => 26,
            Rule::CellMissing => 29,
            Rule::FileShort => 30,
            Rule::CellsTooMany => 31,
            Rule::FileLength => 32,
            Rule::CellWrong => 34,
        }
    }

    /// Where it was found.
    pub fn place(self) -> usize
        ensures { result ≡ self.place }
    {
        self.place
    }

    /// The stage at which its rule is looked at.
    pub fn stage(self) -> Stage
        ensures { result ≡ rule_stage self.rule }
    {
        match self.rule {
            Rule::HeaderShort
            | Rule::KindUnknown
            | Rule::LiteralsTooMany
            | Rule::CodeTooLong
            | Rule::LengthWrong => Stage::Header,
            Rule::FlagsReserved | Rule::LocalsOverSlots => Stage::Flags,
            Rule::LiteralWrong | Rule::BindingMissing => Stage::Literals,
            Rule::ListShort => Stage::Lists,
            Rule::CodeCut
            | Rule::ExtensionFourth
            | Rule::OpcodeUnknown
            | Rule::OperandWrong
            | Rule::CleanBlock
            | Rule::StoreTrusted
            | Rule::ReturnForeign
            | Rule::LandingWrong
            | Rule::ClosureAlone => Stage::Encoding,
            Rule::HeightLow | Rule::HeightOver | Rule::FallsOffEnd | Rule::HeightsDiffer =>
                Stage::Heights,
            Rule::ArgumentsDiffer | Rule::FrameShort => Stage::Opening,
            Rule::RunNotLive | Rule::CountsDiffer | Rule::StepFrameShort => Stage::Step,
            Rule::CellMissing => Stage::Host,
            Rule::FileShort | Rule::CellsTooMany | Rule::FileLength | Rule::CellWrong =>
                Stage::WeekFile,
        }
    }
}
