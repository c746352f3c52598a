// The encoding rules at one instruction.
ghost use Rattle.std.specs.Prelude.{◌≡◌, not, ◌&&◌, length};
ghost use Rattle.parcels.specs.Parts.{parts};
ghost use Rattle.stages.specs.Contexts.{context_of};
ghost use Rattle.stages.specs.Operands.{is_selector, is_binding, is_constant, is_block, operand_fits};
ghost use Rattle.stages.specs.Encoding.{asks_self, names_trusted, stores_trusted, landing_fits, operation_tests, site_fault};
ghost use Rattle.values.specs.Order.{first, unless};

use crate::contexts::Context;
use hosts::{Host, Row};
use parcels::{
    CodeKind, Direction, Ending, Flow, INTEGER_LIMIT, Instruction, Literal, Operation,
    SPECIAL_COUNT, Source, Target, landing, literal_at,
};
use values::{Fault, Rule, Value};

// An instruction where it stands: its place, the following place, and whether the instruction
// before it pushes a block.
#[derive(Clone, Copy)]
pub struct Site {
    pub place: usize,
    pub instruction: Instruction,
    pub next: usize,
    pub after_block: bool,
}

/// The chain use of a clean block, which asks neither for variables nor for the receiver.
pub const CLEAN: u8 = 0;

/// The chain use of a block that may end by a method return. Other chain uses mean nothing to the
/// check.
pub const RETURNING: u8 = 31;

// Whether a literal is a selector with so many arguments.
fn is_selector(literal: Option<Literal>, count: u32) -> bool
    ensures { result ≡ is_selector literal count }
{
    matches!(literal, Some(Literal::Selector { argument_count: n, .. }) if n as u32 == count)
}

// Whether a literal is a binding.
fn is_binding(literal: Option<Literal>) -> bool
    ensures { result ≡ is_binding literal }
{
    matches!(literal, Some(Literal::Binding(_)))
}

// Whether a literal is a value.
fn is_constant(literal: Option<Literal>) -> bool
    ensures { result ≡ is_constant literal }
{
    matches!(literal, Some(Literal::Constant(_)))
}

// Whether a literal is a block.
pub fn is_block(literal: Option<Literal>) -> bool
    ensures { result ≡ is_block literal }
{
    matches!(literal, Some(Literal::Constant(Value::Block(_))))
}

// Whether an operation asks for a variable or the receiver.
fn asks_self(operation: Operation) -> bool
    ensures { result ≡ asks_self operation }
{
    matches!(
        operation,
        Operation::Push(Source::Variable | Source::Receiver) | Operation::Store(Target::Variable)
    )
}

// Whether a jump lands where an instruction starts; what does not jump does.
fn landing_fits(code: &[u8], next: usize, a: u32, flow: Flow) -> bool
    ensures { result ≡ landing_fits code.now next a flow }
{
    let direction = match flow {
        Flow::Jumps(direction) => direction,
        Flow::Branches => Direction::Forward,
        Flow::Follows | Flow::Ends => return true,
    };
    landing(code, direction, next, a).is_some()
}

impl<H: Host> Context<'_, H> {
    // Whether an operand keeps the rule of its operation.
    fn operand_fits(&self, operation: Operation, a: u32) -> bool
        ensures { result
            ≡ operand_fits (parts self.now.parcel)
            (length (context_of H.means self.now).marks.variables) a operation }
    {
        let literals = self.parcel.literals;
        match operation {
            Operation::SendSelector { .. } => is_selector(literal_at(literals, a / 256), a % 256),
            Operation::Push(Source::Cell) | Operation::Store(Target::Cell) => {
                (a as usize) < self.parcel.layout.base()
            }
            Operation::Push(Source::Binding) | Operation::Store(Target::Binding) => {
                is_binding(literal_at(literals, a))
            }
            Operation::Push(Source::Variable) | Operation::Store(Target::Variable) => {
                (a as usize) < self.host.count(Row::Variables)
            }
            Operation::Push(Source::Integer) => a < INTEGER_LIMIT,
            Operation::Push(Source::Special) => a < SPECIAL_COUNT,
            Operation::Push(Source::Literal) => is_constant(literal_at(literals, a)),
            _ => true,
        }
    }

    // Whether a literal names a trusted binding.
    fn names_trusted(&self, literal: Option<Literal>) -> bool
        ensures { result ≡ names_trusted (context_of H.means self.now).marks.bindings literal }
    {
        match literal {
            Some(Literal::Binding(n)) => self
                .host
                .trusted(Row::Bindings, n as usize)
                .unwrap_or(false),
            _ => false,
        }
    }

    // Whether an instruction stores to a trusted cell.
    fn stores_trusted(&self, operation: Operation, a: u32) -> bool
        ensures { result
            ≡ stores_trusted (context_of H.means self.now).marks
            (context_of H.means self.now).parts.literals a operation }
    {
        match operation {
            Operation::Store(Target::Variable) => self
                .host
                .trusted(Row::Variables, a as usize)
                .unwrap_or(false),
            Operation::Store(Target::Binding) => self.names_trusted(literal_at(
                self.parcel.literals,
                a,
            )),
            _ => false,
        }
    }

    // Checks the rules of an operation at an instruction, in order.
    fn check_operation(&self, site: Site, operation: Operation) -> Result<(), Fault>
        ensures { result
            ≡ unless (first (operation_tests (context_of H.means self.now) site operation)) tt }
    {
        let a = site.instruction.argument;
        let place = site.place;
        let kind = self.parcel.layout.kind;
        if !self.operand_fits(operation, a) {
            return Err(Rule::OperandWrong.at(place));
        }
        if kind == (CodeKind::Block { chain: CLEAN }) && asks_self(operation) {
            return Err(Rule::CleanBlock.at(place));
        }
        if !self.trusted && self.stores_trusted(operation, a) {
            return Err(Rule::StoreTrusted.at(place));
        }
        if operation == Operation::End(Ending::MethodReturn)
            && kind != (CodeKind::Block { chain: RETURNING })
        {
            return Err(Rule::ReturnForeign.at(place));
        }
        if !landing_fits(self.parcel.code, site.next, a, operation.flow()) {
            return Err(Rule::LandingWrong.at(place));
        }
        if operation == Operation::Close && !site.after_block {
            return Err(Rule::ClosureAlone.at(place));
        }
        Ok(())
    }

    // Checks the rules of an instruction where it stands, in order.
    pub fn check_site(&self, site: Site) -> Result<(), Fault>
        ensures { result ≡ unless (site_fault (context_of H.means self.now) site) tt }
    {
        let Ok(operation) = Operation::try_from(site.instruction.opcode) else {
            return Err(Rule::OpcodeUnknown.at(site.place));
        };
        self.check_operation(site, operation)
    }
}
