// What each class of instructions does, access by access.
ghost use Rattle.std.specs.Prelude.{◌≡◌, ◌+◌, ◌-◌, ◌<◌, ◌≤◌, ◌/◌, ◌%◌, true, length, is_some, Some, slice_index_or, slice_set};
ghost use Rattle.values.specs.declared.kinds.Value.TheVariants.{Nil};
ghost use Rattle.parcels.specs.Layouts.{limit_of};
ghost use Rattle.parcels.specs.Literals.{literal, selector_of, binding_of, constant_of};
ghost use Rattle.parcels.specs.Opcodes.{landing_of};
ghost use Rattle.parcels.specs.Parts.{parts};
ghost use Rattle.parcels.specs.declared.opcodes.Operation.TheVariants.{Send, SendSelector, Push, Store, Branch};
ghost use Rattle.stages.specs.Operands.{is_selector, is_binding, is_constant};
ghost use Rattle.semantics.specs.Scripts.{sending};
ghost use Rattle.semantics.specs.Execution.{Exec};
ghost use Rattle.semantics.specs.Steps.{code_context_of, working_base};
ghost use Rattle.engine.specs.declared.decoded.StepResult.TheVariants.{Continued};
ghost use Rattle.engine.specs.Decoding.{outcome_of, top_cell, Performed, source_value, Long};

use crate::decoded::{Decoded, StepResult};
use crate::frames::{pop_value, push_value};
use hosts::{Host, Message, Row};
use parcels::{Direction, Literal, Source, Target, argument_count, landing, literal_at};
use semantics::Stop;
use values::Value;

/// The selector number of mustBeBoolean.
const MUST_BE_BOOLEAN: u32 = 25;

// The values that are pushed by number.
const SPECIAL: [Value; 3] = [Value::Nil, Value::True, Value::False];

impl Decoded<'_> {
    // Where the working cells begin.
    fn base(&self) -> usize
        ensures { result ≡ working_base (parts self.now.parcel) }
    {
        self.parcel.layout.base()
    }

    // On to the following place, at a height.
    pub(crate) fn follow(&self, height: usize) -> StepResult
        ensures { result ≡ Continued self.now.next height }
    {
        StepResult::Continued {
            place: self.next,
            height,
        }
    }

    // The top of the working cells.
    pub(crate) fn top(&self, frame: &[Value]) -> Value
        requires some { 1 ≤ self.now.height }
        requires long { Long (parts self.now.parcel) (length frame.now) }
        ensures { result ≡ slice_index_or frame.now (top_cell self.now) Nil }
    {
        frame[self.base() + (self.height - 1)]
    }

    // The top, taken off.
    pub(crate) fn pop(&self, frame: &mut [Value]) -> Value
        requires some { 1 ≤ self.now.height }
        requires long { Long (parts self.now.parcel) (length frame.old) }
        ensures value { result ≡ slice_index_or frame.old (top_cell self.now) Nil }
        ensures frame { frame.new ≡ frame.old }
    {
        pop_value(frame, self.base(), self.height)
    }

    // Puts a value in the place of the top.
    pub(crate) fn set_top(&self, v: Value, frame: &mut [Value])
        requires some { 1 ≤ self.now.height }
        requires long { Long (parts self.now.parcel) (length frame.old) }
        ensures { frame.new ≡ slice_set frame.old (top_cell self.now) v }
    {
        push_value(frame, self.base(), self.height - 1, v);
    }

    // A value on top, and on.
    pub(crate) fn push(&self, v: Value, frame: &mut [Value]) -> StepResult
        requires room { self.now.height + 1 ≤ limit_of self.now.parcel.layout }
        requires long { Long (parts self.now.parcel) (length frame.old) }
        ensures result { result ≡ Continued self.now.next (self.now.height + 1) }
        ensures frame { frame.new ≡ slice_set frame.old (working_base (parts self.now.parcel) +
            self.now.height) v }
    {
        push_value(frame, self.base(), self.height, v);
        self.follow(self.height + 1)
    }

    // Sends a message with `count` arguments from the top and the receiver below them; the answer
    // takes the receiver's place.
    fn send<H: Host>(
        &self,
        is_super: bool,
        selector: u32,
        count: usize,
        host: &mut H,
        frame: &mut [Value],
    ) -> StepResult
        requires need { count + 1 ≤ self.now.height }
        requires long { Long (parts self.now.parcel) (length frame.old) }
        ensures { Exec (parts self.now.parcel).literals H.means H.may (sending (code_context_of
            (parts self.now.parcel)) self.now.instruction self.now.next self.now.height is_super
            selector count) frame.old host.old (outcome_of result) frame.new host.new }
    {
        let base = self.base();
        let first = base + (self.height - count);
        let receiver = frame[base + (self.height - count - 1)];
        let message = Message {
            is_super,
            selector,
            receiver,
            arguments: &frame[first..first + count],
        };
        match host.send(&message) {
            Some(answer) => {
                push_value(frame, base, self.height - count - 1, answer);
                self.follow(self.height - count)
            }
            None => StepResult::Stopped(Stop::NotUnderstood { selector }),
        }
    }

    // Sends the message of a short opcode.
    pub(crate) fn send_special<H: Host>(&self, host: &mut H, frame: &mut [Value]) -> StepResult
        requires is { self.now.operation ≡ Send }
        requires long { Long (parts self.now.parcel) (length frame.old) }
        ensures { Performed H.means H.may self.now frame.old host.old result frame.new host.new }
    {
        let opcode = self.instruction.opcode;
        let count = argument_count(opcode) as usize;
        self.send(false, opcode as u32, count, host, frame)
    }

    // The selector number of the literal that the instruction names.
    fn selector(&self) -> u32
        requires { is_selector (literal self.now.parcel.literals.now (self.now.instruction.argument
            / 256)) (self.now.instruction.argument % 256) ≡ true }
        ensures { Some result ≡ selector_of (literal self.now.parcel.literals.now
            (self.now.instruction.argument / 256)) }
    {
        let Some(Literal::Selector { number, .. }) = literal_at(
            self.parcel.literals,
            self.instruction.argument / 256,
        ) else {
            unreachable!()
        };
        number
    }

    // Sends the message of a literal selector.
    pub(crate) fn send_selector<H: Host>(
        &self,
        is_super: bool,
        host: &mut H,
        frame: &mut [Value],
    ) -> StepResult
        requires is { self.now.operation ≡ SendSelector is_super }
        requires long { Long (parts self.now.parcel) (length frame.old) }
        ensures { Performed H.means H.may self.now frame.old host.old result frame.new host.new }
    {
        let count = (self.instruction.argument % 256) as usize;
        self.send(is_super, self.selector(), count, host, frame)
    }

    // The number of the binding that the instruction names.
    fn binding(&self) -> u32
        requires { is_binding (literal self.now.parcel.literals.now self.now.instruction.argument) ≡
            true }
        ensures { Some result ≡ binding_of (literal self.now.parcel.literals.now
            self.now.instruction.argument) }
    {
        let Some(Literal::Binding(number)) = literal_at(
            self.parcel.literals,
            self.instruction.argument,
        ) else {
            unreachable!()
        };
        number
    }

    // The value of the literal that the instruction names.
    fn constant(&self) -> Value
        requires { is_constant (literal self.now.parcel.literals.now self.now.instruction.argument)
            ≡ true }
        ensures { Some result ≡ constant_of (literal self.now.parcel.literals.now
            self.now.instruction.argument) }
    {
        let Some(Literal::Constant(value)) = literal_at(
            self.parcel.literals,
            self.instruction.argument,
        ) else {
            unreachable!()
        };
        value
    }

    // The value of a source. That the host has the variable or the binding is known where the
    // counts are compared.
    fn value_from<H: Host>(&self, source: Source, host: &H, frame: &[Value]) -> Value
        requires is { self.now.operation ≡ Push source }
        requires long { Long (parts self.now.parcel) (length frame.now) }
        ensures { Some result ≡ source_value (parts self.now.parcel) self.now.instruction source
            frame.now (H.means host.now) }
    {
        let a = self.instruction.argument;
        match source {
            Source::Cell => frame[a as usize],
            Source::Binding => host
                .value(Row::Bindings, self.binding() as usize)
                .unwrap_or(Value::Nil),
            Source::Variable => host.value(Row::Variables, a as usize).unwrap_or(Value::Nil),
            Source::Integer => Value::try_from(i64::from(a)).unwrap(),
            Source::Special => SPECIAL[a as usize],
            Source::Literal => self.constant(),
            Source::Receiver => host.receiver(),
        }
    }

    // Pushes from a source.
    pub(crate) fn push_from<H: Host>(
        &self,
        source: Source,
        host: &H,
        frame: &mut [Value],
    ) -> StepResult
        requires is { self.now.operation ≡ Push source }
        requires long { Long (parts self.now.parcel) (length frame.old) }
        ensures { Performed H.means H.may self.now frame.old host.now result frame.new host.now }
    {
        let v = self.value_from(source, host, frame);
        self.push(v, frame)
    }

    // Stores the top to a target. After a store to a binding the top is nil. That the host has the
    // cell is known where the counts are compared, so that its answer is not looked at here.
    pub(crate) fn store_to<H: Host>(
        &self,
        target: Target,
        host: &mut H,
        frame: &mut [Value],
    ) -> StepResult
        requires is { self.now.operation ≡ Store target }
        requires long { Long (parts self.now.parcel) (length frame.old) }
        ensures { Performed H.means H.may self.now frame.old host.old result frame.new host.new }
    {
        let a = self.instruction.argument;
        let v = self.top(frame);
        match target {
            Target::Cell => frame[a as usize] = v,
            Target::Binding => {
                let _ = host.set_value(Row::Bindings, self.binding() as usize, v);
                self.set_top(Value::Nil, frame);
            }
            Target::Variable => {
                let _ = host.set_value(Row::Variables, a as usize, v);
            }
        }
        self.follow(self.height)
    }

    // The landing place of a jump.
    pub(crate) fn land(&self, direction: Direction) -> usize
        requires { is_some (landing_of self.now.parcel.code.now direction self.now.next
            self.now.instruction.argument) ≡ true }
        ensures { Some result ≡ landing_of self.now.parcel.code.now direction self.now.next
            self.now.instruction.argument }
    {
        landing(
            self.parcel.code,
            direction,
            self.next,
            self.instruction.argument,
        )
        .unwrap()
    }

    // A conditional jump: what is neither true nor false is told that it must be Boolean, and the
    // jump is taken.
    pub(crate) fn branch<H: Host>(
        &self,
        when: bool,
        host: &mut H,
        frame: &mut [Value],
    ) -> StepResult
        requires is { self.now.operation ≡ Branch when }
        requires long { Long (parts self.now.parcel) (length frame.old) }
        ensures { Performed H.means H.may self.now frame.old host.old result frame.new host.new }
    {
        let place = self.land(Direction::Forward);
        let height = self.height - 1;
        match self.pop(frame) {
            Value::True => StepResult::Continued {
                place: if when { place } else { self.next },
                height,
            },
            Value::False => StepResult::Continued {
                place: if when { self.next } else { place },
                height,
            },
            v => {
                let demand = Message {
                    is_super: false,
                    selector: MUST_BE_BOOLEAN,
                    receiver: v,
                    arguments: &[],
                };
                match host.send(&demand) {
                    Some(_) => StepResult::Continued { place, height },
                    None => StepResult::Stopped(Stop::NotUnderstood {
                        selector: MUST_BE_BOOLEAN,
                    }),
                }
            }
        }
    }
}
