// One step of a run.
ghost use Rattle.std.specs.Prelude.{◌≡◌, ℕ, ◌+◌, ◌*◌, ◌≤◌, length, OnOk, Some, Ok, if◌then◌else◌};
ghost use Rattle.values.specs.Order.{first, unless};
ghost use Rattle.parcels.specs.Parts.{parts};
ghost use Rattle.semantics.specs.declared.states.State.TheVariants.{Live};
ghost use Rattle.semantics.specs.Steps.{is_live, moved, Step};
ghost use Rattle.safety.specs.Histories.{ExtendsHistory, EveryHistoryIsSafe};
ghost use Rattle.engine.specs.Decoding.{outcome_of, NextDecoded, HasDecoded, ContinuesReady, Long, PerformedNext, count_tests};
ghost use Rattle.engine.specs.View.{view};

use crate::decoded::{Decoded, StepResult};
use crate::runs::Run;
use hosts::{Host, Row};
use parcels::{Operation, Reader};
use semantics::{State, Stop};
use values::{Fault, Rule, Value};

impl<'a> Run<'a> {
    // The instruction at the place of a live run, with what acceptance gives of it.
    fn fetch(&self) -> Decoded<'a>
        requires { self.now.state ≡ Live }
        ensures { NextDecoded (view self.now) result }
    {
        let parcel = self.parcel;
        let mut reader = Reader::at(parcel.code, self.place);
        let Ok((instruction, _)) = reader.advance() else {
            unreachable!()
        };
        let Ok(operation) = Operation::try_from(instruction.opcode) else {
            unreachable!()
        };
        Decoded {
            parcel,
            variable_count: self.variable_count,
            instruction,
            operation,
            next: reader.place,
            height: self.height,
        }
    }

    // The next instruction of a live run, with its operation in front; no other run has one.
    fn peek(&self) -> Option<(Operation, Decoded<'a>)>
        ensures { HasDecoded (view self.now) result }
    {
        match self.state {
            State::Live => {
                let decoded = self.fetch();
                Some((decoded.operation, decoded))
            }
            State::Ended { .. } | State::Stopped(_) => None,
        }
    }

    // Refuses to step a live run if the host's counts are not those noted, or the frame is too
    // short. A run that is not live is let through, since that comes first and is refused by
    // `perform`.
    fn check_counts<H: Host>(&self, host: &H, cells: usize) -> Result<(), Fault>
        ensures answer { result ≡ (if is_live self.now.state then unless (first (count_tests (view
            self.now) (H.means host.now) cells)) tt else Ok tt) }
        ensures long { OnOk result (self.now.state ≡ Live → Long (parts self.now.parcel) cells) }
    {
        let State::Live = self.state else {
            return Ok(());
        };
        if host.count(Row::Variables) != self.variable_count
            || host.count(Row::Bindings) != self.binding_count
        {
            return Err(Rule::CountsDiffer.at(self.place));
        }
        if cells < self.parcel.layout.cells() {
            return Err(Rule::StepFrameShort.at(self.place));
        }
        Ok(())
    }

    // Performs the next instruction of a live run, and refuses a run that is not live: the run's
    // own state and the operation are read together, in one match that the compiler sees to be
    // whole.
    fn perform<H: Host>(
        &mut self,
        next: Option<(Operation, Decoded)>,
        host: &mut H,
        frame: &mut [Value],
    ) -> Result<StepResult, Fault>
        requires next { HasDecoded (view self.old) next }
        requires long { self.old.state ≡ Live → Long (parts self.old.parcel) (length frame.old) }
        ensures run { view self.new ≡ view self.old }
        ensures result { PerformedNext H.means H.may (view self.old) next.entry frame.old host.old
            result frame.new host.new }
    {
        match (self.state, next) {
            (State::Ended { .. } | State::Stopped(_), _) => Err(Rule::RunNotLive.at(self.place)),
            (State::Live, None) => unreachable!(),
            (State::Live, Some((Operation::Send, it))) => Ok(it.send_special(host, frame)),
            (State::Live, Some((Operation::SendSelector { is_super }, it))) => {
                Ok(it.send_selector(is_super, host, frame))
            }
            (State::Live, Some((Operation::Push(source), it))) => {
                Ok(it.push_from(source, host, frame))
            }
            (State::Live, Some((Operation::Store(target), it))) => {
                Ok(it.store_to(target, host, frame))
            }
            (State::Live, Some((Operation::Jump(direction), it))) => Ok(StepResult::Continued {
                place: it.land(direction),
                height: it.height,
            }),
            (State::Live, Some((Operation::Branch { when }, it))) => {
                Ok(it.branch(when, host, frame))
            }
            (State::Live, Some((Operation::Pop, it))) => {
                let _ = it.pop(frame);
                Ok(it.follow(it.height - 1))
            }
            (State::Live, Some((Operation::Line, it))) => Ok(it.follow(it.height)),
            (State::Live, Some((Operation::Duplicate, it))) => {
                let v = it.top(frame);
                Ok(it.push(v, frame))
            }
            (State::Live, Some((Operation::Close, it))) => match it.top(frame) {
                Value::Block(n) => {
                    it.set_top(Value::Closure(n), frame);
                    Ok(it.follow(it.height))
                }
                _ => Ok(StepResult::Stopped(Stop::NoBlock)),
            },
            (State::Live, Some((Operation::End(how), it))) => Ok(StepResult::Ended {
                how,
                value: it.pop(frame),
            }),
        }
    }

    // Moves a live run by the result of its step.
    fn settle(&mut self, performed: StepResult)
        requires live { self.old.state ≡ Live }
        requires ready { ContinuesReady (view self.old) performed }
        ensures { view self.new ≡ moved (view self.old) (outcome_of performed) }
    {
        match performed {
            StepResult::Continued { place, height } => {
                self.place = place;
                self.height = height;
            }
            StepResult::Ended { how, value } => self.state = State::Ended { how, value },
            StepResult::Stopped(stop) => self.state = State::Stopped(stop),
        }
    }

    // One step.
    fn step_once<H: Host>(&mut self, host: &mut H, frame: &mut [Value]) -> Result<(), Fault>
        ensures { Step H.means H.may (view self.old) frame.old host.old result (view self.new)
            frame.new host.new }
    {
        let next = self.peek();
        self.check_counts(host, frame.len())?;
        let performed = self.perform(next, host, frame)?;
        self.settle(performed);
        Ok(())
    }

    /// Makes one step on a host with a frame: one instruction, or a refusal at the run's place that
    /// leaves everything. 27: the run is not live. 28: the host's counts are not those noted. 26:
    /// the frame has fewer than arguments + slots cells. Every list of opening, stepping and
    /// collecting calls is safe.
    pub fn step<H: Host>(&mut self, host: &mut H, frame: &mut [Value]) -> Result<(), Fault>
        ensures steps { Step H.means H.may (view self.old) frame.old host.old result (view self.new)
            frame.new host.new }
        ensures extends { ExtendsHistory H.means H.may host.old (view self.old) host.new
            (Some (view self.new)) }
        ensures safe { EveryHistoryIsSafe H.means H.may }
    {
        self.step_once(host, frame)
    }
}
