// Empty runs, opening and collecting.
ghost use Rattle.std.specs.Prelude.{◌≡◌, length, Some, None};
ghost use Rattle.values.specs.Order.{first, unless};
ghost use Rattle.parcels.specs.Parts.{parts};
ghost use Rattle.stages.specs.Check.{question_on, checked};
ghost use Rattle.semantics.specs.Steps.{value_in};
ghost use Rattle.semantics.specs.Opening.{open_tests, opened, begun, laid_out_frame, empty};
ghost use Rattle.safety.specs.Histories.{ExtendsHistory};
ghost use Rattle.safety.specs.Ready.{Ready};
ghost use Rattle.safety.specs.Worked.{WorkedRuns};
ghost use Rattle.engine.specs.Decoding.{if_ok};
ghost use Rattle.engine.specs.View.{view};

use crate::frames::lay_out;
use crate::runs::Run;
use checker::check;
use hosts::{Host, Row};
use parcels::{CodeKind, Ending, Layout, Parcel};
use semantics::State;
use values::{Fault, Rule, Value};

impl<'a> Run<'a> {
    /// A run that is ended by return with nil, at place 0.
    pub fn empty() -> Run<'a>
        ensures run { view result ≡ empty }
        ensures worked { WorkedRuns }
    {
        let layout = Layout {
            kind: CodeKind::Method,
            literal_count: 0,
            code_length: 0,
            argument_count: 0,
            slot_count: 0,
            local_count: 0,
        };
        Run {
            parcel: Parcel {
                layout,
                literals: &[],
                code: &[],
            },
            variable_count: 0,
            binding_count: 0,
            state: State::Ended {
                how: Ending::Return,
                value: Value::Nil,
            },
            place: 0,
            height: 0,
        }
    }

    /// Uses the run up, and answers its state and its value, nil unless it ended. The host that it
    /// was on is asked nothing: every history of that host goes on without the run.
    pub fn collect<H: Host>(self, host: &H) -> (State, Value)
        ensures state { result.0 ≡ (view self.entry).state }
        ensures value { result.1 ≡ value_in (view self.entry).state }
        ensures extends { ExtendsHistory H.means H.may host.now (view self.entry) host.now None }
    {
        match self.state {
            State::Ended { value, .. } => (self.state, value),
            State::Live | State::Stopped(_) => (self.state, Value::Nil),
        }
    }

    // Begins a run of a parcel that is accepted, unless the argument count differs or the frame is
    // too short.
    fn begin<H: Host>(
        &mut self,
        host: &H,
        parcel: Parcel<'a>,
        arguments: &[Value],
        frame: &mut [Value],
    ) -> Result<(), Fault>
        requires { Ready (parts parcel) (length (H.means host.now).variables) (length (H.means
            host.now).bindings) 0 0 }
        ensures answer { result ≡ unless (first (open_tests (parts parcel.entry) arguments.now
            frame.old)) tt }
        ensures run { view self.new ≡ if_ok result (begun (parts parcel.entry) (length (H.means
            host.now).variables) (length (H.means host.now).bindings)) (view self.old) }
        ensures frame { frame.new ≡ if_ok result (laid_out_frame (parts parcel.entry) arguments.now
            frame.old) frame.old }
    {
        let layout = parcel.layout;
        if arguments.len() != layout.argument_count as usize {
            return Err(Rule::ArgumentsDiffer.at(0));
        }
        if frame.len() < layout.cells() {
            return Err(Rule::FrameShort.at(0));
        }
        lay_out(frame, arguments, layout.local_count as usize);
        *self = Run {
            parcel,
            variable_count: host.count(Row::Variables),
            binding_count: host.count(Row::Bindings),
            state: State::Live,
            place: 0,
            height: 0,
        };
        Ok(())
    }

    /// Opens a parcel on a host: checks it, and begins a run of it with the arguments in the first
    /// frame cells and nil in the locals, in the place of whatever run this was. The answer is the
    /// greatest height. A fault of the check is passed on whole; after it, 25 at 0: the argument
    /// count is not the parcel's, and 26 at 0: the frame has fewer than arguments + slots cells. A
    /// refusal leaves the run and the frame; the two lists are as the check leaves them.
    pub fn open<H: Host>(
        &mut self,
        host: &H,
        bytes: &'a [u8],
        trusted: bool,
        arguments: &[Value],
        frame: &mut [Value],
        heights: &mut [u8],
        waiting: &mut [u16],
    ) -> Result<u8, Fault>
        ensures answer { result ≡ (opened (question_on (H.means host.now) trusted bytes.now
            heights.old waiting.old) arguments.now frame.old (view self.old)).answer }
        ensures run { view self.new ≡ (opened (question_on (H.means host.now) trusted bytes.now
            heights.old waiting.old) arguments.now frame.old (view self.old)).run }
        ensures frame { frame.new ≡ (opened (question_on (H.means host.now) trusted bytes.now
            heights.old waiting.old) arguments.now frame.old (view self.old)).frame }
        ensures heights { heights.new ≡ (checked (question_on (H.means host.now) trusted bytes.now
            heights.old waiting.old)).heights }
        ensures waiting { waiting.new ≡ (checked (question_on (H.means host.now) trusted bytes.now
            heights.old waiting.old)).waiting }
        ensures extends { ExtendsHistory H.means H.may host.now (view self.old) host.now
            (Some (view self.new)) }
    {
        let top = check(host, bytes, trusted, heights, waiting)?;
        let Ok(parcel) = Parcel::read(bytes) else {
            unreachable!()
        };
        self.begin(host, parcel, arguments, frame)?;
        Ok(top)
    }
}
