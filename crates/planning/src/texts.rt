// What is printed of steps, outcomes and cells.
ghost use Rattle.std.specs.Prelude.{Some};
ghost use Rattle.planning.specs.Texts.{step_text, ran_text, outcome_text, cell_text};

use hosts::Row;
use parcels::Ending;
use semantics::{State, Stop};
use std::fmt;
use values::{Fault, Value};

// A step that is about to be made: its number, from 1, and what it meets, with the opcode as the
// byte that it is.
#[derive(Clone, Copy)]
pub struct StepText {
    pub number: u64,
    pub place: usize,
    pub height: usize,
    pub opcode: u8,
}

impl fmt::Display for StepText {
    ghost output = { λ t. Some (step_text t) };

    fn fmt<W: fmt::Write>(&self, f: &mut fmt::Formatter<W>) -> fmt::Result {
        let StepText {
            number,
            place,
            height,
            opcode,
        } = *self;
        write!(
            f,
            "step {number}: place {place} height {height} opcode {opcode}"
        )
    }
}

// How an opened parcel ran: its state and its place after so many steps.
#[derive(Clone, Copy)]
pub struct Ran {
    pub state: State,
    pub place: usize,
    pub steps: u64,
}

impl fmt::Display for Ran {
    ghost output = { λ r. Some (ran_text r) };

    fn fmt<W: fmt::Write>(&self, f: &mut fmt::Formatter<W>) -> fmt::Result {
        let Ran {
            state,
            place,
            steps,
        } = *self;
        match state {
            State::Live => write!(f, "live at {place} after {steps} steps"),
            State::Ended { how, value } => {
                // The words of an ending stand here, since its crate prints nothing.
                let how = match how {
                    Ending::Return => "return",
                    Ending::MethodReturn => "method return",
                };
                write!(f, "ended by {how} with {value} after {steps} steps")
            }
            State::Stopped(Stop::NotUnderstood { selector }) => write!(
                f,
                "stopped at {place}, message {selector} not understood, after {steps} steps"
            ),
            State::Stopped(Stop::NoBlock) => {
                write!(f, "stopped at {place}, no block, after {steps} steps")
            }
        }
    }
}

// What came of an accepted parcel: how it ran, or why it was not opened.
#[derive(Clone, Copy)]
pub struct Outcome(pub Result<Ran, Fault>);

impl fmt::Display for Outcome {
    ghost output = { λ o. Some (outcome_text o) };

    fn fmt<W: fmt::Write>(&self, f: &mut fmt::Formatter<W>) -> fmt::Result {
        match self.0 {
            Ok(ran) => write!(f, "{ran}"),
            Err(fault) => write!(f, "{fault}"),
        }
    }
}

// A cell of a host: its row and its number there, its mark and its value.
#[derive(Clone, Copy)]
pub struct CellText {
    pub row: Row,
    pub number: usize,
    pub trusted: bool,
    pub value: Value,
}

impl fmt::Display for CellText {
    ghost output = { λ t. Some (cell_text t) };

    fn fmt<W: fmt::Write>(&self, f: &mut fmt::Formatter<W>) -> fmt::Result {
        let CellText {
            row,
            number,
            trusted,
            value,
        } = *self;
        // The words of a row stand here, since its crate prints nothing.
        let row = match row {
            Row::Variables => "variable",
            Row::Bindings => "binding",
        };
        let mark = if trusted { "trusted" } else { "open" };
        write!(f, "{row} {number}: {mark} {value}")
    }
}
