// One parcel on a host: the check, the opening, and steps up to a budget.
ghost use Rattle.std.specs.Prelude.{◌≡◌, IfOk};
ghost use Rattle.engine.specs.View.{view};
ghost use Rattle.planning.specs.Frames.{cells_in, frame_of};
ghost use Rattle.planning.specs.Keeping.{StaysWithin, Going, LeadsOn, Followed, Played};
ghost use Rattle.planning.specs.Meeting.{next_text};
ghost use Rattle.planning.specs.Turns.{opened_under, Handled};
ghost use Rattle.parcels.specs.Parts.{parts_of};

use crate::options::Plan;
use crate::texts::{Outcome, Ran, StepText};
use engine::Run;
use hosts::Host;
use listing::verdict_of;
use parcels::Parcel;
use semantics::State;
use stages::MAX_PAIRS;
use std::alloc::{AllocError, Global};
use std::io;
use values::Value;

// How many cells a parcel's frame has.
fn frame_cells(bytes: &[u8]) -> usize
    ensures { result ≡ cells_in (parts_of bytes.now) }
{
    Parcel::read(bytes).map_or(0, |parcel| parcel.layout.cells())
}

// The frame of a parcel, before it is opened.
pub fn frame_for(heap: Global, bytes: &[u8]) -> Result<Vec<Value>, AllocError>
    ensures { IfOk result (λ v. v.items ≡ frame_of bytes.now) }
{
    vec![in heap; Value::Nil; frame_cells(bytes)]
}

// What the next step of a run meets.
fn step_text(number: u64, run: &Run) -> Option<StepText>
    ensures { result ≡ next_text number (view run.now) }
{
    let opcode = run.opcode()?;
    Some(StepText {
        number,
        place: run.place(),
        height: run.height(),
        opcode,
    })
}

// Prints what the next step meets, if it is to be printed.
fn announce(rt: &impl Print, trace: bool, number: u64, run: &Run) -> io::Result<()> {
    if trace {
        if let Some(step) = step_text(number, run) {
            println!(rt; "{step}")?;
        }
    }
    Ok(())
}

// Where a run is after so many steps.
fn ran_for(run: &Run, steps: u64) -> Ran
    ensures { result ≡ record {
      state = (view run.now).state;
      place = (view run.now).place;
      steps =
          steps;
    } }
{
    Ran {
        state: run.state(),
        place: run.place(),
        steps,
    }
}

// Steps a run until it is live no more or the budget is spent. No step is refused. The answer says
// how many were made.
fn follow<H: Host>(
    rt: &impl Print,
    plan: &Plan,
    run: &mut Run,
    host: &mut H,
    frame: &mut [Value],
) -> io::Result<Ran>
    requires { Going H.means H.may host.old (view run.old) frame.old }
    ensures leads { LeadsOn H.means H.may host.old (view run.old) host.new (view run.new) }
    ensures ran { IfOk result (λ r. Followed H.means H.may plan.now.steps host.old (view run.old)
        frame.old r host.new (view run.new) frame.new) }
{
    for k in 0..plan.steps {
        let State::Live = run.state() else {
            return Ok(ran_for(run, k));
        };
        announce(rt, plan.trace, k + 1, run)?;
        run.step(host, frame).unwrap();
    }
    Ok(ran_for(run, plan.steps))
}

// Opens a parcel and steps it. The lists have an entry for every pair that a code can have, and lie
// on the stack: an opening asks for no memory.
fn play<H: Host>(
    rt: &impl Print,
    plan: &Plan,
    host: &mut H,
    bytes: &[u8],
    frame: &mut [Value],
) -> io::Result<Outcome>
    ensures within { StaysWithin plan.now (H.means host.old) (H.means host.new) }
    ensures outcome { IfOk result (λ o. Played H.means H.may (opened_under plan.now (H.means
        host.old) bytes.now frame.old) plan.now.steps host.old o host.new frame.new) }
{
    let mut heights = [0u8; MAX_PAIRS];
    let mut waiting = [0u16; MAX_PAIRS];
    let mut run = Run::empty();
    if let Err(fault) = run.open(
        host,
        bytes,
        plan.trusted,
        &plan.arguments,
        frame,
        &mut heights,
        &mut waiting,
    ) {
        return Ok(Outcome(Err(fault)));
    }
    let ran = follow(rt, plan, &mut run, host, frame)?;
    Ok(Outcome(Ok(ran)))
}

/// Checks a parcel on a host, and opens and steps it where it is accepted. The lines of both are
/// printed under its path. It answers what came of the parcel, nothing where the check refuses it.
/// An error says that a line could not be printed or that memory ran out; marks and trusted cells
/// are then still as the plan says.
pub fn run_parcel<H: Host>(
    rt: &(impl Print + AllocGlobal),
    plan: &Plan,
    host: &mut H,
    path: &str,
    bytes: &[u8],
) -> io::Result<Option<Outcome>>
    ensures within { StaysWithin plan.now (H.means host.old) (H.means host.new) }
    ensures handled { IfOk result (λ o. Handled H.means H.may plan.now bytes.now host.old o
        host.new) }
{
    let verdict = verdict_of(host, bytes, plan.trusted);
    println!(rt; "parcel {path}: {verdict}")?;
    if verdict.0.is_err() {
        return Ok(None);
    }
    let mut frame = frame_for(rt.alloc(), bytes)?;
    let outcome = play(rt, plan, host, bytes, &mut frame)?;
    println!(rt; "parcel {path}: {outcome}")?;
    Ok(Some(outcome))
}
