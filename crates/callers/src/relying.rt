// What a caller can rely on, by the contract of a step alone.
ghost use Rattle.std.specs.Prelude.{◌≡◌};
ghost use Rattle.semantics.specs.Steps.{CallAnswer, Step};
ghost use Rattle.engine.specs.View.{view};
ghost use Rattle.callers.specs.Relying.{called, Reached, SheetStays, Regardless, Measured, Explained, GoesOn, GoesOnInPlace, LeavesUntouched, StaysAlike, SeenRight};

use engine::Run;
use hosts::Host;
use semantics::{State, Stop};
use values::{Fault, Value};

/// The pair of bytes at a run's place, and the run's height there.
#[derive(Clone, Copy)]
pub struct Seen {
    pub pair: usize,
    pub height: usize,
}

/// Steps a run in a frame that is the first part of a sheet: behind the cells that the run counts
/// the caller keeps totals. It is refused as a step is.
pub fn step_beside_totals<H: Host>(
    run: &mut Run,
    host: &mut H,
    sheet: &mut [Value],
) -> Result<(), Fault>
    ensures steps { Step H.means H.may (view run.old) sheet.old host.old result (view run.new)
        sheet.new host.new }
    ensures stays { SheetStays H.means H.may host.old (view run.old) sheet.old sheet.new }
    ensures regardless { Regardless H.means H.may host.old (view run.old) sheet.old result
        (view run.new) sheet.new }
{
    run.step(host, sheet)
}

/// Steps a run and says where it is then, if it is live.
pub fn step_and_look<H: Host>(run: &mut Run, host: &mut H, frame: &mut [Value]) -> Option<Seen>
    ensures stepped { (a : CallAnswer) × Step H.means H.may (view run.old) frame.old host.old a
        (view run.new) frame.new host.new }
    ensures seen { Reached H.means H.may host.old (view run.old) → SeenRight (view run.new) result }
{
    let _ = run.step(host, frame);
    let State::Live = run.state() else {
        return None;
    };
    Some(Seen {
        pair: run.place() / 2,
        height: run.height(),
    })
}

/// Steps a run and answers its heights before and after, if it is live then. It is refused as a
/// step is.
pub fn step_measured<H: Host>(
    run: &mut Run,
    host: &mut H,
    frame: &mut [Value],
) -> Result<Option<(usize, usize)>, Fault>
    ensures stepped { Step H.means H.may (view run.old) frame.old host.old (called result)
        (view run.new) frame.new host.new }
    ensures measured { Measured H.means H.may host.old (view run.old) (view run.new) result }
{
    let before = run.height();
    run.step(host, frame)?;
    let State::Live = run.state() else {
        return Ok(None);
    };
    Ok(Some((before, run.height())))
}

/// Steps a run and says which stop it made, if it made one. It is refused as a step is.
pub fn step_explained<H: Host>(
    run: &mut Run,
    host: &mut H,
    frame: &mut [Value],
) -> Result<Option<Stop>, Fault>
    ensures stepped { Step H.means H.may (view run.old) frame.old host.old (called result)
        (view run.new) frame.new host.new }
    ensures explained { Explained H.means H.may host.old (view run.old) frame.old result frame.new
        host.new }
{
    run.step(host, frame)?;
    match run.state() {
        State::Stopped(stop) => Ok(Some(stop)),
        State::Live | State::Ended { .. } => Ok(None),
    }
}

/// Steps a run on a host that stands in for the one that the earlier calls were made on, and means
/// the same. It is refused as a step is.
pub fn step_in_place<H: Host>(
    run: &mut Run,
    stand_in: &mut H,
    frame: &mut [Value],
) -> Result<(), Fault>
    ensures steps { Step H.means H.may (view run.old) frame.old stand_in.old result (view run.new)
        frame.new stand_in.new }
    ensures goes_on { GoesOnInPlace H.means H.may stand_in.old (view run.old) stand_in.new
        (view run.new) }
    ensures untouched { LeavesUntouched H.means H.may }
{
    run.step(stand_in, frame)
}

/// Opens an untrusted parcel without arguments in a new run, makes one step, and collects the run.
/// It answers the value that the run ended with: nil if it goes on, stopped or was not opened.
pub fn open_step_collect<H: Host>(
    host: &mut H,
    parcel: &[u8],
    frame: &mut [Value],
    heights: &mut [u8],
    waiting: &mut [u16],
) -> Value
    ensures goes_on { GoesOn H.means H.may host.old host.new }
    ensures alike { StaysAlike H.means H.may host.old host.new }
{
    let mut run = Run::empty();
    let _ = run.open(host, parcel, false, &[], frame, heights, waiting);
    let _ = run.step(host, frame);
    run.collect(host).1
}
