// The program over files.
ghost use Rattle.std.specs.Prelude.{◌≡◌, length, IfOk, None, OnOk};
ghost use Rattle.week_file.specs.Files.{why_refused};
ghost use Rattle.planning.specs.Commands.{texts_of, Sensible};
ghost use Rattle.planning.specs.Keeping.{StaysWithin};
ghost use Rattle.planning.specs.Turns.{InTurn};

use crate::cells::print_cells;
use crate::options::{Options, Plan};
use crate::running::run_parcel;
use anyhow::{anyhow, bail};
use arithmetic::Arithmetic;
use hosts::Host;
use listing::Verdict;
use std::alloc::Global;
use std::fs;
use week_file::{WeekFile, check_file};

// The bytes of a file, or an error with its path.
fn bytes_of(rt: &HostRuntime, what: &str, path: &str) -> anyhow::Result<Vec<u8>> {
    fs::read(rt, path).map_err(|error| anyhow!("{what} {path}: {error}"))
}

// The week file as a host with arithmetic. Where it is refused, that is printed, and an error too.
fn open_week(rt: &HostRuntime, path: &str) -> anyhow::Result<Arithmetic<WeekFile>>
    ensures { IfOk result (λ h. why_refused h.below.bytes.items ≡ None) }
{
    let bytes = bytes_of(rt, "week file", path)?;
    if let Err(fault) = check_file(&bytes) {
        let verdict = Verdict(Err(fault));
        println!(rt; "week file {path}: {verdict}")?;
        bail!("the week file is refused");
    }
    Ok(Arithmetic::new(WeekFile::open(bytes)))
}

// Runs the parcels at these paths in turn on one host.
fn run_all<H: Host>(
    rt: &HostRuntime,
    plan: &Plan,
    host: &mut H,
    paths: &[String],
) -> anyhow::Result<()>
    ensures within { StaysWithin plan.now (H.means host.old) (H.means host.new) }
    ensures handled { OnOk result (InTurn H.means H.may plan.now host.old (length paths.now)
        host.new) }
{
    for path in paths {
        let parcel = bytes_of(rt, "parcel", path)?;
        run_parcel(rt, plan, host, path, &parcel)?;
    }
    Ok(())
}

// Runs the parcels in turn on one host over the week file, and prints its cells at the end.
pub fn run_planned(rt: &HostRuntime, options: &Options) -> anyhow::Result<()> {
    let mut host = open_week(rt, &options.week)?;
    run_all(rt, &options.plan, &mut host, &options.parcels)?;
    Ok(print_cells(rt, &host)?)
}

// The whole program, on the words after its name.
pub fn run(rt: &HostRuntime, words: &[String]) -> anyhow::Result<()>
    ensures { OnOk result (Sensible (texts_of words.now)) }
{
    let options = Options::read(rt.alloc(), words)?;
    run_planned(rt, &options)
}
