// Callers that rely on what the contract of a parcel's run promises, part by part.
ghost use Rattle.std.specs.Prelude.{◌≡◌, IfOk, IfSome, IfNone};
ghost use Rattle.planning.specs.Relying.{MarkStays, ValueStays, Spent, unstepped};

use crate::cells::cell_text;
use crate::options::Plan;
use crate::running::run_parcel;
use crate::texts::{CellText, Outcome};
use hosts::{Host, Row};
use semantics::State;
use std::io;

/// A cell before and after a parcel was run, if the host has such a cell.
#[derive(Clone, Copy)]
pub struct Watched {
    pub before: Option<CellText>,
    pub after: Option<CellText>,
}

/// Runs a parcel as `run_parcel` does, and watches a cell meanwhile, whether there is an error or
/// not.
pub fn run_watched<H: Host>(
    rt: &(impl Print + AllocGlobal),
    plan: &Plan,
    host: &mut H,
    path: &str,
    bytes: &[u8],
    row: Row,
    i: usize,
) -> (Watched, io::Result<Option<Outcome>>)
    ensures mark { MarkStays result.0 }
    ensures value { ValueStays plan.now result.0 }
{
    let before = cell_text(host, row, i);
    let outcome = run_parcel(rt, plan, host, path, bytes);
    let after = cell_text(host, row, i);
    (Watched { before, after }, outcome)
}

/// Where the run of a parcel stands: its state, its place, and how many of the plan's steps are
/// left.
#[derive(Clone, Copy)]
pub struct Rest {
    pub state: State,
    pub place: usize,
    pub steps: u64,
}

/// Runs a parcel as `run_parcel` does, and says what is left of the plan's steps, nothing where no
/// run began.
pub fn run_counted<H: Host>(
    rt: &(impl Print + AllocGlobal),
    plan: &Plan,
    host: &mut H,
    path: &str,
    bytes: &[u8],
) -> io::Result<Option<Rest>>
    ensures spent { IfOk result (λ o. IfSome o Spent) }
    ensures refused { IfOk result (λ o. IfNone o (H.means host.new ≡ H.means host.old)) }
    ensures begins { IfOk result (λ o. plan.now.steps ≡ 0 → IfSome o (λ r. r ≡ unstepped)) }
    ensures unmoved { IfOk result (λ o. plan.now.steps ≡ 0
        → H.means host.new ≡ H.means host.old) }
{
    let Some(outcome) = run_parcel(rt, plan, host, path, bytes)? else {
        return Ok(None);
    };
    match outcome.0 {
        Err(_) => Ok(None),
        Ok(ran) => Ok(Some(Rest {
            state: ran.state,
            place: ran.place,
            steps: plan.steps - ran.steps,
        })),
    }
}
