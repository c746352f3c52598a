// One parcel over a host, and over a week file that is always the same.
ghost use Rattle.std.specs.Prelude.{◌≡◌, IfOk};
ghost use Rattle.stages.specs.declared.heights.TheConstants.{MAX_PAIRS};
ghost use Rattle.listing.specs.Listed.{verdict_on, listed, WorkedVerdicts};

use crate::fixed_week::FixedWeek;
use crate::verdicts::Verdict;
use checker::check;
use hosts::Host;
use stages::MAX_PAIRS;
use std::alloc::{AllocError, Global};

/// The verdict on a parcel, trusted or not, over a host. It asks for no memory: the lists of the
/// check lie on the stack, and are long enough for every code.
pub fn verdict_of<H: Host>(host: &H, parcel: &[u8], trusted: bool) -> Verdict
    ensures { result ≡ verdict_on (H.means host.now) trusted MAX_PAIRS parcel.now }
{
    let mut heights = [0u8; MAX_PAIRS];
    let mut waiting = [0u16; MAX_PAIRS];
    Verdict(check(host, parcel, trusted, &mut heights, &mut waiting))
}

/// The verdict on an untrusted parcel over the fixed week file. An error says that there was no
/// memory for that file; `FixedWeek::verdict` asks for none.
pub fn list(heap: Global, parcel: &[u8]) -> Result<Verdict, AllocError>
    ensures answer { IfOk result (λ v. v ≡ listed parcel.now) }
    ensures worked { WorkedVerdicts }
{
    Ok(FixedWeek::new(heap)?.verdict(parcel))
}
