// What a caller can rely on, by the contract of a check alone.
ghost use Rattle.std.specs.Prelude.{◌≡◌, ◌≢◌, ◌↔◌, ◌<◌, true, length, None, Some, IfSome};
ghost use Rattle.values.specs.Faults.{rule_stage};
ghost use Rattle.values.specs.declared.faults.Fault.{Fault};
ghost use Rattle.values.specs.declared.faults.Stage.TheVariants.{Heights};
ghost use Rattle.hosts.specs.Meaning.{marks_of};
ghost use Rattle.parcels.specs.Parts.{parcel};
ghost use Rattle.parcels.specs.Layouts.{header};
ghost use Rattle.parcels.specs.Reading.{starts_at};
ghost use Rattle.soundness.specs.Rules.{ValidHeader, ValidFlags, ValidLiterals};
ghost use Rattle.soundness.specs.Verdicts.{IsValid, ListsSuffice, FirstFault, asked_parcel, asked_code};
ghost use Rattle.stages.specs.Check.{question_on, checked};
ghost use Rattle.stages.specs.Examination.{height_at};
ghost use Rattle.callers.specs.Judging.{height_of_start, HeightReached, Comes, SameHeights, before_lists, KeptBefore, ToldOfPaths};

use checker::check;
use hosts::Host;
use parcels::{PAIR_BYTES, Parcel};
use stages::{MAX_PAIRS, NO_HEIGHT};
use values::{Fault, Stage};

/// Why a parcel is refused, if it is: nothing exactly where it keeps every rule and the lists
/// suffice, and else the first fault. A fault of the heights stage says what the paths to its place
/// do wrong, and a fault of an earlier stage that is known to be the first is the answer. The lists
/// are left as by the check.
pub fn refusal_of<H: Host>(
    host: &H,
    bytes: &[u8],
    trusted: bool,
    heights: &mut [u8],
    waiting: &mut [u16],
) -> Option<Fault>
    ensures valid { (result ≡ None) ↔ (IsValid (marks_of (H.means host.now)) trusted bytes.now ×
        ListsSuffice (question_on (H.means host.now) trusted bytes.now heights.old waiting.old)) }
    ensures first { IfSome result (FirstFault (question_on (H.means host.now) trusted bytes.now
        heights.old waiting.old)) }
    ensures known { (f : Fault) → FirstFault (question_on (H.means host.now) trusted bytes.now
        heights.old waiting.old) f → rule_stage f.rule ≢ Heights → result ≡ Some f }
    ensures told { IfSome result (λ f. ToldOfPaths (parcel bytes.now).layout (parcel bytes.now).code
        f.rule f.place) }
{
    check(host, bytes, trusted, heights, waiting).err()
}

/// The stage at which a parcel is refused, if it is: everything before it is kept. The lists are
/// left as by the check.
pub fn refused_at<H: Host>(
    host: &H,
    bytes: &[u8],
    trusted: bool,
    heights: &mut [u8],
    waiting: &mut [u16],
) -> Option<Stage>
    ensures valid { (result ≡ None) ↔ (IsValid (marks_of (H.means host.now)) trusted bytes.now ×
        ListsSuffice (question_on (H.means host.now) trusted bytes.now heights.old waiting.old)) }
    ensures before { IfSome result (KeptBefore (question_on (H.means host.now) trusted bytes.now
        heights.old waiting.old)) }
{
    Some(check(host, bytes, trusted, heights, waiting).err()?.stage())
}

// Whether a stage comes before that of the lists.
fn is_before_lists(stage: Stage) -> bool
    ensures { result ≡ before_lists stage }
{
    matches!(stage, Stage::Header | Stage::Flags | Stage::Literals)
}

/// Whether a parcel keeps the rules of its header, its flags and its literals. No list is lent, so
/// that a parcel is refused by its lists or by the length of its code at the latest.
pub fn keeps_parts<H: Host>(host: &H, bytes: &[u8]) -> bool
    ensures { (result ≡ true) ↔ (ValidHeader bytes.now × ValidFlags (header bytes.now) ×
        ValidLiterals (parcel bytes.now) (length (marks_of (H.means host.now)).bindings)) }
{
    match check(host, bytes, false, &mut [], &mut []) {
        Ok(_) => true,
        Err(fault) => !is_before_lists(fault.stage()),
    }
}

/// The height of place 0 of a parcel that is accepted, as the list has it. The lists are left as by
/// the check.
pub fn first_height<H: Host>(
    host: &H,
    bytes: &[u8],
    trusted: bool,
    heights: &mut [u8],
    waiting: &mut [u16],
) -> Option<u8>
    ensures { result ≡ height_of_start (checked (question_on (H.means host.now) trusted bytes.now
        heights.old waiting.old)).verdict }
{
    check(host, bytes, trusted, heights, waiting).ok()?;
    heights.first().copied()
}

// The height of a pair, if it has one.
fn height_of_pair(heights: &[u8], pair: usize) -> Option<u8>
    requires listed { pair < length heights.now }
    ensures { result ≡ height_at heights.now pair }
{
    let height = heights[pair];
    (height != NO_HEIGHT).then_some(height)
}

/// The height of the paths to a place of a parcel that is accepted, and nothing where no path comes
/// to it: an instruction starts wherever there is an answer, and place 0 has height 0 unless it is
/// reached from another. The lists are left as by the check.
pub fn height_reached<H: Host>(
    host: &H,
    bytes: &[u8],
    trusted: bool,
    heights: &mut [u8],
    waiting: &mut [u16],
    place: usize,
) -> Option<u8>
    ensures reached { HeightReached (question_on (H.means host.now) trusted bytes.now heights.old
        waiting.old) place result }
    ensures starts { IfSome result (λ h. starts_at (parcel bytes.now).code place ≡ true) }
    ensures comes { IfSome result (Comes (parcel bytes.now).code place) }
{
    check(host, bytes, trusted, heights, waiting).ok()?;
    let parcel = Parcel::read(bytes).ok()?;
    if place % PAIR_BYTES != 0 || place >= parcel.code.len() {
        return None;
    }
    height_of_pair(heights, place / PAIR_BYTES)
}

/// Checks a parcel twice, with two lists of height bytes, and answers both greatest heights: they
/// are one, and so are the heights of the pairs of the code, whatever the lists held. Nothing is
/// answered where either check refuses. The lists are left as by the checks.
pub fn same_heights<H: Host>(
    host: &H,
    bytes: &[u8],
    trusted: bool,
    heights: &mut [u8],
    again: &mut [u8],
    waiting: &mut [u16],
) -> Option<(u8, u8)>
    ensures greatest { IfSome result (λ x. x.0 ≡ x.1) }
    ensures heights { IfSome result (λ x. SameHeights (parcel bytes.now).code heights.new
        again.new) }
{
    let top = check(host, bytes, trusted, heights, waiting).ok()?;
    let other = check(host, bytes, trusted, again, waiting).ok()?;
    Some((top, other))
}

// Whether two verdicts are one.
fn agree(first: Result<u8, Fault>, second: Result<u8, Fault>) -> bool
    ensures { first ≡ second → result ≡ true }
{
    match (first, second) {
        (Ok(top), Ok(again)) => top == again,
        (Err(fault), Err(again)) => {
            fault.number() == again.number() && fault.place == again.place
        }
        _ => false,
    }
}

/// Whether a parcel has the same verdict over two hosts: always, where their counts and marks are
/// the same, whatever their cells hold.
pub fn hosts_agree<G: Host, H: Host>(one: &G, other: &H, bytes: &[u8], trusted: bool) -> bool
    ensures { marks_of (G.means one.now) ≡ marks_of (H.means other.now) → result ≡ true }
{
    let first = check(
        one,
        bytes,
        trusted,
        &mut [0; MAX_PAIRS],
        &mut [0; MAX_PAIRS],
    );
    let second = check(
        other,
        bytes,
        trusted,
        &mut [0; MAX_PAIRS],
        &mut [0; MAX_PAIRS],
    );
    agree(first, second)
}
