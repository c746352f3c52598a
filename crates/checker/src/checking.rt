// The check of a parcel.
ghost use Rattle.std.specs.Prelude.{◌≡◌};
ghost use Rattle.stages.specs.Check.{question_on, checked};
ghost use Rattle.soundness.specs.Verdicts.{VerdictMeans, KindsAreNotJudged};

use hosts::Host;
use stages::pass_stages;
use values::Fault;

/// Checks a parcel over a host, which is asked only for its counts and marks. The caller says
/// whether the parcel is trusted, and lends a list of height bytes and a list of waiting places,
/// each with an entry for every pair of the code: `stages::MAX_PAIRS` are always enough.
///
/// Accepted, the answer is the greatest height, and the height bytes are those of the pairs. A
/// refusal is the first fault in the fixed order. One of the stages header, flags, literals and
/// lists leaves both lists; after a later one no pair has a height. Entries behind the pairs stay.
pub fn check<H: Host>(
    host: &H,
    bytes: &[u8],
    trusted: bool,
    heights: &mut [u8],
    waiting: &mut [u16],
) -> Result<u8, Fault>
    ensures verdict { result ≡ (checked
        (question_on (H.means host.now) trusted bytes.now heights.old waiting.old)).verdict }
    ensures heights { heights.new ≡ (checked
        (question_on (H.means host.now) trusted bytes.now heights.old waiting.old)).heights }
    ensures waiting { waiting.new ≡ (checked
        (question_on (H.means host.now) trusted bytes.now heights.old waiting.old)).waiting }
    ensures means { VerdictMeans
        (question_on (H.means host.now) trusted bytes.now heights.old waiting.old)
        (record { verdict = result; heights = heights.new; waiting = waiting.new }) }
    ensures kinds { KindsAreNotJudged }
{
    pass_stages(host, bytes, trusted, heights, waiting)
}
