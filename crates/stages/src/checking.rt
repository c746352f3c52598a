// The check of a parcel.
ghost use Rattle.std.specs.Prelude.{◌≡◌, ◌*◌, ◌/◌, ◌≤◌, length, replicate, IfOk};
ghost use Rattle.hosts.specs.Meaning.{marks_of};
ghost use Rattle.stages.specs.Contexts.{context_of, as_context};
ghost use Rattle.stages.specs.Examination.{heights_or_fault};
ghost use Rattle.stages.specs.Numbers.{CheckNumbers};
ghost use Rattle.stages.specs.Check.{question_on, pairs, heights_found, greatest_or_fault, heights_of, context_admitted, checked};

use crate::contexts::Context;
use crate::heights::{NO_HEIGHT, examine, greatest_height};
use hosts::{Host, Row};
use parcels::{PAIR_BYTES, Parcel, check_literals};
use values::{Fault, Rule};

impl<'a, H: Host> Context<'a, H> {
    // The context of a parcel's bytes, or the first fault of the stages header, flags, literals and
    // lists, over a list of height bytes and a list of waiting places with so many entries.
    fn admit(
        host: &'a H,
        bytes: &'a [u8],
        trusted: bool,
        height_entries: usize,
        waiting_entries: usize,
    ) -> Result<Context<'a, H>, Fault>
        ensures answer { as_context H.means result
            ≡ context_admitted (marks_of (H.means host.now)) trusted bytes.now
            height_entries waiting_entries }
        ensures heights { IfOk result (λ c. pairs c.parcel.code.now ≤ height_entries) }
        ensures waiting { IfOk result (λ c. pairs c.parcel.code.now ≤ waiting_entries) }
    {
        let parcel = Parcel::read(bytes)?;
        check_literals(
            parcel.literals,
            parcel.layout.literal_count,
            host.count(Row::Bindings),
        )?;
        let pairs = parcel.code.len() / PAIR_BYTES;
        if height_entries < pairs || waiting_entries < pairs {
            return Err(Rule::ListShort.at(0));
        }
        Ok(Context {
            host,
            parcel,
            trusted,
        })
    }

    // Checks the rules of the stages encoding and heights, in order; when all are kept, the heights
    // are the paths'.
    fn check_code(&self, heights: &mut [u8], waiting: &mut [u16]) -> Result<(), Fault>
        requires heights { length heights.old ≡ pairs self.now.parcel.code.now }
        requires waiting { length waiting.old ≡ pairs self.now.parcel.code.now }
        ensures { heights_or_fault result heights.new
            ≡ heights_found (context_of H.means self.now) }
    {
        self.check_encoding()?;
        heights.fill(NO_HEIGHT);
        examine(
            self.parcel.code,
            self.parcel.layout.limit(),
            heights,
            waiting,
        )
    }

    // The stages encoding and heights, over lists with just one entry for every pair.
    fn conclude(&self, heights: &mut [u8], waiting: &mut [u16]) -> Result<u8, Fault>
        requires heights { length heights.old ≡ pairs self.now.parcel.code.now }
        requires waiting { length waiting.old ≡ pairs self.now.parcel.code.now }
        ensures verdict { result ≡ greatest_or_fault (heights_found (context_of H.means self.now)) }
        ensures heights { heights.new
            ≡ heights_of (pairs self.now.parcel.code.now)
            (heights_found (context_of H.means self.now)) }
        ensures waiting { waiting.new ≡ replicate (pairs self.now.parcel.code.now) 0 }
    {
        let checked = self.check_code(heights, waiting);
        waiting.fill(0);
        match checked {
            Ok(()) => Ok(greatest_height(heights)),
            Err(fault) => {
                heights.fill(NO_HEIGHT);
                Err(fault)
            }
        }
    }
}

/// The whole check of a parcel, stage after stage, over a host, which is asked only for its counts
/// and marks. The caller says whether the parcel is trusted, and lends a list of height bytes and a
/// list of waiting places, with an entry for every pair of the code. With no fault, the answer is
/// the greatest height, and the height bytes are those of the pairs. A refusal of the stages
/// header, flags, literals and lists leaves both lists; after a later one no pair has a height.
pub fn pass_stages<H: Host>(
    host: &H,
    bytes: &[u8],
    trusted: bool,
    heights: &mut [u8],
    waiting: &mut [u16],
) -> Result<u8, Fault>
    ensures verdict { result ≡ (checked
        (question_on (H.means host.now) trusted bytes.now heights.old waiting.old)).verdict }
    ensures heights { heights.new ≡ (checked
        (question_on (H.means host.now) trusted bytes.now heights.old waiting.old)).heights }
    ensures waiting { waiting.new ≡ (checked
        (question_on (H.means host.now) trusted bytes.now heights.old waiting.old)).waiting }
    ensures numbers { CheckNumbers }
{
    let context = Context::admit(host, bytes, trusted, heights.len(), waiting.len())?;
    let pairs = context.parcel.code.len() / PAIR_BYTES;
    context.conclude(&mut heights[..pairs], &mut waiting[..pairs])
}
