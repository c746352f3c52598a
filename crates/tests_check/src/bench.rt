// A week file to check parcels over, and what a check finds.
use crate::drafts::{Draft, with_literals};
use checker::check;
use samples::{Entry, in_numbers};
use stages::MAX_PAIRS;
use std::alloc::{AllocError, Global};
use std::process::Abort;
use std::test::*;
use week_file::WeekFile;

// The greatest height, or the number and the place of a fault.
pub type CheckResult = Result<u8, (u8, usize)>;

// The host is over a week file of four variables and two bindings, all nil, with receiver object 0;
// variable 3 and binding 1 are trusted. Its bytes are made here once more, so that the tests do not
// take them from what they test.
#[derive(Drop)]
pub struct Bench {
    pub heap: Global,
    pub host: WeekFile,
}

impl Bench {
    pub fn new(heap: Global) -> Result<Bench, AllocError> {
        let mut bytes = Vec::new(heap);
        bytes.extend_from_slice(&[0, 4, 0, 2, 0, 0, 0, 0])?;
        for mark in [0, 0, 0, 1, 0, 1] {
            bytes.extend_from_slice(&[mark, 0, 0, 0, 0, 0])?;
        }
        Ok(Bench {
            heap,
            host: WeekFile::open(bytes),
        })
    }

    // What a check of bytes finds, with lists that are always long enough.
    pub fn finds(&self, bytes: &[u8], trusted: bool) -> CheckResult {
        let mut heights = [7u8; MAX_PAIRS];
        let mut waiting = [7u16; MAX_PAIRS];
        in_numbers(check(&self.host, bytes, trusted, &mut heights, &mut waiting))
    }

    // Bytes, untrusted, and what is to be found.
    pub fn bytes(&self, rt: &impl Abort, bytes: &[u8], want: CheckResult) -> Result<(), Fail> {
        assert_eq!(rt; self.finds(bytes, false), want);
        Ok(())
    }

    // An untrusted draft and what is to be found.
    pub fn draft(&self, rt: &impl Abort, draft: Draft, want: CheckResult) -> Result<(), Fail> {
        self.bytes(rt, &draft.bytes(self.heap)?, want)
    }

    // Drafts, trusted or not, and what is to be found of each.
    fn each(
        &self,
        rt: &impl Abort,
        cases: &[(Draft, CheckResult)],
        trusted: bool,
    ) -> Result<(), Fail> {
        for (k, case) in cases.iter().enumerate() {
            let (draft, want) = *case;
            let bytes = draft.bytes(self.heap)?;
            assert_eq!(rt; self.finds(&bytes, trusted), want, "case {k}");
        }
        Ok(())
    }

    // Untrusted drafts.
    pub fn drafts(&self, rt: &impl Abort, cases: &[(Draft, CheckResult)]) -> Result<(), Fail> {
        self.each(rt, cases, false)
    }

    // Trusted drafts.
    pub fn trusted(&self, rt: &impl Abort, cases: &[(Draft, CheckResult)]) -> Result<(), Fail> {
        self.each(rt, cases, true)
    }

    // Codes as untrusted methods with 4 slots and these literals.
    pub fn codes_with(
        &self,
        rt: &impl Abort,
        literals: &[Entry],
        cases: &[(&[u8], CheckResult)],
    ) -> Result<(), Fail> {
        for (k, case) in cases.iter().enumerate() {
            let (code, want) = *case;
            let bytes = with_literals(literals, code).bytes(self.heap)?;
            assert_eq!(rt; self.finds(&bytes, false), want, "case {k}");
        }
        Ok(())
    }

    // The same without literals.
    pub fn codes(&self, rt: &impl Abort, cases: &[(&[u8], CheckResult)]) -> Result<(), Fail> {
        self.codes_with(rt, &[], cases)
    }
}
