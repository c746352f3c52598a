// The layer as a host.
ghost use Rattle.std.specs.Prelude.{◌≡◌};
ghost use Rattle.hosts.specs.Meaning.{row_of, with_cell, place_of, Answered};
ghost use Rattle.hosts.specs.Sending.{sent};
ghost use Rattle.arithmetic.specs.Layer.{layered, MayLayered, ByItself, PassedOn};
ghost use Rattle.arithmetic.specs.Laws.{Divides, DividesOnlySo, Computes, RangeSettlesAnswer, AlwaysLeft, NeverByZero, Compares, OnlyThese, WorkedAnswers};
ghost use Rattle.arithmetic.specs.Layers.{kept_over, few_over};
ghost use Rattle.std.proofs.Common.{rules};

use crate::answers::own_answer;
use hosts::{Host, Message, Row};
use values::{Fault, Value};

/// A host over any host: it answers integer arithmetic itself, and passes everything else on to the
/// host below.
#[derive(Drop)]
pub struct Arithmetic<H> {
    below: H,
}

impl<H> Arithmetic<H> {
    /// Arithmetic over this host.
    pub fn new(below: H) -> Arithmetic<H>
        ensures holds { result.below ≡ below }
        ensures divides { Divides }
        ensures only_so { DividesOnlySo }
        ensures computes { Computes }
        ensures settles { RangeSettlesAnswer }
        ensures left { AlwaysLeft }
        ensures by_zero { NeverByZero }
        ensures compares { Compares }
        ensures only { OnlyThese }
        ensures worked { WorkedAnswers }
    {
        Arithmetic { below }
    }

    /// The host below, with all that was written.
    pub fn into_below(self) -> H
        ensures { result ≡ self.below }
    {
        let Arithmetic { below } = self;
        below
    }
}

impl<H: Host> Host for Arithmetic<H> {
    ghost means = { λ s. layered (H.Host.means s.below) };

    ghost may = { λ s m v t. MayLayered H.Host.may s.below m v t.below };

    ghost kept = { λ s t m v h.
        kept_over H.Host.means H.Host.may H.Host.kept s.below t.below m v h };

    ghost few = { λ s row. few_over H.Host.means H.Host.few s.below row };

    fn receiver(&self) -> Value {
        self.below.receiver()
    }

    fn count(&self, row: Row) -> usize {
        self.below.count(row)
    }

    fn trusted(&self, row: Row, i: usize) -> Result<bool, Fault> {
        self.below.trusted(row, i)
    }

    fn value(&self, row: Row, i: usize) -> Result<Value, Fault> {
        self.below.value(row, i)
    }

    fn set_value(&mut self, row: Row, i: usize, v: Value) -> Result<(), Fault>
        ensures answer { result ≡ place_of (row_of (H.Host.means self.old.below) row) i }
        ensures after { layered (H.Host.means self.new.below)
            ≡ with_cell (layered (H.Host.means self.old.below)) row i v }
        ensures below { H.Host.means self.new.below
            ≡ with_cell (H.Host.means self.old.below) row i v }
    {
        self.below.set_value(row, i, v)
    }

    fn send(&mut self, m: &Message) -> Option<Value>
        ensures answer { Answered (λ s. layered (H.Host.means s)) (MayLayered H.Host.may)
            self.old.below (sent m.now) result self.new.below }
        ensures itself { ByItself self.old.below (sent m.now) result self.new.below }
        ensures passes { PassedOn H.Host.means H.Host.may
            self.old.below (sent m.now) result self.new.below }
    {
        match own_answer(m) {
            Some(v) => Some(v),
            None => self.below.send(m),
        }
    }
}
