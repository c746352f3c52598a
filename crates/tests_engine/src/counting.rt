// A host that counts what it is sent, and runs over it: what is not understood is sent once.
ghost use Rattle.std.specs.Prelude.{◌≡◌};
ghost use Rattle.tests_engine.specs.Counting.{counting, Counted, counting_kept, counting_few};

use crate::worlds::{make_steps, method_of, open_in};
use arithmetic::Arithmetic;
use engine::Run;
use hosts::{Host, Message, Row};
use samples::{int, send_to};
use semantics::{State, Stop};
use std::process::Abort;
use std::test::Fail;
use values::{Fault, Rule, Value};

// It has no cells, and its receiver is nil. It answers every message with nil, or understands none;
// how often it was sent one is no part of what it means.
#[derive(Drop)]
pub(crate) struct Counting {
    answers: bool,
    sent: u32,
}

impl Host for Counting {
    ghost means = { λ s. counting s.answers };

    ghost may = { λ s m v t. Counted s.answers v t.answers };

    ghost kept = { λ s t m v h. counting_kept s.answers t.answers v h };

    ghost few = { λ s row. counting_few s.answers row };

    fn receiver(&self) -> Value {
        Value::Nil
    }

    fn count(&self, row: Row) -> usize {
        match row {
            Row::Variables => 0,
            Row::Bindings => 0,
        }
    }

    fn trusted(&self, row: Row, i: usize) -> Result<bool, Fault> {
        match row {
            Row::Variables => Err(Rule::CellMissing.at(i)),
            Row::Bindings => Err(Rule::CellMissing.at(i)),
        }
    }

    fn value(&self, row: Row, i: usize) -> Result<Value, Fault> {
        match row {
            Row::Variables => Err(Rule::CellMissing.at(i)),
            Row::Bindings => Err(Rule::CellMissing.at(i)),
        }
    }

    fn set_value(&mut self, row: Row, i: usize, v: Value) -> Result<(), Fault> {
        match row {
            Row::Variables => Err(Rule::CellMissing.at(i)),
            Row::Bindings => Err(Rule::CellMissing.at(i)),
        }
    }

    fn send(&mut self, m: &Message) -> Option<Value> {
        self.sent = self.sent.wrapping_add(1);
        if self.answers { Some(Value::Nil) } else { None }
    }
}

// A code that sends a message at its second step, run for three more steps over this host.
fn state_of(
    rt: &(impl Abort + AllocGlobal),
    host: &mut impl Host,
    code: &[u8],
) -> Result<State, Fail> {
    let bytes = method_of(rt.alloc(), code)?;
    let mut frame = [Value::Nil; 9];
    let mut run = Run::empty();
    assert_eq!(rt;
        open_in(&mut run, host, &bytes, &[int(9)], &mut frame).is_ok(),
        true
    );
    make_steps(&mut run, host, &mut frame, 5);
    Ok(run.state())
}

// A code whose message nobody understands: it was sent once, and the run stopped.
fn sent_once(rt: &(impl Abort + AllocGlobal), code: &[u8], selector: u32) -> Result<(), Fail> {
    let stopped = State::Stopped(Stop::NotUnderstood { selector });
    let mut host = Counting {
        answers: false,
        sent: 0,
    };
    assert_eq!(rt; state_of(rt, &mut host, code)?, stopped);
    assert_eq!(rt; host.sent, 1);
    let below = Counting {
        answers: false,
        sent: 0,
    };
    let mut layer = Arithmetic::new(below);
    assert_eq!(rt; state_of(rt, &mut layer, code)?, stopped);
    assert_eq!(rt; layer.into_below().sent, 1);
    Ok(())
}

// A send, and the conditional jumps on nil and on an integer.
#[test]
fn not_understood_is_sent_once(rt: HostRuntime) -> Result<(), Fail> {
    sent_once(&rt, &[44, 5, 18, 0, 51, 0], 18)?;
    sent_once(&rt, &[45, 0, 42, 2, 40, 2, 40, 2], 25)?;
    sent_once(&rt, &[45, 0, 43, 2, 40, 2, 40, 2], 25)?;
    sent_once(&rt, &[44, 5, 42, 2, 40, 2, 40, 2], 25)?;
    sent_once(&rt, &[44, 5, 43, 2, 40, 2, 40, 2], 25)
}

// A code whose message is answered, or that sends none, and how often it was sent one.
fn sent_so_often(rt: &(impl Abort + AllocGlobal), code: &[u8], count: u32) -> Result<(), Fail> {
    let mut host = Counting {
        answers: true,
        sent: 0,
    };
    assert_eq!(rt; state_of(rt, &mut host, code)?, State::Live);
    assert_eq!(rt; host.sent, count);
    Ok(())
}

#[test]
fn answered_is_sent_once(rt: HostRuntime) -> Result<(), Fail> {
    sent_so_often(&rt, &[44, 5, 18, 0, 40, 2], 1)?;
    sent_so_often(&rt, &[45, 0, 43, 2, 40, 2, 40, 2], 1)?;
    sent_so_often(&rt, &[45, 1, 42, 2, 40, 2, 40, 2], 0)?;
    sent_so_often(&rt, &[45, 2, 42, 2, 40, 2, 40, 2], 0)?;
    sent_so_often(&rt, &[45, 1, 43, 2, 40, 2, 40, 2], 0)?;
    sent_so_often(&rt, &[45, 2, 43, 2, 40, 2, 40, 2], 0)
}

// What the layer answers itself does not go below.
#[test]
fn own_answers_stay(rt: HostRuntime) -> Result<(), Fail> {
    let mut layer = Arithmetic::new(Counting {
        answers: false,
        sent: 0,
    });
    assert_eq!(rt;
        send_to(&mut layer, false, 0, int(2), &[int(3)]),
        Some(int(5))
    );
    assert_eq!(rt; send_to(&mut layer, false, 13, int(2), &[int(0)]), None);
    assert_eq!(rt; layer.into_below().sent, 1);
    Ok(())
}
