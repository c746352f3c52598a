// The answer of the layer itself.
ghost use Rattle.std.specs.Prelude.{◌≡◌};
ghost use Rattle.hosts.specs.Sending.{sent};
ghost use Rattle.arithmetic.specs.Own.{own_answer};

use crate::operators::Operator;
use hosts::Message;
use values::Value;

/// The answer to m, if receiver and argument are small integers and its operator gives a value for
/// them.
pub(crate) fn own_answer(m: &Message) -> Option<Value>
    ensures { result ≡ own_answer (sent m.now) }
{
    if m.is_super {
        return None;
    }
    let [argument] = m.arguments else {
        return None;
    };
    let (Value::Integer(x), Value::Integer(y)) = (m.receiver, *argument) else {
        return None;
    };
    Operator::try_from(m.selector).ok()?.apply(x, y)
}
