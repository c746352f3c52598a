// What a week file answers to a message.
ghost use Rattle.std.specs.Prelude.{◌≡◌};
ghost use Rattle.hosts.specs.Sending.{sent};
ghost use Rattle.week_file.specs.Replies.{replies};

use hosts::Message;
use values::Value;

/// The selector that asks whether the receiver is nil.
const IS_NIL: u32 = 20;

/// The selector that asks whether the receiver is anything but nil.
const NOT_NIL: u32 = 21;

/// The selector that asks whether the receiver is the same as the argument.
const SAME: u32 = 24;

/// The selector that is answered by nil, whatever the receiver is.
const ANSWER_NIL: u32 = 25;

/// The answer to m, if it is understood.
pub(crate) fn reply(m: &Message) -> Option<Value>
    ensures { result ≡ replies (sent m.now) }
{
    if m.is_super {
        return None;
    }
    match (m.selector, m.arguments) {
        (IS_NIL, []) => Some(Value::from(m.receiver == Value::Nil)),
        (NOT_NIL, []) => Some(Value::from(m.receiver != Value::Nil)),
        (SAME, [other]) => Some(Value::from(m.receiver == *other)),
        (ANSWER_NIL, []) => Some(Value::Nil),
        _ => None,
    }
}
