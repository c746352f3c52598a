// What the tests share: messages between two integers.
use hosts::Host;
use samples::{int, send_to};
use values::Value;

// What comes of a message between a and b.
pub(crate) fn between(host: &mut impl Host, a: i32, selector: u32, b: i32) -> Option<Value> {
    send_to(host, false, selector, int(a), &[int(b)])
}
