// Messages in parts.
ghost use Rattle.hosts.specs.Meaning.{Answered, message};

use hosts::{Host, Message};
use values::Value;

/// Sends a host a message in parts, and gives its answer.
pub fn send_to<H: Host>(
    host: &mut H,
    is_super: bool,
    selector: u32,
    receiver: Value,
    arguments: &[Value],
) -> Option<Value>
    ensures { let m = message is_super selector receiver arguments.now in
        Answered H.Host.means H.Host.may host.old m result host.new }
{
    host.send(&Message {
        is_super,
        selector,
        receiver,
        arguments,
    })
}
