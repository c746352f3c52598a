// The working cells of a frame: the part behind the arguments and the locals, lent to a stack.
ghost use Rattle.std.specs.Prelude.{◌≡◌, ◌+◌, ◌-◌, ◌<◌, ◌≤◌, ◌++◌, length, drop, replicate, Ok, Err, is_ok, if◌then◌else◌, nat_lt, slice_index_or, slice_set};
ghost use Rattle.values.specs.declared.kinds.Value.TheVariants.{Nil};
ghost use Rattle.values.specs.Stacks.{OnTop};

use values::{Stack, Value};

// Pushes v onto the working cells, of which h are in use.
fn push_working(cells: &mut [Value], h: usize, v: Value) -> Result<(), Value>
    ensures said { result ≡ (if nat_lt h (length cells.old) then Ok tt else Err v) }
    ensures cells { cells.new ≡ (if is_ok result then slice_set cells.old h v else cells.old) }
{
    let mut stack = Stack { cells, height: h };
    stack.push(v)
}

// Pops the working cells, of which h are in use.
fn pop_working(cells: &mut [Value], h: usize) -> Option<Value>
    ensures said { OnTop cells.old h result }
    ensures cells { cells.new ≡ cells.old }
{
    let mut stack = Stack { cells, height: h };
    stack.pop()
}

// Puts v on top of the h working cells of a frame that begin at base. The cells before them are
// lent to nobody.
pub(crate) fn push_value(frame: &mut [Value], base: usize, h: usize, v: Value)
    requires { base + h < length frame.old }
    ensures { frame.new ≡ slice_set frame.old (base + h) v }
{
    push_working(&mut frame[base..], h, v).unwrap();
}

// Takes the top off the h working cells of a frame that begin at base. The cells keep their
// contents.
pub(crate) fn pop_value(frame: &mut [Value], base: usize, h: usize) -> Value
    requires some { 1 ≤ h }
    requires there { base + h ≤ length frame.old }
    ensures value { result ≡ slice_index_or frame.old (base + (h - 1)) Nil }
    ensures frame { frame.new ≡ frame.old }
{
    pop_working(&mut frame[base..], h).unwrap()
}

// The arguments in the first cells and nil in the locals; the other cells stay.
pub(crate) fn lay_out(frame: &mut [Value], arguments: &[Value], locals: usize)
    requires { length arguments.now + locals ≤ length frame.old }
    ensures { frame.new ≡ arguments.now ++ (replicate locals Nil ++ drop (length arguments.now +
        locals) frame.old) }
{
    let count = arguments.len();
    frame[..count].copy_from_slice(arguments);
    frame[count..count + locals].fill(Value::Nil);
}
