// A message, with its arguments where they lie.
use values::Value;

/// A message, as a host is asked to answer it.
#[derive(Clone, Copy)]
pub struct Message<'a> {
    /// Whether it is sent to super.
    pub is_super: bool,
    /// The number of its selector.
    pub selector: u32,
    pub receiver: Value,
    pub arguments: &'a [Value],
}
