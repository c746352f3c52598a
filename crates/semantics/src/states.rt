// The state of a run.
use parcels::Ending;
use values::Value;

/// Why a run stopped: it sent a message that its host does not understand, or there was no block
/// to make a closure of.
#[derive(Clone, Copy, PartialEq, Eq, Debug)]
pub enum Stop {
    NotUnderstood { selector: u32 },
    NoBlock,
}

/// A run is live, ended with a value, or stopped.
#[derive(Clone, Copy, PartialEq, Eq, Debug)]
pub enum State {
    Live,
    Ended { how: Ending, value: Value },
    Stopped(Stop),
}
