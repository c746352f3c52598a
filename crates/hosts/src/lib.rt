// What a check and a run ask of the world around them.
#![tactic(auto)]

mod interface;
mod messages;
mod rows;

pub use interface::Host;
pub use messages::Message;
pub use rows::{MAX_CELLS, Row};
