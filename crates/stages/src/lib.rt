// The stages of a check: every rule in the fixed order, and the heights of the places.
#![tactic(auto)]

mod checking;
mod contexts;
mod encoding;
mod heights;
mod sweep;

pub use checking::pass_stages;
pub use encoding::{CLEAN, RETURNING};
pub use heights::{MAX_PAIRS, NO_HEIGHT};
