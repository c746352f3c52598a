// Values, faults and the bounded stack: what every other crate speaks of.
#![tactic(auto)]

mod faults;
mod kinds;
mod small;
mod stacks;
mod unknown;

pub use faults::{Fault, Rule, Stage};
pub use kinds::Value;
pub use small::SmallInteger;
pub use stacks::Stack;
pub use unknown::Unknown;
