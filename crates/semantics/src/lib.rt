// What one step does: a script of accesses. The states that a run is in are declared here; the
// scripts are definitions.
#![tactic(auto)]

mod states;

pub use states::{State, Stop};
