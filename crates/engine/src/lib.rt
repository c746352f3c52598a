// Runs of accepted parcels on any host.
#![tactic(auto)]

mod decoded;
mod frames;
mod opening;
mod performing;
mod runs;
mod seeing;
mod stepping;

pub use runs::Run;
