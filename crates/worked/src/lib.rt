// Examples that were worked out by hand, as facts over the fixed week file.
#![tactic(auto)]

mod examples;

pub use examples::worked_examples;
