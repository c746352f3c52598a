// The check of one parcel over a host, and over a fixed week file, and its line.
#![tactic(auto)]

mod fixed_week;
mod listed;
mod reading;
mod verdicts;

pub use fixed_week::FixedWeek;
pub use listed::{list, verdict_of};
pub use reading::{MAX_PARCEL, read_parcel};
pub use verdicts::Verdict;
