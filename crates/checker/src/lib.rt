// The check of a parcel, and what its verdict means.
#![tactic(auto)]

mod checking;

pub use checking::check;
