// What the tests of several crates share: the bytes of parcels, hosts over a small week file,
// messages, and faults in numbers.
#![tactic(auto)]

mod faults;
mod parcels;
mod sending;
mod weeks;

pub use faults::in_numbers;
pub use parcels::{
    BINDING_0, BINDING_1, BINDING_2, BLOCK, Entry, KEYWORD, NIL, OBJECT, UNARY, parcel_bytes,
};
pub use sending::send_to;
pub use weeks::{SMALL_WEEK, int, over_bytes, over_file};
