// Callers that rely on what the contract of a check and of a step promises, part by part, and on
// nothing else.
#![tactic(auto)]

mod files;
mod judging;
mod relying;

pub use files::{short_count, stepped_file};
pub use judging::{
    first_height, height_reached, hosts_agree, keeps_parts, refusal_of, refused_at, same_heights,
};
pub use relying::{
    Seen, open_step_collect, step_and_look, step_beside_totals, step_explained, step_in_place,
    step_measured,
};
