// Parcels run in turn over a week file with arithmetic, and every line that is printed of it.
#![tactic(auto)]

mod cells;
mod options;
mod program;
mod relying;
mod running;
mod texts;

pub use cells::{cell_text, print_cells};
pub use options::{Options, Plan, argument_value};
pub use program::{run, run_planned};
pub use relying::{Rest, Watched, run_counted, run_watched};
pub use running::{frame_for, run_parcel};
pub use texts::{CellText, Outcome, Ran, StepText};
