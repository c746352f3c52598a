// A host over the bytes of a week file.
#![tactic(auto)]

mod cells;
mod file;
mod headers;
mod opening;
mod replies;

pub use file::WeekFile;
pub use opening::check_file;
