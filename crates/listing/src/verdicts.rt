// What a check found, as a line for a person.
ghost use Rattle.std.specs.Prelude.{Some};
ghost use Rattle.listing.specs.Lines.{line};

use std::fmt;
use values::Fault;

/// The greatest height of what was accepted, or why it was refused.
#[derive(Clone, Copy)]
pub struct Verdict(pub Result<u8, Fault>);

impl fmt::Display for Verdict {
    ghost output = { λ v. Some (line v) };

    fn fmt<W: fmt::Write>(&self, f: &mut fmt::Formatter<W>) -> fmt::Result {
        match self.0 {
            Ok(height) => write!(f, "accepted {height}"),
            Err(fault) => write!(f, "{fault}"),
        }
    }
}
