// Faults in the numbers of their table.
ghost use Rattle.std.specs.Prelude.{◌≡◌};
ghost use Rattle.samples.specs.Faults.{numbered};

use values::Fault;

/// An answer, with a fault as its number and its place, as the table of faults has them.
pub fn in_numbers<T>(answer: Result<T, Fault>) -> Result<T, (u8, usize)>
    ensures { result ≡ numbered answer }
{
    answer.map_err(|fault| (fault.number(), fault.place()))
}
