// Examples worked out by hand, which the definitions come to by computation.
ghost use Rattle.std.specs.Prelude.{◌≡◌};
ghost use Rattle.worked.specs.Examples.{example_count, WorkedExamples};

// The rows of all tables of examples.
const ROWS: usize = 90;

/// How many examples there are: lines of verdicts, runs, and words that are printed.
pub fn worked_examples() -> usize
    ensures count { result ≡ example_count }
    ensures hold { WorkedExamples }
{
    ROWS
}
