//! How the program ends if a failure is explained.

ghost use Rattle.std.specs.Prelude.{◌≡◌, ◌++◌, true};
ghost use Rattle.std.specs.Io.KnownBytes.{Appends};
ghost use Rattle.dcc_program.specs.Failures.{status_of_end, line_of_end};

use dcc_program::{Ending, Failure, end};
use dcc_streams::write_all;
use std::io::Write;

/// The end of the program: writes the line of a failure to standard error, as `dcc_program::end` does, and behind it these lines. An empty text adds
/// nothing. The status is the same whatever the lines say.
pub fn end_with<W: Write>(done: Result<(), Failure>, lines: &str, errors: &mut W) -> Ending
    ensures status { result.status ≡ status_of_end done }
    ensures lines { result.is_told ≡ true → Appends (W.contents errors.old) (W.contents errors.new) (line_of_end done ++ lines.now) }
{
    let ending = end(done, errors);
    match write_all(errors, lines.as_bytes()) {
        Ok(()) => ending,
        Err(_) => Ending {
            status: ending.status,
            is_told: false,
        },
    }
}
