//! How the program ends: its line on standard error, and its status.

ghost use Rattle.std.specs.Prelude.{◌≡◌, true};
ghost use Rattle.std.specs.Io.KnownBytes.{Appends};
ghost use Rattle.dcc_program.specs.Failures.{status_of_end, line_of_end};

use crate::failure::Failure;
use std::io::Write;

/// How the program ended.
#[derive(Clone, Copy)]
pub struct Ending {
    /// The exit status: 0, or that of the failure.
    pub status: u8,
    /// Whether the line of a failure was written whole. If there was no failure, this is true.
    pub is_told: bool,
}

/// The end of the program: writes the line of a failure to standard error, and gives the exit status. It takes no memory.
pub fn end<W: Write>(done: Result<(), Failure>, errors: &mut W) -> Ending
    ensures status { result.status ≡ status_of_end done }
    ensures line { result.is_told ≡ true → Appends (W.contents errors.old) (W.contents errors.new) (line_of_end done) }
{
    match done {
        Ok(()) => Ending {
            status: 0,
            is_told: true,
        },
        Err(failure) => Ending {
            status: failure.status(),
            is_told: errors.writeln(failure).is_ok(),
        },
    }
}
