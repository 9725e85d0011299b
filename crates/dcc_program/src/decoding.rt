//! `dcc decode`, over a reader and a writer.

ghost use Rattle.std.specs.Prelude.{◌≡◌, ◌≢◌, ◌⊎◌, IfErr, OnOk};
ghost use Rattle.std.specs.Io.KnownBytes.{Keeps};
ghost use Rattle.dcc_decode.specs.Decodings.{IsWritten, IsBegun};
ghost use Rattle.dcc_program.specs.Failures.{IsDecodeFailure};
ghost use Rattle.dcc_program.specs.declared.failure.Failure.TheVariants.{Io};

use crate::failure::Failure;
use dcc_decode::decode_run;
use std::alloc::Global;
use std::io::{Read, Write};

/// Writes the messages of the input as trees of names and values, and its other lines as they are.
///
/// No input is at fault. If the writer fails, a beginning is written.
pub fn decode<R: Read, W: Write>(
    alloc: Global,
    input: &mut R,
    output: &mut W,
) -> Result<(), Failure>
    ensures whole { OnOk result (IsWritten (R.remaining input.old) (W.contents output.old) (W.contents output.new)) }
    ensures failure { IfErr result IsDecodeFailure }
    ensures silent { IfErr result (λ failure. failure ≢ Io → Keeps (W.contents output.old) (W.contents output.new)) }
    ensures part { IfErr result (λ failure. failure ≡ Io → Keeps (W.contents output.old) (W.contents output.new)
        ⊎ IsBegun (R.remaining input.old) (W.contents output.old) (W.contents output.new)) }
{
    decode_run(alloc, input, output)?;
    Ok(())
}
