//! A whole text into a writer.

ghost use Rattle.std.specs.Prelude.{◌≤◌, length, take, IfErr, OnOk};
ghost use Rattle.std.specs.Io.KnownBytes.{Appends};

use std::io::{ErrorKind, Write};

/// Why a text isn't written whole.
#[derive(Clone, Copy, Debug, PartialEq, Eq)]
pub struct WriteFault {
    /// The number of octets that the writer took, from the first on. It took all if only the flush failed.
    pub written: usize,
}

/// Writes a whole text, and flushes the writer. A write may take fewer octets than it is given. A write that takes none has
/// failed. An interrupted write is repeated.
pub fn write_all<W: Write>(output: &mut W, text: &[u8]) -> Result<(), WriteFault>
    ensures whole { OnOk result (Appends (W.contents output.old) (W.contents output.new) text.now) }
    ensures part { IfErr result (λ fault. (fault.written ≤ length text.now)
        × Appends (W.contents output.old) (W.contents output.new) (take fault.written text.now)) }
{
    let written = taken(output, text);
    if written < text.len() || output.flush().is_err() {
        return Err(WriteFault { written });
    }
    Ok(())
}

/// The number of octets of a text, from the first on, that the writer took until it had all or failed.
fn taken<W: Write>(output: &mut W, text: &[u8]) -> usize
    ensures within { result ≤ length text.now }
    ensures octets { Appends (W.contents output.old) (W.contents output.new) (take result text.now) }
{
    let mut written = 0;
    for _ in 0..u64::MAX {
        if written == text.len() {
            break;
        }
        match output.write(&text[written..]) {
            Ok(0) => break,
            Ok(n) => written += n,
            Err(error) => {
                if error.kind() != ErrorKind::Interrupted {
                    break;
                }
            }
        }
    }
    written
}
