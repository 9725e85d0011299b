//! A whole text from a reader.

ghost use Rattle.std.specs.Prelude.{◌≡◌, IfOk, IfSome};
ghost use Rattle.std.specs.Io.KnownBytes.{IsAtEnd};
ghost use Rattle.dcc_streams.specs.declared.reading.ReadFault.TheVariants as fault;

use std::alloc::{AllocError, Global};
use std::io::{ErrorKind, Read};

/// The octets that one read asks for.
const PIECE: usize = 4096;

/// The most reads of a text in the program.
pub const MOST_READS: u32 = u32::MAX;

/// Why a text isn't read whole.
#[derive(Clone, Copy, Debug, PartialEq, Eq)]
pub enum ReadFault {
    /// Memory was short.
    Memory,
    /// The reader failed, or it had not ended after the given number of reads.
    Io,
}

impl From<AllocError> for ReadFault {
    ghost from_gives = { λ _ given. given ≡ fault.Memory };

    fn from(_error: AllocError) -> ReadFault {
        ReadFault::Memory
    }
}

/// All octets that a reader gives up to its end. The fault is `Io` if the reader fails or has not ended after `reads` reads, and
/// `Memory` if memory is short, also within the reader. An interrupted read is repeated, and counts as a read.
pub fn read_all<R: Read>(alloc: Global, input: &mut R, reads: u32) -> Result<Vec<u8>, ReadFault>
    ensures whole { IfOk result (λ text. IfSome (R.remaining input.old) (λ given. text.items ≡ given)) }
    ensures end { IfOk result (λ _. IsAtEnd (R.remaining input.new)) }
{
    let mut text = Vec::new(alloc);
    let mut piece = [0; PIECE];
    for _ in 0..reads {
        match input.read(&mut piece) {
            Ok(0) => return Ok(text),
            Ok(n) => text.extend_from_slice(&piece[..n])?,
            Err(error) => match error.kind() {
                ErrorKind::Interrupted => {}
                ErrorKind::OutOfMemory => return Err(ReadFault::Memory),
                _ => return Err(ReadFault::Io),
            },
        }
    }
    Err(ReadFault::Io)
}
