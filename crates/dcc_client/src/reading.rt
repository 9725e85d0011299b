//! The octets of an answer.

ghost use Rattle.std.specs.Prelude.{◌≡◌, ◌≢◌, ◌≤◌, ℕ, length, IfErr, IfOk, IfSome};
ghost use Rattle.std.specs.Io.KnownBytes.{IsAtEnd};
ghost use Rattle.dcc_client.specs.declared.fault.CallFault.TheVariants.{Unfit};
ghost use Rattle.dcc_client.specs.declared.reading.TheConstants.{MOST_OCTETS};

use crate::fault::CallFault;
use std::alloc::Global;
use std::io::{ErrorKind, Read};

/// The octets that one read asks for.
const PIECE: usize = 16 * 1024;

/// An answer has at most so many octets: a head of 16 KiB and a body of 64 MiB.
pub const MOST_OCTETS: usize = 16 * 1024 + 64 * 1024 * 1024;

/// All octets that a reader gives up to its end. An interrupted read is repeated.
///
/// Errors: [`CallFault::Receiving`], the reader failed, for this reason; [`CallFault::Long`], there are more than [`MOST_OCTETS`];
/// [`CallFault::Memory`].
pub(crate) fn answer_of<R: Read>(alloc: Global, input: &mut R) -> Result<Vec<u8>, CallFault>
    ensures whole { IfOk result (λ text. IfSome (R.remaining input.old) (λ given. text.items ≡ given)) }
    ensures end { IfOk result (λ _. IsAtEnd (R.remaining input.new)) }
    ensures faults { IfErr result (λ fault. (status : ℕ) → fault ≢ Unfit status) }
    ensures limit { IfOk result (λ text. length text.items ≤ MOST_OCTETS) }
{
    let mut text = Vec::new(alloc);
    let mut piece = [0; PIECE];
    for _turn in 0..u64::MAX {
        match input.read(&mut piece) {
            Ok(0) => return Ok(text),
            Ok(n) if n > MOST_OCTETS - text.len() => return Err(CallFault::Long),
            Ok(n) => text.extend_from_slice(&piece[..n])?,
            Err(error) => match error.kind() {
                ErrorKind::Interrupted => {}
                ErrorKind::OutOfMemory => return Err(CallFault::Memory),
                _ => return Err(CallFault::Receiving(error)),
            },
        }
    }
    Err(CallFault::Long)
}
