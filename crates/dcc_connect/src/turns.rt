//! A turn of the reader.

ghost use Rattle.std.specs.Prelude.{◌≡◌, ◌≤◌, ◌<◌, length, take, [], IfSome, IfNone, option_map};
ghost use Rattle.std.specs.Io.KnownBytes.{Consumes, IsAtEnd};
ghost use Rattle.dcc_connect.specs.inner.Steps.{TakesPiece, Nexts};

use crate::fault::ConnectFault;
use crate::laws::stream_laws;
use dcc_message::{Framer, read_header};
use dcc_octets::OctetString;
use std::io::{ErrorKind, Read};

/// The number of octets that a call of the reader asks for.
pub(crate) const PIECE: usize = 4096;

/// The number of calls in a turn: an interrupted call is repeated up to this number, the first call included.
pub(crate) const MOST_CALLS: u32 = 16;

/// The result of a turn of the reader.
#[derive(Clone, Copy, Debug, PartialEq, Eq)]
pub(crate) enum Turn {
    /// Octets, with which the framer was fed.
    Fed,
    /// The reader's end.
    End,
}

/// One turn of the reader, over this buffer. The framer is fed with all octets that the reader gave, or with none if memory is refused.
pub(crate) fn read_turn<I: Read>(
    input: &mut I,
    framer: &mut Framer,
    piece: &mut [u8; PIECE],
) -> Result<Turn, ConnectFault>
    ensures { TakesPiece result (I.remaining input.old) (I.remaining input.new) framer.old framer.new }
{
    match read_once(input, piece) {
        None => Err(ConnectFault::Read),
        Some(0) => Ok(Turn::End),
        Some(count) => match framer.feed(&piece[..count]) {
            Ok(()) => Ok(Turn::Fed),
            Err(_) => Err(ConnectFault::Memory),
        },
    }
}

/// The number of octets that the reader gave, 0 at its end; none if it failed.
fn read_once<I: Read>(input: &mut I, piece: &mut [u8]) -> Option<usize>
    requires { 0 < length piece.old }
    ensures bound { IfSome result (λ count. count ≤ length piece.new) }
    ensures octets { IfSome result (λ count. Consumes (I.remaining input.old) (I.remaining input.new) (take count piece.new)) }
    ensures end { IfSome result (λ count. count ≡ 0 → IsAtEnd (I.remaining input.new)) }
    ensures none { IfNone result (Consumes (I.remaining input.old) (I.remaining input.new) []) }
{
    for _ in 0..MOST_CALLS {
        match input.read(piece) {
            Ok(count) => return Some(count),
            Err(error) => {
                if error.kind() != ErrorKind::Interrupted {
                    return None;
                }
            }
        }
    }
    None
}

/// Takes the next whole message off the framer, and checks its header; none if there is no whole message.
pub(crate) fn next_message(framer: &mut Framer) -> Result<Option<OctetString>, ConnectFault>
    ensures { Nexts result framer.old framer.new }
{
    stream_laws();
    let Some(message) = framer.next()? else {
        return Ok(None);
    };
    read_header(&message)?;
    Ok(Some(OctetString::from_vec(message)))
}
