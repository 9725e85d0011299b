//! The reader's side of a connection.

ghost use Rattle.dcc_connect.specs.Clocks.{timed};
ghost use Rattle.dcc_connect.specs.Reading.{ReadsAndHands, EndsAtEnd, HandsOn, HandsLast};
ghost use Rattle.dcc_connect.specs.inner.Steps.{HandsReady};

use crate::fault::{ConnectFault, ConnectionEnd};
use crate::handing::{Clock, Handed, Submitter};
use crate::laws::stream_laws;
use crate::turns::{PIECE, Turn, next_message, read_turn};
use dcc_message::Framer;
use std::alloc::Global;
use std::io::Read;
use std::sync::Wait;

/// Hands on the messages in the octets that it reads, in order and each once, until the reader ends, a message closes the connection, a
/// fault comes, or the turns are used up. A turn is one call of the reader. An interrupted call is repeated in the same turn; at the 16th
/// interruption of a turn it has failed. All whole messages that were read are handed on before the next call of the reader. A rest of
/// less than a message is dropped at the end. The function waits when the reader or the submitter waits.
///
/// Faults: [`ConnectFault::Read`], the reader failed; [`ConnectFault::TooManyTurns`], each turn brought octets and no end;
/// [`ConnectFault::Header`], a message's header can't be read or its length field is invalid, and only the messages before it were
/// handed on; [`ConnectFault::Memory`], memory was short for the octets that were read last, of which nothing was handed on.
pub fn read_side<W: Wait, I: Read, C: Clock, S: Submitter>(
    rt: &W,
    alloc: Global,
    input: &mut I,
    clock: &mut C,
    to: &mut S,
    turns: u32,
) -> ConnectionEnd
    ensures handed { ReadsAndHands (timed C.tells S.hands) result turns (I.remaining input.old) (I.remaining input.new)
        (to.old, clock.old) (to.new, clock.new) }
    ensures end { EndsAtEnd result (I.remaining input.new) }
{
    stream_laws();
    let mut framer = Framer::new(alloc);
    let mut piece = [0u8; PIECE];
    for turn in 0..turns {
        prove!(turn < turns);
        match read_turn(input, &mut framer, &mut piece) {
            Err(fault) => return ConnectionEnd::Fault(fault),
            Ok(Turn::End) => return ConnectionEnd::End,
            Ok(Turn::Fed) => {}
        }
        if let Err(end) = hand_ready(rt, &mut framer, clock, to) {
            return end;
        }
    }
    ConnectionEnd::Fault(ConnectFault::TooManyTurns)
}

/// Hands on the whole messages that the framer holds.
fn hand_ready<W: Wait, C: Clock, S: Submitter>(
    rt: &W,
    framer: &mut Framer,
    clock: &mut C,
    to: &mut S,
) -> Result<(), ConnectionEnd>
    ensures { HandsReady (HandsOn (timed C.tells S.hands)) (HandsLast (timed C.tells S.hands)) result framer.old framer.new
        (to.old, clock.old) (to.new, clock.new) }
{
    while let Some(message) = next_message(framer)? {
        match to.hand(rt, clock.moment(), message.as_slice()) {
            Handed::Stays => {}
            Handed::Closes => return Err(ConnectionEnd::Closed),
        }
    }
    Ok(())
}
