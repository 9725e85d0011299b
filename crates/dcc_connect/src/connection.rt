//! A whole connection, served by one thread.

ghost use Rattle.dcc_connect.specs.Clocks.{timed};
ghost use Rattle.dcc_connect.specs.Reading.{EndsAtEnd};
ghost use Rattle.dcc_connect.specs.Serving.{ReadsAndServes};
ghost use Rattle.dcc_connect.specs.inner.Answering.{AnswersReady};

use crate::fault::{ConnectFault, ConnectionEnd};
use crate::handing::Clock;
use crate::laws::stream_laws;
use crate::sending::{Tally, send};
use crate::turns::{PIECE, Turn, next_message, read_turn};
use dcc_act::Moment;
use dcc_base::Reply;
use dcc_message::Framer;
use std::alloc::Global;
use std::io::{Read, Write};

/// Answers a connection's messages, one after another.
pub trait Answerer {
    ghost use Rattle.std.specs.Prelude.{ℕ, List};
    ghost use Rattle.dcc_base.specs.declared.reply.Reply.{Reply};

    /// The relation of an answered message: the answerer before it, the moment, the message's octets, the reply, and the answerer after it.
    ghost answers: { Self → ℕ → List ℕ → Reply → Self → Type 0 };

    /// Answers one whole message, at this moment.
    fn answer(&mut self, moment: Moment, message: &[u8]) -> Reply
        ensures { answers self.old moment message.now result self.new };
}

/// Serves a connection: answers the messages in the octets that it reads, in order and each once, and writes each answer's octets before
/// the next message is answered. It ends when the reader ends, the connection closes behind an answer, a fault comes, or the turns are
/// used up. A turn is one call of the reader or the writer; the writer is given at most 65,536 octets. An interrupted call is repeated in
/// the same turn; at the 16th interruption of a turn it has failed. A rest of less than a message is dropped at the end. The function
/// waits when the reader or the writer waits.
///
/// Faults: [`ConnectFault::Read`](crate::ConnectFault), the reader failed; `Write`, the writer failed or took no octet, after so many
/// octets of the answers, and nothing was written after it; `TooManyTurns`, the turns were used up; `Header`, a message's header can't
/// be read or its length field is invalid, and the messages before it were answered; `Memory`, memory was short for the octets that
/// were read last, of which nothing was answered.
pub fn serve_connection<I: Read, O: Write, C: Clock, A: Answerer>(
    alloc: Global,
    input: &mut I,
    output: &mut O,
    clock: &mut C,
    answerer: &mut A,
    turns: u32,
) -> ConnectionEnd
    ensures served { ReadsAndServes (timed C.tells A.answers) result turns (I.remaining input.old) (I.remaining input.new)
        (O.contents output.old) (O.contents output.new) (answerer.old, clock.old) (answerer.new, clock.new) }
    ensures end { EndsAtEnd result (I.remaining input.new) }
{
    stream_laws();
    let mut framer = Framer::new(alloc);
    let mut piece = [0u8; PIECE];
    let mut tally = Tally::new(turns);
    for turn in 0..turns {
        prove!(turn < turns);
        if !tally.spend() {
            return ConnectionEnd::Fault(ConnectFault::TooManyTurns);
        }
        match read_turn(input, &mut framer, &mut piece) {
            Err(fault) => return ConnectionEnd::Fault(fault),
            Ok(Turn::End) => return ConnectionEnd::End,
            Ok(Turn::Fed) => {}
        }
        if let Err(end) = answer_ready(output, &mut framer, clock, answerer, &mut tally) {
            return end;
        }
    }
    ConnectionEnd::Fault(ConnectFault::TooManyTurns)
}

/// Answers the whole messages that the framer holds, each after the answer before it went out.
fn answer_ready<O: Write, C: Clock, A: Answerer>(
    output: &mut O,
    framer: &mut Framer,
    clock: &mut C,
    answerer: &mut A,
    tally: &mut Tally,
) -> Result<(), ConnectionEnd>
    ensures { AnswersReady (timed C.tells A.answers) result framer.old framer.new (answerer.old, clock.old) (answerer.new, clock.new)
        (O.contents output.old) (O.contents output.new)
        (record { left = tally.old.left; written = tally.old.written }) (record { left = tally.new.left; written = tally.new.written }) }
{
    while let Some(message) = next_message(framer)? {
        let reply = answerer.answer(clock.moment(), message.as_slice());
        send(output, reply.octets.as_slice(), tally)?;
        if reply.close {
            return Err(ConnectionEnd::Closed);
        }
    }
    Ok(())
}
