//! The writer of a gateway.

ghost use Rattle.std.specs.Prelude.{◌≤◌};
ghost use Rattle.dcc_lane.specs.Ends.{IsSameReceiver, senders_of, taken_of};
ghost use Rattle.dcc_rounds.specs.Writing.{TakesRest, WritesOut};

use crate::face::{Notice, Notices, Shut, Sign};
use crate::reader::TURNS;
use dcc_connect::{Item, WriteEnd, write_side};
use dcc_lane::Receiver;
use std::alloc::Global;
use std::io::{self, ErrorKind, Write};
use std::sync::Wait;

/// The output of a gateway. It ends the connection as soon as a write fails, so that its reader ends too.
#[derive(Drop)]
pub(crate) struct Ending<O> {
    pub output: O,
}

impl<O: Shut> Write for Ending<O> {
    ghost contents = { λ ending. O.contents ending.output };

    fn write(&mut self, buf: &[u8]) -> io::Result<usize> {
        match self.output.write(buf) {
            Ok(0) => {
                self.output.shut();
                Ok(0)
            }
            Ok(count) => Ok(count),
            Err(error) => {
                if error.kind() != ErrorKind::Interrupted {
                    self.output.shut();
                }
                Err(error)
            }
        }
    }

    fn flush(&mut self) -> io::Result<()> {
        self.output.flush()
    }
}

/// Writes the answers to a gateway until all that answer it have ended, and ends the connection behind them. Behind the last turn it still
/// takes items, so that nobody waits for room in its lane.
pub(crate) fn write_gate<W: Wait, O: Shut, N: Notices>(
    rt: &W,
    alloc: Global,
    notices: &N,
    gate: usize,
    ending: &mut Ending<O>,
    from: &mut Receiver<Item>,
) -> WriteEnd
    ensures written { WritesOut result from.old from.new (O.contents ending.old.output) (O.contents ending.new.output) }
    ensures shut { O.is_shut ending.new.output }
{
    notices.sign(gate, Sign::Writes);
    let end = write_side(rt, alloc, ending, from, TURNS);
    ending.output.shut();
    let gate = gate.saturating_add(1);
    notices.tell(rt, Notice::Written { gate, end });
    drop_rest(rt, from, end.ended);
    end
}

/// Takes items and drops them until all senders have ended, of which so many have ended before.
fn drop_rest<W: Wait>(rt: &W, from: &mut Receiver<Item>, ended: usize)
    requires { ended ≤ senders_of from.old }
    ensures same { IsSameReceiver from.old from.new }
    ensures taken { TakesRest ended (senders_of from.old) (taken_of from.old) (taken_of from.new) }
{
    let senders = from.senders();
    let mut ended = ended;
    for _ in rt.forever() {
        if ended >= senders {
            return;
        }
        match from.take(rt) {
            Item::End => ended += 1,
            Item::Octets(_) => {}
        }
    }
    unreachable!()
}
