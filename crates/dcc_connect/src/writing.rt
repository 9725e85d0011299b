//! The writer's side of a connection.

ghost use Rattle.std.specs.Prelude.{◌≡◌, ◌+◌, ◌-◌, ◌≤◌, ◌<◌, ◌^◌, [], nat_lt, None, length};
ghost use Rattle.dcc_lane.specs.Ends.{senders_of, taken_of, IsSameReceiver, TakesOne};
ghost use Rattle.dcc_connect.specs.Writing.{TakesAndWrites};
ghost use Rattle.dcc_connect.specs.inner.Gathers.{Flushes, MayFlush, Gathers, GathersOctets};
ghost use Rattle.dcc_connect.specs.inner.Items.{WritesOctets, last_fault};

use crate::fault::ConnectFault;
use crate::gathering::Gathered;
use crate::sending::{Tally, send};
use dcc_lane::Receiver;
use dcc_octets::OctetString;
use std::alloc::Global;
use std::io::Write;
use std::sync::Wait;

/// An item in the lane of a writer.
#[derive(Debug, Drop)]
pub enum Item {
    /// The octets of one answer.
    Octets(OctetString),
    /// One of the lane's senders puts nothing more.
    End,
}

/// The end of the writer's side of a connection.
#[derive(Clone, Copy, Debug, PartialEq, Eq)]
pub struct WriteEnd {
    /// The first fault: the writer's, with the number of octets that went out, or the used-up turns. Without a fault, the octets of all
    /// taken items went out, and every sender ended.
    pub fault: Option<ConnectFault>,
    /// The number of items whose octets went out whole.
    pub answers: u64,
    /// The number of the lane's senders that have ended: all of them, unless the turns were used up before.
    pub ended: usize,
}

/// Takes items of a lane and writes their octets, in order, until every sender has ended. The items that are in the lane at one time go out
/// in one call of the writer, up to 16,384 octets, unless memory is refused. No octets are held back while the lane is empty. A turn is one
/// taken item, or one call of the writer, which is given at most 65,536 octets. An interrupted call is repeated in the same turn; at the
/// 16th interruption of a turn it has failed. After a fault of the writer nothing more is written; items are still taken, and dropped,
/// until every sender has ended or the turns are used up. The function waits when the lane or the writer waits.
///
/// Faults: [`ConnectFault::Write`], the writer failed or took no octet; [`ConnectFault::TooManyTurns`], the turns were used up before
/// every sender had ended, and no fault came before: only octets of the last taken item can be missing.
pub fn write_side<W: Wait, O: Write>(
    rt: &W,
    alloc: Global,
    output: &mut O,
    from: &mut Receiver<Item>,
    turns: u32,
) -> WriteEnd
    ensures same { IsSameReceiver from.old from.new }
    ensures written { TakesAndWrites result (senders_of from.old) turns (O.contents output.old) (O.contents output.new) (taken_of from.old) (taken_of from.new) }
{
    let senders = from.senders();
    let mut tally = Tally::new(turns);
    let mut progress = Progress::new();
    let mut gathered = Gathered::new(alloc);
    for turn in 0..turns {
        prove!(turn < turns);
        if progress.ended >= senders {
            break;
        }
        leave_turns(output, &mut gathered, &mut tally, &mut progress);
        if !tally.spend() {
            break;
        }
        let item = take_next(rt, output, from, &mut gathered, &mut tally, &mut progress);
        from.ring();
        gather(output, item, &mut gathered, &mut tally, &mut progress);
    }
    flush(output, &mut gathered, &mut tally, &mut progress);
    progress.end(senders)
}

/// Sends the gathered octets if, behind the next turn, there would not be a turn for each of them.
fn leave_turns<O: Write>(
    output: &mut O,
    gathered: &mut Gathered,
    tally: &mut Tally,
    progress: &mut Progress,
)
    requires turns { length gathered.old.octets.items ≤ tally.old.left }
    requires answers { progress.old.answers + length gathered.old.ends.items < 2 ^ 64 }
    ensures turns { length gathered.new.octets.items ≤ tally.new.left - 1 }
    ensures sent { MayFlush gathered.old gathered.new progress.old progress.new (O.contents output.old) (O.contents output.new)
        (record { left = tally.old.left; written = tally.old.written }) (record { left = tally.new.left; written = tally.new.written }) }
{
    if gathered.octets.len() >= tally.left as usize {
        flush(output, gathered, tally, progress);
    }
}

/// Takes the next item. If the lane is empty, the gathered octets go out before it waits.
fn take_next<W: Wait, O: Write>(
    rt: &W,
    output: &mut O,
    from: &mut Receiver<Item>,
    gathered: &mut Gathered,
    tally: &mut Tally,
    progress: &mut Progress,
) -> Item
    requires turns { length gathered.old.octets.items ≤ tally.old.left }
    requires answers { progress.old.answers + length gathered.old.ends.items < 2 ^ 64 }
    ensures same { IsSameReceiver from.old from.new }
    ensures taken { TakesOne from.old result from.new }
    ensures sent { MayFlush gathered.old gathered.new progress.old progress.new (O.contents output.old) (O.contents output.new)
        (record { left = tally.old.left; written = tally.old.written }) (record { left = tally.new.left; written = tally.new.written }) }
{
    if let Some(item) = from.try_take(rt) {
        return item;
    }
    flush(output, gathered, tally, progress);
    from.take(rt)
}

/// Counts the end of a sender, or gathers an item's octets, as `gather_octets` does.
fn gather<O: Write>(
    output: &mut O,
    item: Item,
    gathered: &mut Gathered,
    tally: &mut Tally,
    progress: &mut Progress,
)
    requires turns { length gathered.old.octets.items ≤ tally.old.left }
    requires ended { progress.old.ended + 1 < 2 ^ 64 }
    requires answers { progress.old.answers + length gathered.old.ends.items + 1 < 2 ^ 64 }
    ensures { Gathers item gathered.old gathered.new progress.old progress.new (O.contents output.old) (O.contents output.new)
        (record { left = tally.old.left; written = tally.old.written }) (record { left = tally.new.left; written = tally.new.written }) }
{
    match item {
        Item::End => progress.ended += 1,
        Item::Octets(octets) => {
            gather_octets(output, octets.as_slice(), gathered, tally, progress);
        }
    }
}

/// Gathers octets if they fit. Otherwise the gathered octets go out, and these octets behind them.
fn gather_octets<O: Write>(
    output: &mut O,
    octets: &[u8],
    gathered: &mut Gathered,
    tally: &mut Tally,
    progress: &mut Progress,
)
    requires turns { length gathered.old.octets.items ≤ tally.old.left }
    requires answers { progress.old.answers + length gathered.old.ends.items + 1 < 2 ^ 64 }
    ensures { GathersOctets octets.now gathered.old gathered.new progress.old progress.new (O.contents output.old) (O.contents output.new)
        (record { left = tally.old.left; written = tally.old.written }) (record { left = tally.new.left; written = tally.new.written }) }
{
    if progress.fault.is_none() && gathered.add(octets, tally.left) {
        return;
    }
    flush(output, gathered, tally, progress);
    write_octets(output, octets, tally, progress);
}

/// Sends the gathered octets, in one call of the writer if it takes all. The condition: there is a turn for each octet.
fn flush<O: Write>(
    output: &mut O,
    gathered: &mut Gathered,
    tally: &mut Tally,
    progress: &mut Progress,
)
    requires turns { length gathered.old.octets.items ≤ tally.old.left }
    requires answers { progress.old.answers + length gathered.old.ends.items < 2 ^ 64 }
    ensures octets { gathered.new.octets.items ≡ [] }
    ensures ends { gathered.new.ends.items ≡ [] }
    ensures sent { Flushes gathered.old.octets.items gathered.old.ends.items progress.old progress.new (O.contents output.old) (O.contents output.new)
        (record { left = tally.old.left; written = tally.old.written }) (record { left = tally.new.left; written = tally.new.written }) }
{
    let before = tally.written;
    let sent = send(output, gathered.octets.as_slice(), tally);
    progress.answers += gathered.whole(tally.written - before);
    if let Err(fault) = sent {
        progress.fault = Some(fault);
    }
    gathered.octets.clear();
    gathered.ends.clear();
}

/// The progress of a writer's side.
#[derive(Drop)]
struct Progress {
    /// The number of senders that have ended.
    pub ended: usize,
    /// The number of items whose octets went out whole.
    pub answers: u64,
    pub fault: Option<ConnectFault>,
}

impl Progress {
    fn new() -> Progress
        ensures { result ≡ record { ended = 0; answers = 0; fault = None } }
    {
        Progress {
            ended: 0,
            answers: 0,
            fault: None,
        }
    }

    /// The end of a side that takes nothing more of a lane with so many senders.
    fn end(self, senders: usize) -> WriteEnd
        ensures fault { result.fault ≡ last_fault self.fault (nat_lt self.ended senders) }
        ensures answers { result.answers ≡ self.answers }
        ensures ended { result.ended ≡ self.ended }
    {
        let fault = match self.fault {
            Some(fault) => Some(fault),
            None if self.ended < senders => Some(ConnectFault::TooManyTurns),
            None => None,
        };
        WriteEnd {
            fault,
            answers: self.answers,
            ended: self.ended,
        }
    }
}

/// Writes octets, or drops them if there was a fault before.
fn write_octets<O: Write>(output: &mut O, octets: &[u8], tally: &mut Tally, progress: &mut Progress)
    requires { progress.old.answers + 1 < 2 ^ 64 }
    ensures { WritesOctets progress.old.fault octets.now progress.old progress.new (O.contents output.old) (O.contents output.new)
        (record { left = tally.old.left; written = tally.old.written }) (record { left = tally.new.left; written = tally.new.written }) }
{
    if progress.fault.is_none() {
        match send(output, octets, tally) {
            Ok(()) => progress.answers += 1,
            Err(fault) => progress.fault = Some(fault),
        }
    }
}
