//! What the server is given from outside: the source of its connections, and the receiver of its notices.

ghost use Rattle.std.specs.Prelude.{◌≡◌, ℕ, List, IfNone};
ghost use Rattle.dcc_receipts.specs.declared.receipt.Receipt.{Receipt};
ghost use Rattle.dcc_rounds.specs.declared.face.Tick.TheVariants as end;

use dcc_connect::{Clock, ConnectionEnd, WriteEnd};
use dcc_octets::OctetString;
use dcc_receipts::{CloseFault, Receipt};
use dcc_running::{Naming, Seat, Shards};
use dcc_store::Records;
use std::alloc::Global;
use std::io::{self, Write};
use std::sync::Wait;

/// A gateway's connection, in two halves, each for a thread of its own.
#[derive(Drop)]
pub struct Connection<I, O> {
    /// What the gateway sends is read here.
    pub input: I,
    /// What it is sent is written here.
    pub output: O,
    /// Where it came from, as text.
    pub name: OctetString,
}

/// A gateway is owed at most so many answers: those that its writer has to send, and those of requests that workers have. The lane to its writer has room for
/// these, and for an end of each of its senders.
pub const WINDOW: u64 = 240;

/// What is due once a while has passed.
#[derive(Clone, Copy, Debug, PartialEq, Eq)]
pub enum Tick {
    /// Nothing is.
    Nothing,
    /// A sweep of all shards, each with an audit of its worker's receipts.
    Sweep,
    /// An audit of the receipts of each shard's worker.
    Audit,
    /// The end: no more connections are taken in.
    End,
}

/// Who takes connections in, of gateways and of operators.
pub trait Listener<I, O> {
    /// That no more connections are taken in for places.
    ghost is_closed: { Type 0 };

    /// The relation between the receipts of an attendant's seat before and after [`Listener::attend`].
    ghost attends: { List Receipt → List Receipt → Type 0 };

    /// Waits until all of so many threads are here, of which this is one. It may return before, for a reason of its own.
    fn begin<W: Wait>(&self, rt: &W, threads: usize);

    /// The next connection of a round, for the place of this index. It may wait for it.
    fn accept(&mut self, gate: usize) -> io::Result<Connection<I, O>>;

    /// The next connection for the place of this index, which is free, at the call of one thread of several. None once no more are taken in. It may
    /// wait.
    fn enter<W: Wait>(&self, rt: &W, gate: usize) -> Option<Connection<I, O>>
        ensures { IfNone result is_closed };

    /// Waits for a while, and returns what is due behind it.
    fn tick<W: Wait>(&self, rt: &W) -> Tick
        ensures { result ≡ end.End → is_closed };

    /// Serves operators until no more connections are taken in for places, at the call of one thread of several. Each thread has a seat of its own:
    /// the receipts of all calls on the shards go to this seat. Those that it keeps are compared with the books once the round has ended. It may wait.
    fn attend<W: Wait, R: Records, J: Naming, C: Clock + Copy>(
        &self,
        rt: &W,
        alloc: Global,
        shards: &Shards<R, J>,
        clock: C,
        seat: &mut Seat,
    )
        ensures attended { attends seat.old seat.new }
        ensures closed { is_closed };

    /// Whether no more connections are taken in for places because the listener failed.
    fn has_failed(&self) -> bool;
}

/// The half of a connection that is written to, which can end both.
pub trait Shut: Write {
    ghost use Rattle.std.specs.Io.KnownBytes.{Keeps};

    /// That both halves were ended.
    ghost is_shut: { Self → Type 0 };

    /// Ends both halves at once: a reader of the other half finds its end. What was written stays.
    fn shut(&mut self)
        ensures kept { Keeps (Self.contents self.old) (Self.contents self.new) }
        ensures shut { is_shut self.new };
}

/// What happened to a gateway or a shard. Gateways are counted from 1 in each round, shards from 0.
#[derive(Clone, Copy)]
pub enum Notice<'a> {
    /// A gateway came from here.
    Came {
        gate: usize,
        name: &'a [u8],
    },
    /// Its host has this name.
    Host {
        gate: usize,
        host: &'a [u8],
    },
    /// Nothing more is read of it.
    Read {
        gate: usize,
        end: ConnectionEnd,
    },
    /// Nothing more is written to it.
    Written {
        gate: usize,
        end: WriteEnd,
    },
    /// So many receipts of a shard's worker agree with the books. They were compared in so many microseconds, while the shard went on.
    Audited {
        shard: usize,
        receipts: usize,
        micros: u64,
    },
    /// A receipt of a shard's worker disagrees with the books. The round goes on: who hears of it may end it, and its end reports the fault.
    Disagrees {
        shard: usize,
        fault: CloseFault,
    },
}

/// What is counted while a server runs. Shards are counted from 0.
#[derive(Clone, Copy)]
pub enum Event<'a> {
    /// A message of a gateway was read.
    Read {
        message: &'a [u8],
    },
    /// A message was answered with these octets, without a worker.
    Replied {
        octets: &'a [u8],
    },
    /// A shard's worker answered with these octets, so many microseconds after the request was read.
    Answered {
        shard: usize,
        octets: &'a [u8],
        micros: u64,
    },
    /// A shard's worker took so many items together.
    Took {
        shard: usize,
        items: usize,
    },
    /// A shard's worker was asked for a sweep.
    Swept {
        shard: usize,
    },
    /// A call on a shard has this receipt.
    Receipt {
        shard: usize,
        receipt: &'a Receipt,
    },
}

/// A sign of a place, for those who read from its gateway and write to it.
#[derive(Clone, Copy, Debug, PartialEq, Eq)]
pub enum Sign {
    /// The thread that writes to its gateway has begun.
    Writes,
    /// A request of its gateway goes to a worker.
    Asked,
    /// A worker is done with a request of its gateway: its answer was put into the lane to the writer, or there is none.
    Done,
    /// An answer was put into the lane to its writer.
    Put,
}

/// The receiver of notices of what happened, and of events that are counted, from several threads at once.
pub trait Notices {
    /// That it was told of the stop of this shard, counted from 0.
    ghost has_told: { ℕ → Type 0 };

    /// Takes a notice. It may wait.
    fn tell<W: Wait>(&self, rt: &W, notice: Notice<'_>);

    /// Takes the notice that the records of this shard failed, so that it answers busy from then on. It may wait.
    fn tell_stop<W: Wait>(&self, rt: &W, shard: usize)
        ensures { has_told shard };

    /// The number of microseconds since a moment in the past. It takes no memory.
    fn ticks(&self) -> u64;

    /// Counts an event. It takes no memory.
    fn count(&self, event: Event<'_>);

    /// Takes a sign of a place, of which the first has the index 0. It takes no memory, and waits for nothing.
    fn sign(&self, gate: usize, sign: Sign);

    /// Waits until the gateway of this place is owed fewer than [`WINDOW`] answers, by the signs of the place, or takes none any more. So no worker waits
    /// for room in the lane to its writer. It takes no memory.
    fn wait_for_room<W: Wait>(&self, rt: &W, gate: usize);
}
