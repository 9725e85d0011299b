//! The places of gateways.

ghost use Rattle.std.specs.Prelude.{◌≡◌, false, true, Some, None, IfSome, IfNone};
ghost use Rattle.dcc_rounds.specs.Handing.{ReadsOut};
ghost use Rattle.dcc_rounds.specs.Visiting.{IsVisit, Serves, Visit};
ghost use Rattle.dcc_rounds.specs.Writing.{WritesOut};

use crate::face::{Connection, Listener, Notice, Notices, Shut};
use crate::lanes::leave_all;
use crate::reader::{Reader, read_gate};
use crate::tasks::Shared;
use crate::writer::{Ending, write_gate};
use dcc_base::Peer;
use dcc_connect::{Clock, ConnectionEnd, Item, WriteEnd};
use dcc_lane::Receiver;
use dcc_running::Naming;
use dcc_store::Records;
use std::io::Read;
use std::sync::Wait;
use std::thread::{Threads, join_mut};

/// A place for gateways, which come one after another: the ends of lanes of its reader and of its writer.
#[derive(Drop)]
pub(crate) struct Place<I, O> {
    /// The gateway that came before the round began, if the round's gateways come before it begins.
    pub first: Option<Connection<I, O>>,
    /// Whether the place is taken again once its gateway has gone.
    pub stays: bool,
    pub reader: Reader,
    /// The lane that its writer takes of.
    pub from: Receiver<Item>,
    /// So many answers went out whole.
    pub answers: u64,
}

impl<I: Read + Send + Drop, O: Shut + Send + Drop> Place<I, O> {
    /// Serves one gateway after another, and says behind the last that nothing more is put.
    pub fn run<
        W: Threads + Wait + Sync,
        R: Records + Send + Sync + Drop,
        J: Naming + Send + Sync,
        L: Listener<I, O> + Sync,
        C: Clock + Copy + Sync,
        N: Notices + Sync,
    >(&mut self, rt: &W, shared: &Shared<'_, R, J, L, C, N>)
        ensures { Serves I.remaining O.contents C.tells L.is_closed shared.now.clock.now
            (record { plan = shared.now.plan.now; identity = shared.now.identity.now }) shared.now.count self.old self.new }
    {
        for _ in rt.forever() {
            let Some(connection) = self.next(rt, shared) else {
                leave_all(rt, &mut self.reader.workers);
                return;
            };
            self.visit(rt, shared, connection);
        }
        unreachable!()
    }

    /// The next gateway, if a gateway comes.
    fn next<W: Wait, R: Records, J: Naming, L: Listener<I, O>, C, N: Notices>(
        &mut self,
        rt: &W,
        shared: &Shared<'_, R, J, L, C, N>,
    ) -> Option<Connection<I, O>>
        ensures first { IfSome self.old.first (λ first. result ≡ Some first) }
        ensures once { self.old.first ≡ None → self.old.stays ≡ false → result ≡ None }
        ensures closed { self.old.first ≡ None → self.old.stays ≡ true → IfNone result L.is_closed }
        ensures taken { self.new.first ≡ None }
        ensures reader { self.new.reader ≡ self.old.reader }
        ensures from { self.new.from ≡ self.old.from }
        ensures stays { self.new.stays ≡ self.old.stays }
        ensures answers { self.new.answers ≡ self.old.answers }
    {
        if let Some(first) = self.first.take() {
            return Some(first);
        }
        if !self.stays {
            return None;
        }
        let connection = shared.listener.enter(rt, self.reader.gate)?;
        tell_came(rt, shared.notices, self.reader.gate, &connection);
        Some(connection)
    }

    /// Serves a gateway until it has gone: its reader and its writer run in threads of their own.
    fn visit<
        W: Threads + Wait + Sync,
        R: Records + Send + Sync + Drop,
        J: Naming + Send + Sync,
        L: Listener<I, O> + Sync,
        C: Clock + Copy + Sync,
        N: Notices + Sync,
    >(&mut self, rt: &W, shared: &Shared<'_, R, J, L, C, N>, connection: Connection<I, O>)
        ensures visit { (visit : Visit I O) × (visit.came ≡ connection) × IsVisit I.remaining O.contents C.tells L.is_closed shared.now.clock.now
            (record { plan = shared.now.plan.now; identity = shared.now.identity.now }) shared.now.count self.old visit self.new }
        ensures first { self.new.first ≡ self.old.first }
        ensures stays { self.new.stays ≡ self.old.stays }
    {
        let Connection {
            input,
            output,
            name: _,
        } = connection;
        let mut input = input;
        let mut ending = Ending { output };
        let gate = self.reader.gate;
        self.reader.peer = Peer::Wait;
        let reader = &mut self.reader;
        let from = &mut self.from;
        // Each by itself, so that the writer's thread takes nothing else of what is shared.
        let (alloc, notices) = (shared.alloc, shared.notices);
        let mut write = || -> WriteEnd
            ensures { WritesOut result from.entry.now from.exit.now (O.contents ending.entry.output) (O.contents ending.exit.output) }
        { write_gate(rt, alloc, notices, gate, &mut ending, from) };
        let mut read = || -> ConnectionEnd
            ensures { ReadsOut C.tells shared.entry.now.clock.now (record { plan = shared.entry.now.plan.now; identity = shared.entry.now.identity.now })
                shared.entry.now.count result (I.remaining input.entry) (I.remaining input.exit) reader.entry.now reader.exit.now }
        { read_from(rt, shared, &mut input, reader) };
        // The writer comes first: if no thread can be made, it runs behind the reader, which ends by itself.
        let (written, _read) = join_mut(rt, &mut write, &mut read);
        self.answers = self.answers.saturating_add(written.answers);
    }
}

/// Reads a gateway's messages as the others of a round are read.
fn read_from<W: Wait, R: Records, J: Naming, L, I: Read, C: Clock + Copy, N: Notices>(
    rt: &W,
    shared: &Shared<'_, R, J, L, C, N>,
    input: &mut I,
    reader: &mut Reader,
) -> ConnectionEnd
    ensures { ReadsOut C.tells shared.now.clock.now (record { plan = shared.now.plan.now; identity = shared.now.identity.now }) shared.now.count result
        (I.remaining input.old) (I.remaining input.new) reader.old reader.new }
{
    read_gate(
        rt,
        shared.alloc,
        shared.plan,
        shared.identity,
        shared.shards,
        shared.clock,
        shared.notices,
        input,
        reader,
    )
}

/// Reports that a gateway came to a place.
pub(crate) fn tell_came<W: Wait, I, O, N: Notices>(
    rt: &W,
    notices: &N,
    gate: usize,
    connection: &Connection<I, O>,
) {
    let name = connection.name.as_slice();
    let gate = gate.saturating_add(1);
    notices.tell(rt, Notice::Came { gate, name });
}
