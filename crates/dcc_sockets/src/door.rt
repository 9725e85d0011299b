//! Where gateways connect.

use crate::around::Around;
use crate::backing::Backing;
use crate::begun::{BEGIN_MILLIS, Begun, is_late};
use crate::calls::{Calls, answer_calls};
use crate::closing::{Staying, remove_stop};
use crate::dues::Dues;
use crate::gateway::{Input, Output, halves};
use crate::notices::NoticeLines;
use crate::options::wait_for_connections;
use crate::place::Place;
use crate::refusal::{Refusal, meaning_of};
use crate::silence::Silence;
use crate::trouble::{Trouble, tell};
use dcc_octets::OctetString;
use dcc_rounds::{Connection, Listener, Tick};
use dcc_running::{Naming, Seat, Shards};
use dcc_startup::{Copies, Counts};
use dcc_store::Records;
use std::alloc::Global;
use std::io::{Eprint, ErrorKind};
use std::net::{Net, SocketAddr, SocketAddrV4, TcpListener, TcpStream};
use std::sync::{Mutex, Wait};
use std::time::{Clock, Duration, Instant};
use std::{fs, io};

/// So many seconds pass before the next try if there is nothing to take a connection in with.
pub const SHORT_SECONDS: u64 = 1;

/// So many seconds a server that stays waits at most before it looks whether it is to end.
pub const TURN_SECONDS: u64 = 1;

/// A listener that is bound to an address of this machine.
#[derive(Drop)]
pub struct Door<'r, R, K: Copies> {
    rt: &'r R,
    alloc: Global,
    listener: TcpListener,
    /// By its counters the halves of a connection hear of the signs of its place.
    backing: Backing<'r, K>,
    /// Where operators call a server that stays.
    calls: Option<Calls>,
    silence: Silence,
    /// Of a server that stays: when it ends, and how often it sweeps.
    staying: Option<Staying<'r>>,
    /// Whether there was nothing to take a connection in with at the last try, which is reported once.
    is_short: bool,
    /// The same for the threads of places, one of which accepts at a time.
    turn: Mutex<bool>,
    /// What is due by time.
    dues: Mutex<Dues>,
    begun: Begun,
}

impl<'r, R: Net<Listener = TcpListener, Stream = TcpStream>, K: Copies> Door<'r, R, K> {
    /// Listens at an address, for gateways that may be silent so long, and for places that are taken again if the server stays. The signs of the places
    /// are counted by its counters. A server that stays may also take calls of operators. Port 0 takes a port that is free.
    ///
    /// Error: the system refuses the address, for instance if it is taken or isn't one of this machine.
    pub fn bind(
        rt: &'r R,
        alloc: Global,
        address: SocketAddrV4,
        backing: Backing<'r, K>,
        silence: Silence,
        staying: Option<Staying<'r>>,
        calls: Option<Calls>,
    ) -> io::Result<Door<'r, R, K>> {
        let listener = rt.bind(SocketAddr::V4(address))?;
        if staying.is_some() {
            wait_for_connections(&listener, TURN_SECONDS)?;
        }
        Ok(Door {
            rt,
            alloc,
            listener,
            backing,
            calls,
            silence,
            staying,
            is_short: false,
            turn: Mutex::new(false),
            dues: Mutex::new(Dues::new()),
            begun: Begun::new(),
        })
    }
}

impl<'r, R, K: Copies> Door<'r, R, K> {
    /// Whether a server that stays is to end.
    fn is_told(&self) -> bool {
        match self.staying {
            Some(staying) => staying.closing.is_told(),
            None => false,
        }
    }

    /// Counts one turn more, and returns what is due: a sweep each `every` seconds, where 0 is never, or else an audit.
    fn due<W: Wait>(&self, rt: &W, every: u64) -> Tick {
        let mut dues = self.dues.lock(rt);
        dues.pass(TURN_SECONDS, every)
    }

    /// The address that is listened at, with its port.
    ///
    /// Error: the system doesn't report it.
    pub fn address(&self) -> io::Result<SocketAddr> {
        self.listener.local_addr()
    }

    /// A connection that was accepted for the place of this index, set up.
    ///
    /// Error: the system refuses that, or memory for the name.
    fn set_up(
        &self,
        gate: usize,
        stream: TcpStream,
        from: SocketAddr,
    ) -> io::Result<Connection<Input<'r, R>, Output<'r, R>>> {
        let name = format!(in self.alloc; "{from}")?;
        let closing = match self.staying {
            Some(staying) => Some(staying.closing),
            None => None,
        };
        let place = Place {
            meters: self.backing.meters,
            gate,
        };
        let (input, output) = halves(self.rt, stream, from, place, self.silence, closing)?;
        Ok(Connection {
            input,
            output,
            name: OctetString::from_vec(name.into_bytes()),
        })
    }
}

impl<'r, R: Clock + Eprint, K: Copies> Door<'r, R, K> {
    /// One try: a connection for the place of this index. None if a connection was lost, which is reported, if none came in time, or, behind a wait, if there is
    /// nothing to take a connection in with.
    ///
    /// Error: the listener takes none any more.
    fn try_accept(
        &self,
        gate: usize,
        is_short: &mut bool,
    ) -> io::Result<Option<Connection<Input<'r, R>, Output<'r, R>>>> {
        match self.listener.accept() {
            Ok((stream, from)) => {
                *is_short = false;
                match self.set_up(gate, stream, from) {
                    Ok(connection) => Ok(Some(connection)),
                    Err(error) => {
                        tell(self.rt, Trouble::Unready { from, error });
                        Ok(None)
                    }
                }
            }
            Err(error) => match self.bear(is_short, error) {
                Ok(()) => Ok(None),
                Err(error) => Err(error),
            },
        }
    }

    /// Reports an error of accepting, and waits if the next try would have the same error.
    ///
    /// Error: this error, if the listener takes no connection any more.
    fn bear(&self, is_short: &mut bool, error: io::Error) -> io::Result<()> {
        match meaning_of(&error) {
            Refusal::Nobody => {}
            Refusal::Lost => tell(self.rt, Trouble::Lost { error }),
            Refusal::Short => {
                if !*is_short {
                    *is_short = true;
                    tell(self.rt, Trouble::Short { error });
                }
                self.rt.sleep(Duration::from_secs(SHORT_SECONDS));
            }
            Refusal::Over => return Err(error),
        }
        Ok(())
    }
}

impl<R: Eprint, K: Copies + Counts> Door<'_, R, K> {
    /// Writes the number of acts of each shard beside its store, if it has grown, and if the call is due or the shard was audited since the last number. A line
    /// reports a number that isn't written.
    fn keep_acts(&self, is_due: bool) {
        let backing = &self.backing;
        for shard in 0..backing.meters.shards() {
            if let Some(acts) = backing.meters.acts_to_keep(shard, is_due)
                && backing
                    .stores
                    .note_acts(backing.folder, shard, acts)
                    .is_err()
            {
                tell(self.rt, Trouble::Uncounted { shard });
            }
        }
    }
}

impl<'r, R: Clock + Eprint, K: Copies + Counts> Listener<Input<'r, R>, Output<'r, R>>
    for Door<'r, R, K> {
    // No clause says what a listener of the system does.
    ghost is_closed = { Unit {0} };

    ghost attends = { λ _ _. Unit {0} };

    /// If the threads don't all come within [`BEGIN_MILLIS`] milliseconds, the system gave too few. A line reports this, and a server that stays is to end.
    fn begin<W: Wait>(&self, rt: &W, threads: usize) {
        let all = self.begun.enter(rt, threads);
        let since = Instant::now(self.rt).ok();
        // A sleep may last longer than it should; without a clock the sleeps are counted.
        for _ in 0..BEGIN_MILLIS {
            if self.begun.have(rt, all) || self.is_told() {
                return;
            }
            if is_late(self.rt, since) {
                break;
            }
            self.rt.sleep(Duration::from_millis(1));
        }
        if self.begun.is_first(rt) {
            tell(self.rt, Trouble::Threads { threads });
        }
        if let Some(staying) = self.staying {
            staying.closing.fail();
        }
    }

    /// A connection that can't be taken in costs that connection alone: it is closed, and a line reports it. If descriptors or memory are
    /// short, the next try is a second later.
    ///
    /// Error: the listener takes none any more.
    fn accept(&mut self, gate: usize) -> io::Result<Connection<Input<'r, R>, Output<'r, R>>> {
        let mut is_short = self.is_short;
        for _ in 0..u64::MAX {
            let tried = self.try_accept(gate, &mut is_short);
            self.is_short = is_short;
            match tried {
                Ok(Some(connection)) => return Ok(connection),
                Ok(None) => {}
                Err(error) => return Err(error),
            }
        }
        Err(io::Error::from(ErrorKind::TimedOut))
    }

    /// As [`Door::accept`], by one thread at a time. If the listener takes none any more, the server is to end.
    fn enter<W: Wait>(
        &self,
        rt: &W,
        gate: usize,
    ) -> Option<Connection<Input<'r, R>, Output<'r, R>>> {
        let staying = self.staying?;
        let mut turn = self.turn.lock(rt);
        for _ in rt.forever() {
            if staying.closing.is_told() {
                return None;
            }
            let mut is_short = *turn;
            let tried = self.try_accept(gate, &mut is_short);
            *turn = is_short;
            match tried {
                Ok(Some(connection)) => return Some(connection),
                Ok(None) => {}
                Err(error) => {
                    tell(self.rt, Trouble::Over { error });
                    staying.closing.fail();
                }
            }
        }
        unreachable!()
    }

    /// Waits a second, and looks whether the server is to end. It removes the file whose presence says so. If receipts disagree with the books, the server is
    /// to end. Else it keeps the number of acts of each shard that was audited meanwhile, and before a sweep or an audit by time that of each shard.
    fn tick<W: Wait>(&self, rt: &W) -> Tick {
        let Some(staying) = self.staying else {
            return Tick::End;
        };
        self.rt.sleep(Duration::from_secs(TURN_SECONDS));
        if remove_stop(staying.stop) {
            staying.closing.tell();
        }
        if self.backing.meters.disagreements() > 0 {
            staying.closing.tell();
        }
        if staying.closing.is_told() {
            return Tick::End;
        }
        let due = self.due(rt, staying.sweep);
        self.keep_acts(due != Tick::Nothing);
        due
    }

    /// Serves one connection of an operator after another, and ends with the server. A fault of a connection ends that connection alone. If the listener takes
    /// none any more, a line reports this, and the server goes on without operators.
    fn attend<W: Wait, S: Records, J: Naming, C: dcc_connect::Clock + Copy>(
        &self,
        rt: &W,
        alloc: Global,
        shards: &Shards<S, J>,
        clock: C,
        seat: &mut Seat,
    ) {
        let (Some(staying), Some(calls)) = (self.staying, &self.calls) else {
            return;
        };
        let backing = &self.backing;
        let mut around = Around {
            print: self.rt,
            lines: NoticeLines::new(self.rt, backing.meters, backing.audits),
            rt,
            closing: staying.closing,
            backing,
        };
        let mut is_short = false;
        for _ in rt.forever() {
            if staying.closing.is_told() {
                return;
            }
            // A receipt is left here only if memory was short for its audit.
            around.audit_all(rt, alloc, shards, seat);
            match calls.listener.accept() {
                Ok((stream, _from)) => {
                    is_short = false;
                    let _fault = answer_calls(
                        alloc,
                        shards,
                        clock,
                        seat,
                        calls,
                        &mut around,
                        stream,
                    );
                }
                Err(error) => match self.bear(&mut is_short, error) {
                    Ok(()) => {}
                    Err(error) => {
                        tell(self.rt, Trouble::Unheard { error });
                        return;
                    }
                },
            }
        }
        unreachable!()
    }

    fn has_failed(&self) -> bool {
        match self.staying {
            Some(staying) => staying.closing.has_failed(),
            None => false,
        }
    }
}
