//! The connections of operators.

ghost use Rattle.std.specs.Prelude.{◌≤◌, IfOk, IfSome, length};

use crate::around::Around;
use crate::closing::Closing;
use crate::door::TURN_SECONDS;
use crate::options::wait_for_connections;
use dcc_port::serve_calls;
use dcc_running::{Naming, Seat, Shards};
use dcc_startup::Copies;
use dcc_store::Records;
use std::alloc::Global;
use std::hash::RandomState;
use std::io;
use std::io::{Eprint, ErrorKind, Read, Write};
use std::net::{Net, SocketAddr, SocketAddrV4, TcpListener, TcpStream};
use std::sync::Wait;
use std::time::{Clock, Duration, Instant};

/// For so many seconds in all the server waits for the octets of an operator's connection, and for so many it waits until octets are taken there.
pub const CALL_SECONDS: u64 = 10;

/// Where operators call the server.
#[derive(Drop)]
pub struct Calls {
    pub(crate) listener: TcpListener,
    /// By which the fields of a call are found.
    pub(crate) keys: RandomState,
}

impl Calls {
    /// Listens at an address for operators. Port 0 takes a port that is free. The fields of a call are found by hashes under these keys.
    ///
    /// Error: the system refuses the address, for instance if it is taken or isn't one of this machine.
    pub fn bind<R: Net<Listener = TcpListener, Stream = TcpStream>>(
        rt: &R,
        address: SocketAddrV4,
        keys: RandomState,
    ) -> io::Result<Calls> {
        let listener = rt.bind(SocketAddr::V4(address))?;
        wait_for_connections(&listener, TURN_SECONDS)?;
        Ok(Calls { listener, keys })
    }

    /// The address that is listened at, with its port.
    ///
    /// Error: the system doesn't report it.
    pub fn address(&self) -> io::Result<SocketAddr> {
        self.listener.local_addr()
    }
}

/// Answers the calls of one connection, until it ends or has waited as long as it may.
///
/// Errors: those of the connection, and want of memory.
pub(crate) fn answer_calls<
    'r,
    R: Clock + Eprint,
    W: Wait,
    S: Records,
    J: Naming,
    K: Copies,
    C: dcc_connect::Clock + Copy,
>(
    alloc: Global,
    shards: &Shards<S, J>,
    clock: C,
    seat: &mut Seat,
    calls: &Calls,
    around: &mut Around<'_, 'r, R, W, K>,
    stream: TcpStream,
) -> io::Result<()> {
    let (rt, closing) = (around.rt, around.closing);
    let (mut input, mut output) = call_halves(around.print, stream, closing)?;
    let mut clock = clock;
    serve_calls(
        rt,
        alloc,
        shards,
        shards.count(),
        &mut clock,
        around,
        seat,
        calls.keys,
        &mut input,
        &mut output,
    )
}

/// One half of an operator's connection: it is read from, or written to, and waits for [`CALL_SECONDS`] in all.
#[derive(Drop)]
pub(crate) struct CallHalf<'r, R> {
    rt: &'r R,
    stream: TcpStream,
    /// For so long it may still wait.
    left: Duration,
    /// When the server is to end: then nothing more is read.
    closing: &'r Closing,
}

/// Both halves of an operator's connection: that which is read, and that which is written.
///
/// Error: the system refuses them.
pub(crate) fn call_halves<'r, R>(
    rt: &'r R,
    stream: TcpStream,
    closing: &'r Closing,
) -> io::Result<(CallHalf<'r, R>, CallHalf<'r, R>)> {
    stream.set_nodelay(true)?;
    let other = stream.try_clone()?;
    let left = Duration::from_secs(CALL_SECONDS);
    let input = CallHalf {
        rt,
        stream: other,
        left,
        closing,
    };
    let output = CallHalf {
        rt,
        stream,
        left,
        closing,
    };
    Ok((input, output))
}

impl<R: Clock> CallHalf<'_, R> {
    /// For how long the next call of the system waits at most.
    ///
    /// Error: the half has waited as long as it may.
    fn turn(&self) -> io::Result<Duration> {
        if self.left.is_zero() {
            return Err(io::Error::from(ErrorKind::TimedOut));
        }
        Ok(self.left.min(Duration::from_secs(TURN_SECONDS)))
    }

    /// Counts the wait since a moment.
    ///
    /// Error: the clock shows none.
    fn has_waited(&mut self, since: Instant) -> io::Result<()> {
        let waited = Instant::now(self.rt)?.duration_since(since);
        self.left = self.left.saturating_sub(waited);
        Ok(())
    }

    /// Reads once. None if no octet came in a turn.
    fn read_turn(&mut self, buf: &mut [u8]) -> io::Result<Option<usize>>
        ensures { IfOk result (λ count. IfSome count (λ count. count ≤ length buf.old)) }
    {
        let turn = self.turn()?;
        self.stream.set_read_timeout(Some(turn))?;
        let since = Instant::now(self.rt)?;
        let read = self.stream.read(buf);
        self.has_waited(since)?;
        match read {
            Ok(count) => Ok(Some(count)),
            Err(error) if error.kind() == ErrorKind::WouldBlock => Ok(None),
            Err(error) => Err(error),
        }
    }
}

impl<R: Clock> Read for CallHalf<'_, R> {
    fn read(&mut self, buf: &mut [u8]) -> io::Result<usize> {
        for _ in 0..u64::MAX {
            if self.closing.is_told() {
                return Ok(0);
            }
            if let Some(count) = self.read_turn(buf)? {
                return Ok(count);
            }
        }
        Err(io::Error::from(ErrorKind::TimedOut))
    }
}

impl<R: Clock> CallHalf<'_, R> {
    /// Writes once. None if no octet was taken in a turn.
    fn write_turn(&mut self, buf: &[u8]) -> io::Result<Option<usize>>
        ensures { IfOk result (λ count. IfSome count (λ count. count ≤ length buf.now)) }
    {
        let turn = self.turn()?;
        self.stream.set_write_timeout(Some(turn))?;
        let since = Instant::now(self.rt)?;
        let written = self.stream.write(buf);
        self.has_waited(since)?;
        match written {
            Ok(count) => Ok(Some(count)),
            Err(error) if error.kind() == ErrorKind::WouldBlock => Ok(None),
            Err(error) => Err(error),
        }
    }
}

impl<R: Clock> Write for CallHalf<'_, R> {
    fn write(&mut self, buf: &[u8]) -> io::Result<usize> {
        for _ in 0..u64::MAX {
            if let Some(count) = self.write_turn(buf)? {
                return Ok(count);
            }
            // A server that is to end gives an answer one turn.
            if self.closing.is_told() {
                return Err(io::Error::from(ErrorKind::TimedOut));
            }
        }
        Err(io::Error::from(ErrorKind::TimedOut))
    }

    fn flush(&mut self) -> io::Result<()> {
        self.stream.flush()
    }
}
