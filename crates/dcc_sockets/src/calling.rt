//! A client's connection to the operator port of a server.

ghost use Rattle.std.specs.Prelude.{◌≡◌, IfOk, Ok};

use crate::waiting::left_of;
use std::io;
use std::io::{ErrorKind, Read, Write};
use std::net::{Net, SocketAddr, SocketAddrV4, TcpListener, TcpStream};
use std::time::{Clock, Duration, Instant};

/// For so many seconds in all a client waits for a server: to be connected, for its request to be taken, and for the whole answer.
pub const ANSWER_SECONDS: u64 = 30;

/// One half of a client's connection: it is read from, or written to. Both halves fail as `TimedOut` once [`ANSWER_SECONDS`] have passed since the
/// connection was asked for.
#[derive(Drop)]
pub struct CallerHalf<'r, R> {
    rt: &'r R,
    stream: TcpStream,
    /// When the connection was asked for.
    since: Instant,
}

/// Connects to a server, and returns the half that is read, and the half that is written.
///
/// Error: no server listens at the address, the system refuses the connection, or it takes more than [`ANSWER_SECONDS`].
pub fn connect<'r, R: Net<Listener = TcpListener, Stream = TcpStream> + Clock>(
    rt: &'r R,
    address: SocketAddrV4,
) -> io::Result<(CallerHalf<'r, R>, CallerHalf<'r, R>)> {
    let since = Instant::now(rt)?;
    let wait = Duration::from_secs(ANSWER_SECONDS);
    let stream = rt.connect_timeout(SocketAddr::V4(address), wait)?;
    caller_halves(rt, stream, since)
}

/// Both halves of a connection that was asked for at this moment.
///
/// Error: the system refuses them.
fn caller_halves<'r, R>(
    rt: &'r R,
    stream: TcpStream,
    since: Instant,
) -> io::Result<(CallerHalf<'r, R>, CallerHalf<'r, R>)> {
    stream.set_nodelay(true)?;
    let other = stream.try_clone()?;
    let input = CallerHalf {
        rt,
        stream: other,
        since,
    };
    let output = CallerHalf { rt, stream, since };
    Ok((input, output))
}

impl<R: Clock> CallerHalf<'_, R> {
    /// For how long the next call of the system may wait.
    ///
    /// Errors: the connection has waited as long as it may; the clock shows no moment.
    fn wait(&self) -> io::Result<Duration> {
        let waited = Instant::now(self.rt)?.duration_since(self.since);
        match left_of(Duration::from_secs(ANSWER_SECONDS), waited) {
            Some(left) => Ok(left),
            None => Err(io::Error::from(ErrorKind::TimedOut)),
        }
    }
}

/// A wait that has ended is told as such.
fn told(done: io::Result<usize>) -> io::Result<usize>
    ensures { IfOk result (λ count. done ≡ Ok count) }
{
    match done {
        Ok(count) => Ok(count),
        Err(error) if error.kind() == ErrorKind::WouldBlock => Err(io::Error::from(
            ErrorKind::TimedOut,
        )),
        Err(error) => Err(error),
    }
}

impl<R: Clock> Read for CallerHalf<'_, R> {
    fn read(&mut self, buf: &mut [u8]) -> io::Result<usize> {
        let wait = self.wait()?;
        self.stream.set_read_timeout(Some(wait))?;
        told(self.stream.read(buf))
    }
}

impl<R: Clock> Write for CallerHalf<'_, R> {
    fn write(&mut self, buf: &[u8]) -> io::Result<usize> {
        let wait = self.wait()?;
        self.stream.set_write_timeout(Some(wait))?;
        told(self.stream.write(buf))
    }

    fn flush(&mut self) -> io::Result<()> {
        self.stream.flush()
    }
}
