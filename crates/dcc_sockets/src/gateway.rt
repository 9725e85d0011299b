//! The two halves of a gateway's connection.

ghost use Rattle.std.specs.Prelude.{◌≤◌, IfOk, IfSome, length};

use crate::closing::Closing;
use crate::door::TURN_SECONDS;
use crate::lingering::linger;
use crate::messages::Messages;
use crate::options::keep_alive;
use crate::place::Place;
use crate::silence::{FIRST_SECONDS, Silence};
use crate::trouble::{Trouble, tell};
use crate::waiting::{LOOK_MILLIS, Waiting};
use dcc_rounds::Shut;
use std::io;
use std::io::{Eprint, ErrorKind, Read, Write};
use std::net::{Shutdown, SocketAddr, TcpStream};
use std::time::{Clock, Duration, Instant};

/// What a gateway sends. Nothing is read before the thread that writes to the gateway has begun: without this thread no answer would go out. A read waits
/// for octets as long as the gateway may be silent, and then fails. It fails earlier if the gateway doesn't exchange capabilities in time.
#[derive(Drop)]
pub struct Input<'r, R> {
    rt: &'r R,
    stream: TcpStream,
    from: SocketAddr,
    place: Place<'r>,
    /// So many writers of the place had begun when the gateway came. None once its own writer has begun.
    earlier: Option<u64>,
    silence: Silence,
    /// The moment of the first read. None before it, or if the system has no clock.
    since: Option<Instant>,
    has_sent: bool,
    /// For so many seconds the system has a read wait, or without an end.
    wait: Option<u64>,
    /// When a server that stays is to end: then nothing more is read.
    closing: Option<&'r Closing>,
}

/// What a gateway is sent. The answers that wait for a gateway at one time, in the lane to its writer too, go out within [`crate::WRITE_SECONDS`] in all,
/// however many writes they need; else the write fails. Behind the last octets the connection lingers for [`crate::LINGER_SECONDS`] at most, until the
/// gateway ends it too.
#[derive(Drop)]
pub struct Output<'r, R> {
    rt: &'r R,
    stream: TcpStream,
    from: SocketAddr,
    place: Place<'r>,
    messages: Messages,
    waiting: Waiting,
    /// For so long the system has a write wait.
    wait: Duration,
    /// Whether nothing more is to reach the gateway: a write failed, or the connection was ended.
    is_lost: bool,
}

/// Both halves of a connection from this address for this place, set up: neither waits longer than it may, small answers go out at once,
/// and the system asks whether the other end is still there. The place begins anew.
///
/// Error: the system refuses that.
pub fn halves<'r, R>(
    rt: &'r R,
    stream: TcpStream,
    from: SocketAddr,
    place: Place<'r>,
    silence: Silence,
    closing: Option<&'r Closing>,
) -> io::Result<(Input<'r, R>, Output<'r, R>)> {
    let wait = Duration::from_millis(LOOK_MILLIS);
    stream.set_write_timeout(Some(wait))?;
    stream.set_nodelay(true)?;
    keep_alive(&stream)?;
    let other = stream.try_clone()?;
    place.begin();
    let input = Input {
        rt,
        stream: other,
        from,
        place,
        earlier: Some(place.writers()),
        silence,
        since: None,
        has_sent: false,
        wait: None,
        closing,
    };
    let output = Output {
        rt,
        stream,
        from,
        place,
        messages: Messages::new(),
        waiting: Waiting::new(),
        wait,
        is_lost: false,
    };
    Ok((input, output))
}

impl<R: Eprint> Input<'_, R> {
    /// Has the system wait for so many seconds in the next read, or without an end.
    fn set_wait(&mut self, wait: Option<u64>) -> io::Result<()> {
        if wait != self.wait {
            self.stream
                .set_read_timeout(wait.map(|seconds| Duration::from_secs(seconds)))?;
            self.wait = wait;
        }
        Ok(())
    }

    /// Reads once, and prints nothing.
    fn read_once(&mut self, buf: &mut [u8]) -> io::Result<usize>
        ensures { IfOk result (λ count. count ≤ length buf.old) }
    {
        let count = self.stream.read(buf)?;
        self.has_sent = self.has_sent || count > 0;
        Ok(count)
    }

    /// Reads, and waits for so many seconds at most, or without an end.
    fn read_for(&mut self, buf: &mut [u8], allowed: Option<u64>) -> io::Result<usize>
        ensures { IfOk result (λ count. count ≤ length buf.old) }
    {
        if is_over(0, allowed) {
            return Err(io::Error::from(ErrorKind::WouldBlock));
        }
        self.set_wait(allowed)?;
        self.read_once(buf)
    }

    /// Reads, and waits for a second at most before it looks whether the server is to end, as long as the gateway may be silent.
    fn read_until(
        &mut self,
        buf: &mut [u8],
        closing: &Closing,
        allowed: Option<u64>,
    ) -> io::Result<usize>
        ensures { IfOk result (λ count. count ≤ length buf.old) }
    {
        self.set_wait(Some(TURN_SECONDS))?;
        for waited in 0..u64::MAX {
            if closing.is_told() {
                return Ok(0);
            }
            if is_over(waited, allowed) {
                return Err(io::Error::from(ErrorKind::WouldBlock));
            }
            match self.read_once(buf) {
                Ok(count) => return Ok(count),
                Err(error) => {
                    if error.kind() != ErrorKind::WouldBlock {
                        return Err(error);
                    }
                }
            }
        }
        Err(io::Error::from(ErrorKind::WouldBlock))
    }

    /// Reports why the gateway is dropped: it sent nothing for so many seconds, or it exchanged no capabilities in time.
    fn tell_silent(&self, seconds: u64, waited: u64) {
        let from = self.from;
        let trouble = if !self.has_sent {
            let seconds = self.first_seconds();
            Trouble::Unbegun { from, seconds }
        } else if waited >= FIRST_SECONDS && !self.place.is_open() {
            let seconds = FIRST_SECONDS;
            Trouble::Unopened { from, seconds }
        } else {
            Trouble::Silent { from, seconds }
        };
        tell(self.rt, trouble);
    }

    /// For so many seconds the gateway may take to exchange capabilities, if this has an end.
    fn first_seconds(&self) -> u64 {
        self.silence
            .first_wait(self.closing.is_some(), 0)
            .unwrap_or(FIRST_SECONDS)
    }
}

/// Whether that many seconds are all that a gateway may be silent for.
fn is_over(waited: u64, allowed: Option<u64>) -> bool {
    match allowed {
        Some(seconds) => waited >= seconds,
        None => false,
    }
}

impl<R: Clock + Eprint> Input<'_, R> {
    /// For how many seconds the next read may wait. None if it waits without an end.
    fn allowed(&mut self) -> Option<u64> {
        if self.place.is_open() {
            return self.silence.read_wait();
        }
        let waited = self.waited();
        self.silence.first_wait(self.closing.is_some(), waited)
    }

    /// The whole seconds since the first read, by the clock; 0 without a clock.
    fn waited(&mut self) -> u64 {
        let Ok(now) = Instant::now(self.rt) else {
            return 0;
        };
        let since = match self.since {
            Some(since) => since,
            None => now,
        };
        self.since = Some(since);
        now.duration_since(since).as_secs()
    }

    /// Waits until more writers than these have begun, and returns whether they have; they have not if the server is to end.
    ///
    /// Error: none begins within the time that a gateway has to exchange capabilities, of [`FIRST_SECONDS`] if this has no end.
    fn wait_for_writer(&self, earlier: u64) -> io::Result<bool> {
        for _ in 0..self.first_seconds().saturating_mul(1000) {
            if self.place.writers() != earlier {
                return Ok(true);
            }
            if let Some(closing) = self.closing
                && closing.is_told()
            {
                return Ok(false);
            }
            self.rt.sleep(Duration::from_millis(1));
        }
        tell(self.rt, Trouble::Unwritten { from: self.from });
        Err(io::Error::from(ErrorKind::TimedOut))
    }
}

impl<R: Clock + Eprint> Read for Input<'_, R> {
    fn read(&mut self, buf: &mut [u8]) -> io::Result<usize> {
        if let Some(earlier) = self.earlier {
            if !self.wait_for_writer(earlier)? {
                return Ok(0);
            }
            self.earlier = None;
        }
        let allowed = self.allowed();
        let read = match self.closing {
            Some(closing) => self.read_until(buf, closing, allowed),
            None => self.read_for(buf, allowed),
        };
        match read {
            Ok(count) => Ok(count),
            Err(error) => {
                if error.kind() == ErrorKind::WouldBlock {
                    let waited = self.waited();
                    self.tell_silent(allowed.unwrap_or(0), waited);
                }
                Err(error)
            }
        }
    }
}

impl<R: Eprint> Output<'_, R> {
    /// Has the system wait so long in the next write.
    fn set_wait(&mut self, wait: Duration) -> io::Result<()> {
        if wait != self.wait {
            self.stream.set_write_timeout(Some(wait))?;
            self.wait = wait;
        }
        Ok(())
    }
}

impl<R: Clock + Eprint> Output<'_, R> {
    /// Writes once, and waits for [`LOOK_MILLIS`] at most. None if the gateway took nothing.
    ///
    /// Error: that of the system, or answers waited too long, which is reported.
    fn write_once(&mut self, buf: &[u8]) -> io::Result<Option<usize>>
        ensures { IfOk result (λ count. IfSome count (λ count. count ≤ length buf.now)) }
    {
        let now = Instant::now(self.rt)?;
        let Some(left) = self.waiting.begin(now, self.place.puts()) else {
            tell(self.rt, Trouble::Slow { from: self.from });
            return Err(io::Error::from(ErrorKind::TimedOut));
        };
        self.set_wait(left.min(Duration::from_millis(LOOK_MILLIS)))?;
        match self.stream.write(buf) {
            Ok(count) => {
                let written = self.place.wrote(self.messages.took(buf, count));
                self.waiting.took(written);
                Ok(Some(count))
            }
            // The time of the answers bounds interruptions too.
            Err(error) => match error.kind() {
                ErrorKind::WouldBlock | ErrorKind::Interrupted => Ok(None),
                _ => Err(error),
            },
        }
    }

    /// Writes until the gateway takes octets. A write that waits goes on only once a third of the system's buffer is free, and a new write takes what is
    /// free before.
    fn write_until(&mut self, buf: &[u8]) -> io::Result<usize>
        ensures { IfOk result (λ count. count ≤ length buf.now) }
    {
        for _ in 0..u64::MAX {
            if let Some(count) = self.write_once(buf)? {
                return Ok(count);
            }
        }
        Err(io::Error::from(ErrorKind::TimedOut))
    }
}

/// Whether nothing more can be written behind a write that came to this.
fn is_loss(written: &io::Result<usize>) -> bool {
    match written {
        Ok(count) => *count == 0,
        Err(error) => error.kind() != ErrorKind::Interrupted,
    }
}

impl<R: Clock + Eprint> Write for Output<'_, R> {
    fn write(&mut self, buf: &[u8]) -> io::Result<usize> {
        let written = self.write_until(buf);
        self.is_lost = self.is_lost || is_loss(&written);
        written
    }

    fn flush(&mut self) -> io::Result<()> {
        self.stream.flush()
    }
}

impl<R: Clock + Eprint> Shut for Output<'_, R> {
    // No clause says what a socket does.
    ghost is_shut = { λ _. Unit {0} };

    /// A gateway takes what was written before both halves end, if it can still take it. A connection that is lost already needs no more,
    /// so that a refusal means nothing.
    fn shut(&mut self) {
        if !self.is_lost {
            self.is_lost = true;
            let _refused = linger(self.rt, &mut self.stream);
        }
        let _refused = self.stream.shutdown(Shutdown::Both);
        self.place.gone();
    }
}
