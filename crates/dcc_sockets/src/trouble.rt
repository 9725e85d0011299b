//! The trouble of connections, as lines on standard error: what a socket alone knows of it, and what an audit behind an operator's call finds.

use crate::audits::Disagreement;
use crate::waiting::WRITE_SECONDS;
use dcc_receipts::CloseFault;
use std::io::Eprint;
use std::net::SocketAddr;
use std::{fmt, io};

/// What happened to a connection, which has no number of a gateway here: it is named by the address that it came from, if by anything.
#[derive(Clone, Copy)]
pub(crate) enum Trouble {
    /// It sent nothing for so many seconds, and is dropped.
    Silent { from: SocketAddr, seconds: u64 },
    /// It sent nothing at all within so many seconds, and is dropped.
    Unbegun { from: SocketAddr, seconds: u64 },
    /// It has not exchanged capabilities within so many seconds, and is dropped.
    Unopened { from: SocketAddr, seconds: u64 },
    /// Octets waited for it as long as they may, and it is dropped.
    Slow { from: SocketAddr },
    /// The thread that writes to it has not begun, and it is dropped.
    Unwritten { from: SocketAddr },
    /// It was accepted, and couldn't be set up.
    Unready { from: SocketAddr, error: io::Error },
    /// It was lost before it was accepted.
    Lost { error: io::Error },
    /// There is nothing to take connections in with.
    Short { error: io::Error },
    /// The listener of a server that stays takes none any more.
    Over { error: io::Error },
    /// The listener for operators takes none any more.
    Unheard { error: io::Error },
    /// The system gave fewer threads than these.
    Threads { threads: usize },
    /// A receipt of an operator's call disagrees with the books.
    Disagrees { fault: CloseFault },
    /// The number of a shard's acts was not written beside its store.
    Uncounted { shard: usize },
}

impl fmt::Display for Trouble {
    fn fmt<W: fmt::Write>(&self, f: &mut fmt::Formatter<W>) -> fmt::Result {
        match self {
            Trouble::Silent { from, seconds } => {
                write!(f, "dcc: {from} was silent for {seconds} seconds")
            }
            Trouble::Unbegun { from, seconds } => {
                write!(f, "dcc: {from} sent nothing within {seconds} seconds")
            }
            Trouble::Unopened { from, seconds } => {
                write!(
                    f,
                    "dcc: {from} exchanged no capabilities within {seconds} seconds"
                )
            }
            Trouble::Slow { from } => {
                write!(
                    f,
                    "dcc: {from} was slow: octets waited {WRITE_SECONDS} seconds"
                )
            }
            Trouble::Unwritten { from } => {
                write!(f, "dcc: {from} has no thread that writes to it")
            }
            Trouble::Unready { from, error } => {
                write!(f, "dcc: a connection from {from} was lost: {error}")
            }
            Trouble::Lost { error } => write!(f, "dcc: a connection was lost: {error}"),
            Trouble::Short { error } => {
                write!(f, "dcc: no connection can be taken in for now: {error}")
            }
            Trouble::Over { error } => {
                write!(f, "dcc: no connection can be taken in any more: {error}")
            }
            Trouble::Unheard { error } => {
                write!(f, "dcc: no operator can be served any more: {error}")
            }
            Trouble::Threads { threads } => {
                write!(
                    f,
                    "dcc: the system gives too few threads: {threads} are needed"
                )
            }
            Trouble::Disagrees { fault } => {
                let disagreement = Disagreement(*fault);
                write!(f, "dcc: {disagreement}")
            }
            Trouble::Uncounted { shard } => {
                write!(f, "dcc: shard {shard}: the number of its acts was not kept")
            }
        }
    }
}

/// Prints the trouble. A line that can't be written is left out.
pub(crate) fn tell<P: Eprint>(print: &P, trouble: Trouble) {
    let _lost = print.eprintln(trouble);
}
