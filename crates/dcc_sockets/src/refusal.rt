//! What it means that the system gives no connection.

ghost use Rattle.std.specs.Prelude.{◌≡◌, is_some};
ghost use Rattle.std.specs.IoError.{error_kind, raw_os_error};
ghost use Rattle.dcc_sockets.specs.Refusals.{meaning_of};

use std::io;
use std::io::ErrorKind;

/// What it means that the system gives no connection.
#[derive(Clone, Copy)]
pub enum Refusal {
    /// No connection came in time.
    Nobody,
    /// One connection was lost, and the next can be taken in at once.
    Lost,
    /// There is nothing to take a connection in with, as descriptors or memory. Connections wait until there is.
    Short,
    /// The listener takes none any more.
    Over,
}

/// What an error means with which the system gives no connection. An error that isn't the system's is of a connection whose address can't be read.
pub fn meaning_of(error: &io::Error) -> Refusal
    ensures { result ≡ meaning_of (is_some (raw_os_error error.now)) (error_kind error.now) }
{
    if error.raw_os_error().is_none() {
        return Refusal::Lost;
    }
    match error.kind() {
        ErrorKind::WouldBlock => Refusal::Nobody,
        ErrorKind::ConnectionAborted
        | ErrorKind::ConnectionReset
        | ErrorKind::TimedOut
        | ErrorKind::HostUnreachable
        | ErrorKind::NetworkUnreachable
        | ErrorKind::NetworkDown => Refusal::Lost,
        ErrorKind::InvalidInput => Refusal::Over,
        _ => Refusal::Short,
    }
}
