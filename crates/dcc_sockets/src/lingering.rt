//! How a connection ends whose gateway may still send.

use crate::waiting::left_of;
use std::io;
use std::io::Read;
use std::net::{Shutdown, TcpStream};
use std::time::{Clock, Duration, Instant};

/// So many seconds the server waits at most for the end of a connection on the gateway's side, once its own side has ended.
pub const LINGER_SECONDS: u64 = 2;

/// So many octets are taken at once, and dropped.
const DROPPED: usize = 4096;

/// Ends what is sent, and drops what comes, until the gateway ends the connection too, or for [`LINGER_SECONDS`]. The system resets a connection that
/// is closed with unread octets, and a reset takes from the gateway what it hasn't read yet (RFC 9293, section 3.6.1).
///
/// Error: the system refuses it, for instance if the connection is lost.
pub(crate) fn linger<R: Clock>(rt: &R, stream: &mut TcpStream) -> io::Result<()> {
    stream.shutdown(Shutdown::Write)?;
    let begun = Instant::now(rt)?;
    let mut dropped = [0u8; DROPPED];
    for _ in 0..u64::MAX {
        let lingered = Instant::now(rt)?.duration_since(begun);
        let Some(wait) = left_of(Duration::from_secs(LINGER_SECONDS), lingered) else {
            return Ok(());
        };
        stream.set_read_timeout(Some(wait))?;
        if stream.read(&mut dropped)? == 0 {
            return Ok(());
        }
    }
    Ok(())
}
