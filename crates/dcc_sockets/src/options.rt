//! Options of sockets that std doesn't set.

use libc::net as c;
use std::io;
use std::net::{TcpListener, TcpStream};
use std::os::fd::AsRawFd;

/// Has the system ask whether the other end of an idle connection is still there, when its settings say so. If the other end isn't there,
/// reading and writing fail.
///
/// Error: the system refuses that.
pub(crate) fn keep_alive(stream: &TcpStream) -> io::Result<()> {
    let mut on = [0u8; 16];
    on[..4].copy_from_slice(&1i32.to_ne_bytes());
    // The option's value is a number in the first four octets.
    let status = unsafe {
        c::setsockopt(stream.as_raw_fd(), c::SOL_SOCKET, c::SO_KEEPALIVE, &on, 4)
    };
    if status < 0 {
        return Err(io::Error::other("keepalive was refused"));
    }
    Ok(())
}

/// Has the system wait for a connection for so many seconds at most. If no connection comes in time, accepting fails as `WouldBlock`.
///
/// Error: the system refuses that.
pub(crate) fn wait_for_connections(listener: &TcpListener, seconds: u64) -> io::Result<()> {
    let mut wait = [0u8; 16];
    wait[..8].copy_from_slice(&seconds.to_ne_bytes());
    // The option's value is seconds, and microseconds behind them.
    let status = unsafe {
        c::setsockopt(
            listener.as_raw_fd(),
            c::SOL_SOCKET,
            c::SO_RCVTIMEO,
            &wait,
            16,
        )
    };
    if status < 0 {
        return Err(io::Error::other("a wait for connections was refused"));
    }
    Ok(())
}
