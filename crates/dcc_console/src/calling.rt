//! The line that explains a call of a server that failed.

use dcc_client::CallFault;
use dcc_program::CallFailure;
use dcc_sockets::ANSWER_SECONDS;
use std::alloc::{AllocError, Global};
use std::io;
use std::io::ErrorKind;
use std::net::SocketAddrV4;

/// The line that explains why the answer to a call of the server at this address was not printed, with the program's name in front. The only error
/// is want of memory.
pub(crate) fn call_lines(
    alloc: Global,
    address: SocketAddrV4,
    failure: CallFailure,
    output: Option<io::Error>,
) -> Result<String, AllocError> {
    match failure {
        CallFailure::Memory | CallFailure::Call(CallFault::Memory) => {
            format!(in alloc; "dcc: memory was refused\n")
        }
        CallFailure::Output => output_line(alloc, output),
        CallFailure::Connect(error)
        | CallFailure::Call(CallFault::Sending(error) | CallFault::Receiving(error)) => {
            reason_line(alloc, address, error)
        }
        CallFailure::Call(fault) => format!(in alloc; "dcc: {address}: {fault}\n"),
    }
}

/// The system's reason for which the connection to an address failed, or that it had its time.
fn reason_line(
    alloc: Global,
    address: SocketAddrV4,
    error: io::Error,
) -> Result<String, AllocError> {
    if error.kind() == ErrorKind::TimedOut {
        return format!(in alloc; "dcc: {address}: no answer within {ANSWER_SECONDS} seconds\n");
    }
    format!(in alloc; "dcc: {address}: {error}\n")
}

/// Why the standard output failed.
fn output_line(alloc: Global, error: Option<io::Error>) -> Result<String, AllocError> {
    match error {
        Some(error) => format!(in alloc; "dcc: standard output: {error}\n"),
        None => format!(in alloc; "dcc: standard output failed\n"),
    }
}
