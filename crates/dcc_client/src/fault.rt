//! Why a call has no finding.

ghost use Rattle.std.specs.Prelude.{◌≡◌, ◌≢◌, ℕ};
ghost use Rattle.dcc_client.specs.declared.fault.CallFault.TheVariants as fault;

use http1::WriteError;
use std::alloc::{AllocError, AllocFailed};
use std::io;
use thiserror::Error;

/// Why a call has no finding. If the request was sent, the server may have done the call.
#[derive(Clone, Copy, Debug, Error)]
pub enum CallFault {
    /// Memory was short.
    #[error("out of memory")]
    Memory,
    /// The host has an octet that no field of HTTP may have, or a blank at an end. Nothing was sent.
    #[error("the host can't be written")]
    Host,
    /// The connection failed before it took the whole request, for this reason.
    #[error("{0}")]
    Sending(io::Error),
    /// The connection failed before its end, for this reason.
    #[error("{0}")]
    Receiving(io::Error),
    /// The answer has more than [`MOST_OCTETS`](crate::MOST_OCTETS) octets.
    #[error("the answer is too long")]
    Long,
    /// The connection ended within the response, or before it.
    #[error("the connection ended before the answer did")]
    Cut,
    /// The answer does not begin with a final response of HTTP/1.1, or its head has more than 16 KiB or more than 64 fields.
    #[error("the answer is no HTTP")]
    Form,
    /// The response has this status, and its status and body are none of the call's answers.
    #[error("the answer with HTTP status {0} doesn't fit the call")]
    Unfit(u16),
}

impl From<AllocError> for CallFault {
    ghost from_gives = { λ _ given. given ≡ fault.Memory };

    fn from(_error: AllocError) -> CallFault {
        CallFault::Memory
    }
}

impl<T: Drop> From<AllocFailed<T>> for CallFault {
    ghost from_gives = { λ _ given. given ≡ fault.Memory };

    fn from(_error: AllocFailed<T>) -> CallFault {
        CallFault::Memory
    }
}

impl From<WriteError> for CallFault {
    ghost from_gives = { λ _ given. (status : ℕ) → given ≢ fault.Unfit status };

    fn from(error: WriteError) -> CallFault {
        match error {
            WriteError::OutOfMemory => CallFault::Memory,
            _ => CallFault::Host,
        }
    }
}
