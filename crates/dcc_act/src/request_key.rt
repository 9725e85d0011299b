//! Keys of requests.

ghost use Rattle.std.specs.Prelude.{◌≡◌, IfOk};

use crate::session_id::SessionId;
use std::alloc::AllocError;

/// The key of a request among those of its subscriber: its session and its CC-Request-Number (RFC 8506, section 8.2).
#[derive(Debug, PartialEq, Eq, Hash, Drop)]
pub struct RequestKey {
    pub sid: SessionId,
    pub number: u32,
}

impl RequestKey {
    /// An equal key. The only error is want of memory.
    pub fn copy(&self) -> Result<RequestKey, AllocError>
        ensures { IfOk result (λ copy. copy ≡ self.now) }
    {
        Ok(RequestKey {
            sid: self.sid.copy()?,
            number: self.number,
        })
    }
}
