//! Requests of sessions.

ghost use Rattle.std.specs.Prelude.{◌≡◌, IfOk};

use crate::request_key::RequestKey;
use crate::services::Services;
use std::alloc::AllocError;

/// A request of a session (RFC 8506, section 5): its key, and the services that ask for units and report them.
#[derive(Debug, Drop)]
pub struct SessionRequest {
    pub key: RequestKey,
    pub services: Services,
}

impl SessionRequest {
    /// An equal request. The only error is want of memory.
    pub fn copy(&self) -> Result<SessionRequest, AllocError>
        ensures { IfOk result (λ copy. copy ≡ self.now) }
    {
        Ok(SessionRequest {
            key: self.key.copy()?,
            services: self.services.copy()?,
        })
    }
}
