//! Acts.

ghost use Rattle.std.specs.Prelude.{◌≡◌, IfOk};

use crate::moment::Moment;
use crate::one_time_event::OneTimeEvent;
use crate::session_limit::SessionLimit;
use crate::session_request::SessionRequest;
use crate::top_up::TopUp;
use dcc_octets::Host;
use std::alloc::AllocError;

/// The kind of an act: a top-up, a request, or an expiry.
#[derive(Debug, Drop)]
pub enum Kind {
    TopUp(TopUp),
    /// INITIAL_REQUEST (RFC 8506, section 8.3): opens a session.
    Initial {
        request: SessionRequest,
        /// The request is refused if so many sessions are open.
        limit: SessionLimit,
        /// The host of its peer, by the last exchange of capabilities before it (Origin-Host, RFC 6733, sections 5.3 and 6.3), if
        /// the host is known.
        host: Option<Host>,
    },
    /// UPDATE_REQUEST: reports used units in an open session, and asks for more.
    Update(SessionRequest),
    /// TERMINATION_REQUEST: reports used units, and ends the session.
    Termination(SessionRequest),
    Event(OneTimeEvent),
    /// Ends the sessions whose deadline is the moment or before it.
    Expiry,
}

impl Kind {
    /// An equal kind. The only error is want of memory.
    pub fn copy(&self) -> Result<Kind, AllocError>
        ensures { IfOk result (λ copy. copy ≡ self.now) }
    {
        match self {
            Kind::TopUp(top_up) => Ok(Kind::TopUp(*top_up)),
            Kind::Initial {
                request,
                limit,
                host,
            } => Ok(Kind::Initial {
                request: request.copy()?,
                limit: *limit,
                host: match host {
                    Some(host) => Some(host.copy()?),
                    None => None,
                },
            }),
            Kind::Update(request) => Ok(Kind::Update(request.copy()?)),
            Kind::Termination(request) => Ok(Kind::Termination(request.copy()?)),
            Kind::Event(event) => Ok(Kind::Event(event.copy()?)),
            Kind::Expiry => Ok(Kind::Expiry),
        }
    }
}

/// An act: one thing that happens to an account, and its moment.
#[derive(Debug, Drop)]
pub struct Act {
    pub moment: Moment,
    pub kind: Kind,
}

impl Act {
    /// An equal act. The only error is want of memory.
    pub fn copy(&self) -> Result<Act, AllocError>
        ensures { IfOk result (λ copy. copy ≡ self.now) }
    {
        Ok(Act {
            moment: self.moment,
            kind: self.kind.copy()?,
        })
    }
}
