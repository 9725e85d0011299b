//! The change that an act makes to the money of an account and to the open sessions.

use dcc_act::{Moment, Services, SessionId};
use dcc_session::Granted;

/// A request's turn at its session, which goes on after it or begins with it.
#[derive(Debug, Drop)]
pub struct Turn {
    /// The session's name.
    pub sid: SessionId,
    /// The same name once more, for its deadline among the kept ones.
    pub name: SessionId,
    /// The moment until which the session is held then, in seconds.
    pub deadline: u64,
    /// The services as the request counts them: with their reports and the units that they ask for.
    pub services: Services,
    /// The grants to them, with memory for these.
    pub granted: Granted,
}

/// The change that an act makes to the money of an account and to the open sessions.
#[derive(Debug, Drop)]
pub enum Change {
    /// All stays as it is.
    Nothing,
    /// Money is taken and added at once, in minor units.
    Post { credit: u64, debit: u64 },
    /// The session has its turn, and is open after it.
    Open(Turn),
    /// The session of this name ends, after the reports of its services are charged.
    End { sid: SessionId, services: Services },
    /// The sessions that are due at this moment end.
    Expire(Moment),
}
