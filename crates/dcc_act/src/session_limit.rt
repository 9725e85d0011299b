//! The number of sessions that a subscriber may have open.

ghost use Rattle.std.specs.Prelude.{◌≡◌};
ghost use Rattle.dcc_act.specs.Limits.{most_sessions};

use crate::limits::{FEW_SESSIONS, MAX_SESSIONS};

/// The number of sessions that a subscriber may have open at once. An initial request keeps the limit by which it was judged,
/// so that a kept refusal stays a refusal if the limit grows.
#[derive(Clone, Copy, Debug, PartialEq, Eq)]
pub enum SessionLimit {
    /// 64 sessions.
    Few,
    /// 1,024 sessions.
    Many,
}

impl SessionLimit {
    /// The number of sessions.
    pub fn sessions(self) -> usize
        ensures { result ≡ most_sessions self }
    {
        match self {
            SessionLimit::Few => FEW_SESSIONS,
            SessionLimit::Many => MAX_SESSIONS,
        }
    }
}
