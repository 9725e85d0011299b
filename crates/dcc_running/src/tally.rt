//! The counts of expiries.

ghost use Rattle.std.specs.Prelude.{◌≡◌};
ghost use Rattle.dcc_running.specs.Tallies.{no_tally, tallied, tally_sum, tally_with, tally_with_reply};

use dcc_shard::{ExpiryAnswer, Reply};

/// The sessions that some expiries ended, and the subscribers whose expiry was refused. Each count stops at 2^64 - 1.
#[derive(Clone, Copy, Debug, PartialEq, Eq)]
pub struct Tally {
    pub sessions: u64,
    pub refused: u64,
}

impl Tally {
    /// The counts of no expiry.
    pub fn none() -> Tally
        ensures { result ≡ no_tally }
    {
        Tally {
            sessions: 0,
            refused: 0,
        }
    }

    /// With the counts of other expiries.
    pub fn sum(self, other: Tally) -> Tally
        ensures { result ≡ tally_sum self other }
    {
        Tally {
            sessions: self.sessions.saturating_add(other.sessions),
            refused: self.refused.saturating_add(other.refused),
        }
    }

    /// With one answer more.
    pub(crate) fn with(self, answer: ExpiryAnswer) -> Tally
        ensures { result ≡ tally_with self answer }
    {
        match answer {
            ExpiryAnswer::Closed { sessions, .. } => Tally {
                sessions: self.sessions.saturating_add(sessions),
                refused: self.refused,
            },
            ExpiryAnswer::Nothing => self,
            ExpiryAnswer::Refused => Tally {
                sessions: self.sessions,
                refused: self.refused.saturating_add(1),
            },
        }
    }

    /// With one reply more, if it is one to an expiry.
    fn with_reply(self, reply: &Reply) -> Tally
        ensures { result ≡ tally_with_reply self reply.now }
    {
        match reply {
            Reply::Expiry(answer) => self.with(*answer),
            _ => self,
        }
    }
}

/// The counts with those of these replies to expiries.
pub(crate) fn tallied(tally: Tally, replies: &[Reply]) -> Tally
    ensures { result ≡ tallied tally replies.now }
{
    match replies.split_first() {
        None => tally,
        Some((reply, others)) => tallied(tally.with_reply(reply), others),
    }
}
