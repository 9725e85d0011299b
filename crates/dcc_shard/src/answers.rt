//! The answers of a shard.

ghost use Rattle.std.specs.Prelude.{◌≡◌};
ghost use Rattle.dcc_shard.specs.Answers.{word_of};

use dcc_octets::OctetString;

/// The answer to a request.
#[derive(Debug, Drop)]
pub enum RequestAnswer {
    /// The answer by the outcome of the request's act. The place counts from 1 in the subscriber's list of acts. If the answer is fresh,
    /// it is the place of this act; otherwise it is the place of the first act with the same key.
    Done {
        octets: OctetString,
        place: u64,
        fresh: bool,
    },
    /// The subscriber has no account: DIAMETER_USER_UNKNOWN (5030). Nothing is kept of the request.
    Unknown {
        octets: OctetString,
    },
    /// Memory was short, or the records failed or were stopped: DIAMETER_TOO_BUSY (3004). The held acts are as before. Records that failed
    /// in this call may have the act; then the next opening finds it.
    Busy {
        octets: OctetString,
    },
    /// No answer: memory was short for the busy answer too. The rest is as with [`RequestAnswer::Busy`].
    Silent,
}

/// The answer to a top-up.
#[derive(Clone, Copy, Debug, PartialEq, Eq)]
pub enum TopUpAnswer {
    /// The top-up was added: in this call if the answer is fresh, and otherwise when its ticket came first. The place counts from 1 in the
    /// subscriber's list of acts.
    Done { place: u64, fresh: bool },
    /// The top-up wasn't added, since it would have lifted the funds above 10^18 minor units. It isn't added either if its ticket comes
    /// again.
    Ceiling { place: u64, fresh: bool },
    /// The amount isn't 1 to 10^18 minor units. Nothing is kept of the top-up.
    BadAmount,
    /// Memory was short, or the records failed or were stopped. The held acts are as before, as with [`RequestAnswer::Busy`].
    Refused,
}

impl TopUpAnswer {
    /// The word that is printed for the answer.
    pub fn word(&self) -> &'static str
        ensures { result.now ≡ word_of self.now }
    {
        match self {
            TopUpAnswer::Done { .. } => "done",
            TopUpAnswer::Ceiling { .. } => "ceiling",
            TopUpAnswer::BadAmount => "bad",
            TopUpAnswer::Refused => "refused",
        }
    }
}

/// The answer to an expiry.
#[derive(Clone, Copy, Debug, PartialEq, Eq)]
pub enum ExpiryAnswer {
    /// So many sessions ended. The place of the act counts from 1 in the subscriber's list of acts.
    Closed { sessions: u64, place: u64 },
    /// No session was due. Nothing is kept of the expiry.
    Nothing,
    /// Memory was short, or the records failed or were stopped. The held acts are as before, as with [`RequestAnswer::Busy`].
    Refused,
}
