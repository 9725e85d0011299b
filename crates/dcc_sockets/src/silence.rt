//! How long a gateway may be silent.

ghost use Rattle.std.specs.Prelude.{◌≡◌, ◌≤◌, ◌↔◌, IsSome, IfSome};
ghost use Rattle.dcc_sockets.specs.Waits.{first_wait, read_wait};

use std::marker::Model;

/// A gateway may be silent for so many seconds at most, if its silence has an end: a day.
pub const MOST_SILENT_SECONDS: u64 = 86_400;

/// A gateway has so many seconds to exchange capabilities, if silence has an end or the server stays.
pub const FIRST_SECONDS: u64 = 10;

/// For how many seconds a gateway may send nothing: 1 to 86,400, or 0, which is for ever.
#[derive(Clone, Copy)]
pub struct Silence {
    seconds: u64,
}

impl Model for Silence {
    ghost use Rattle.std.specs.Prelude.{ℕ, ◌≤◌};

    ghost Value = { ℕ };

    ghost view = { λ silence. silence.seconds };

    ghost invariant = { λ silence. silence.seconds ≤ 86_400 };

    ghost inverse = { λ n. record { seconds = n } };
}

impl Silence {
    /// Silence for so many seconds, or none above 86,400.
    pub fn new(seconds: u64) -> Option<Silence>
        ensures limit { IsSome result ↔ (seconds ≤ 86_400) }
        ensures value { IfSome result (λ silence. silence ≡ seconds) }
    {
        if seconds > MOST_SILENT_SECONDS {
            return None;
        }
        Some(Silence { seconds })
    }

    /// For how many seconds a read waits for octets of a gateway that has exchanged capabilities. None if it waits without an end.
    pub fn read_wait(&self) -> Option<u64>
        ensures { result ≡ read_wait self.now }
    {
        if self.seconds == 0 {
            return None;
        }
        Some(self.seconds)
    }

    /// For how many seconds a read waits for octets of a gateway that has not exchanged capabilities, and has been read for so many seconds, by a server that
    /// stays or not. None if it waits without an end.
    pub fn first_wait(&self, stays: bool, waited: u64) -> Option<u64>
        ensures { result ≡ first_wait self.now stays waited }
    {
        let left = FIRST_SECONDS.saturating_sub(waited);
        if self.seconds > 0 {
            return Some(self.seconds.min(left));
        }
        if stays { Some(left) } else { None }
    }
}
