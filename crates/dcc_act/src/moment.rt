//! Moments.

ghost use Rattle.std.specs.Prelude.{◌≡◌, ◌≤◌, ◌↔◌, IsSome, IfSome};

use dcc_tariff::LAST_SECOND;
use std::marker::Model;

/// The moment of an act: whole seconds since 1970-01-01T00:00:00Z, at most 4,102,444,799.
#[derive(Clone, Copy, Debug, PartialEq, Eq, PartialOrd, Ord, Hash)]
pub struct Moment {
    seconds: u64,
}

impl Model for Moment {
    ghost use Rattle.std.specs.Prelude.{ℕ, ◌≤◌};
    ghost use Rattle.dcc_tariff.specs.declared.limits.TheConstants.{LAST_SECOND};

    ghost Value = { ℕ };

    ghost view = { λ m. m.seconds };

    ghost invariant = { λ m. m.seconds ≤ LAST_SECOND };

    ghost inverse = { λ n. record { seconds = n } };
}

impl Moment {
    /// The moment of these seconds. None past 2099-12-31T23:59:59Z.
    pub fn new(seconds: u64) -> Option<Moment>
        ensures limit { IsSome result ↔ (seconds ≤ LAST_SECOND) }
        ensures value { IfSome result (λ moment. moment ≡ seconds) }
    {
        if seconds > LAST_SECOND {
            return None;
        }
        Some(Moment { seconds })
    }

    /// Seconds since 1970-01-01T00:00:00Z.
    pub fn seconds(&self) -> u64
        ensures value { result ≡ self.now }
        ensures limit { result ≤ LAST_SECOND }
    {
        self.seconds
    }
}
