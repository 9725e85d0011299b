//! The laws of subscribers and of limits. Each is the contract of a function that does nothing.

ghost use Rattle.std.specs.Prelude.{◌≡◌};
ghost use Rattle.dcc_act.specs.Subs.{SameAreEqual};

use crate::limits::{
    FEW_SERVICES, FEW_SESSIONS, MAX_AMOUNT, MAX_IDS, MAX_SECONDS, MAX_SERVICES, MAX_SESSIONS,
};

/// The limits that definitions cite by name: 10^18 minor units, the seconds of a CC-Time (RFC 8506, section 8.21), 64 and 1,024 open sessions, 16 and
/// 32 services, and 5,460 identifiers.
pub fn numbers_are_given()
    ensures amount { MAX_AMOUNT ≡ 1_000_000_000_000_000_000 }
    ensures seconds { MAX_SECONDS ≡ 0xffff_ffff }
    ensures few_sessions { FEW_SESSIONS ≡ 64 }
    ensures sessions { MAX_SESSIONS ≡ 1_024 }
    ensures few_services { FEW_SERVICES ≡ 16 }
    ensures services { MAX_SERVICES ≡ 32 }
    ensures identifiers { MAX_IDS ≡ 5_460 }
{}

/// Two subscribers are the same if and only if their types and their data are equal.
pub fn same_subscribers_are_equal()
    ensures { SameAreEqual }
{}
