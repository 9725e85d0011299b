//! Laws of the facts that an account keeps. Each is the contract of a function that does nothing.

ghost use Rattle.std.specs.Prelude.{◌≡◌, pos};
ghost use Rattle.dcc_state.specs.Known.{MoneyIsWithin, SessionsHoldWhatIsReserved};

use crate::limits::{FARTHEST, POOL};
use dcc_model::{funds_are_accounted_for, sessions_open_once};

/// The numbers that definitions cite by name: the farthest from 0 that computed money may be, in minor units, and the
/// number of an account's pool.
pub fn numbers_are_given()
    ensures farthest { FARTHEST ≡ pos 149_000_000_000_000_000_000_000_000_000_000_000_000 }
    ensures pool { POOL ≡ 0 }
{}

/// The money of an account, and the sum of its sessions' holds, are within the range of computations if the overrun is.
pub fn money_is_within()
    ensures { MoneyIsWithin }
{
    funds_are_accounted_for();
    sessions_open_once();
}

/// The reserved money is the sum of the open sessions' holds.
pub fn sessions_hold_what_is_reserved()
    ensures { SessionsHoldWhatIsReserved }
{
    sessions_open_once();
}
