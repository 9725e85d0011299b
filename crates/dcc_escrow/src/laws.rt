//! The law of this crate's number. It is the contract of a function that does nothing.

ghost use Rattle.std.specs.Prelude.{◌≡◌};

use crate::limits::MOST_MONEY;

/// The limit that definitions cite by name: a pool has or owes at most 10^18 minor units.
pub fn numbers_are_given()
    ensures { MOST_MONEY ≡ 1_000_000_000_000_000_000 }
{}
