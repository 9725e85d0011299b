//! The law of this crate's numbers. It is the contract of a function that does nothing.

ghost use Rattle.std.specs.Prelude.{◌≡◌};

use crate::names::{FIRST_VISIBLE, LAST_VISIBLE, MAX_NAME};

/// The limits that definitions cite by name: a name has at most 255 octets, and visible ASCII is 0x21 to 0x7E.
pub fn numbers_are_given()
    ensures name { MAX_NAME ≡ 255 }
    ensures first { FIRST_VISIBLE ≡ 0x21 }
    ensures last { LAST_VISIBLE ≡ 0x7E }
{}
