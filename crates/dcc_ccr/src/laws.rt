//! The law of this crate's number. It is the contract of a function that does nothing.

ghost use Rattle.std.specs.Prelude.{◌≡◌};

use crate::subscription::E164;

/// The number that definitions cite by name: END_USER_E164 (RFC 8506, section 8.47).
pub fn numbers_are_given()
    ensures { E164 ≡ 0 }
{}
