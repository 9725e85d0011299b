//! Octets: numbers in them, texts of visible characters, names of hosts, and strings of them that contracts see as lists.
//!
//! Stands on nothing of this repository, and each crate that reads or writes octets stands on it. The contract that it
//! gives: a number in octets has its highest octet first, as each number of Diameter has (RFC 6733, section 3), and each
//! limit on octets that several crates share has one test with one definition.
#![tactic(auto)]

mod host;
mod laws;
mod names;
mod numbers;
mod octet_string;

pub use host::Host;
pub use laws::numbers_are_given;
pub use names::{FIRST_VISIBLE, LAST_VISIBLE, MAX_NAME, are_visible, is_name, is_short};
pub use numbers::{put_over, u24_at, u24_octets, u32_at, u32_in, u64_in};
pub use octet_string::OctetString;
