//! The ledger: one page with the entries of an account and their sums.
//!
//! Stands on `dcc_act` for entries in the books and for subscribers, on `dcc_octets` for visible characters, and on `dcc_tariff` for the
//! moments of a plan. The calendar is `jiff`'s. `hex` writes octets in hexadecimal digits.
//!
//! The contract that it gives: [`ledger_text`] is the ledger of `specs/Ledger.antt`, octet for octet, and [`account_line`] is its last
//! line. Each entry has a line, in which the funds are the sum of all amounts up to the entry's own. A column that is too narrow cuts
//! nothing off. The date and the time are in UTC by the Gregorian calendar, as `specs/Moments.antt` defines them. By
//! [`moments_are_read_back`] a plan reads them as the same moment. By [`names_are_apart`] no two tickets or sessions look alike.
#![tactic(auto)]

mod laws;
mod ledger;
mod line;
mod moment;

pub use laws::{moments_are_read_back, names_are_apart};
pub use ledger::{account_line, ledger_text};
