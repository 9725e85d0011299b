//! The price of units, and the plan in a file.
//!
//! Its one job: the operator's plan, read whole or rejected with its first fault, and the prices that rest on it. Stands
//! on `dcc_octets` for the limits of names; `toml` reads TOML, and `jiff` reads moments.
//!
//! The contract that it gives:
//! - [`price_of`] is the price of the blocks that some units begin, and [`most_units`] the greatest amount up to the amount
//!   asked whose price is nothing or within the money. Neither takes memory.
//! - [`Plan::read`] returns the plan of a text, or its first fault in the order of the keys, or want of memory.
//! - [`Plan::at`] is the version of a group's tariff with the greatest `from` at or before a moment. The versions are kept
//!   in order. A look-up tries the place of the group's number first and then searches by halving, without memory.
#![tactic(auto)]

mod fault;
mod keys;
mod laws;
mod limits;
mod moment;
mod place;
mod plan;
mod prices;
mod reading;
mod rows;
mod tables;
mod tariff;
mod terms;
mod version;

pub use fault::PlanFault;
pub use laws::{best_grant_is_the_greatest_covered, numbers_are_given, prices_never_fall};
pub use limits::{
    LAST_SECOND, MAX_BLOCK_PRICE, MAX_HOLD, MAX_PRICE, MAX_SHARDS, MAX_TABLES, MAX_UNITS,
};
pub use plan::Plan;
pub use prices::{most_units, price_of};
pub use tariff::{Tariff, UnitKind};
pub use terms::Terms;
pub use version::Version;
