//! Limits.

/// The most money that a pool may have or owe, in minor units: 10^18.
pub const MOST_MONEY: u64 = 1_000_000_000_000_000_000;
