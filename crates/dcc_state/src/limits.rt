//! Limits of computed money.

/// The farthest from 0 that the money of an account may be, in minor units: more than the overrun of 2^63 acts, and so
/// far below the limits of an `i128` that no computation of one act passes them.
pub const FARTHEST: i128 = 149_000_000_000_000_000_000_000_000_000_000_000_000;

/// The number of an account's pool, by which its holds are known. An account has one pool, and no hold leaves it.
pub const POOL: u64 = 0;
