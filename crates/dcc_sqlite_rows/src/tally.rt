//! Tallies.

/// The number of a subscriber's acts, and its funds, in minor units.
#[derive(Clone, Copy)]
pub struct Tally {
    pub acts: u64,
    pub funds: i64,
}
