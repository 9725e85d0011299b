//! The money of an account.

/// The money of an account, in minor units.
#[derive(Clone, Copy, Debug, PartialEq, Eq)]
pub struct Money {
    pub funds: i128,
    pub reserved: i128,
    pub free: i128,
    pub overrun: i128,
}
