//! The outcome of one more act, and the change that it makes.

use dcc_act::{Entry, Outcome};

/// The money of an account, in minor units.
#[derive(Clone, Copy, Debug, PartialEq, Eq)]
pub struct Standing {
    /// The funds, from -10^18 to 10^18.
    pub funds: i128,
    /// The free money: the funds less the prices of all live grants.
    pub free: i128,
    /// The overrun: the sum of the parts of charges beyond their reservations.
    pub overrun: i128,
}

/// The outcome of one more act, and the change that it makes.
#[derive(Debug, Drop)]
pub struct Judgement {
    /// The outcome.
    pub outcome: Outcome,
    /// Whether it is made: it is neither a repeat, nor a request without an account, nor an expiry that ends nothing.
    pub is_new: bool,
    /// Its place among the made acts of its subscriber, from 1, or that of the act that was made with its key.
    pub place: Option<u64>,
    /// The entries that it adds to the books, in order.
    pub entries: Vec<Entry>,
    /// The money after it.
    pub standing: Standing,
}
