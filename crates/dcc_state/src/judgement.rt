//! The outcome of one more act, and the change that it makes.

use crate::change::Change;
use dcc_act::{Entry, Outcome};

/// The outcome of one more act, and the change that it makes.
#[derive(Debug, Drop)]
pub struct Judgement {
    /// The outcome.
    pub outcome: Outcome,
    /// Whether it is made: it is neither a repeat, nor a request without an account, nor an expiry that ends nothing.
    pub is_new: bool,
    /// Its place among the made acts of its subscriber, from 1, or that of the act that was made with its key.
    pub place: Option<u64>,
    /// The entries that it adds to the books, in order.
    pub entries: Vec<Entry>,
    /// The change of the money and of the open sessions.
    pub change: Change,
}
