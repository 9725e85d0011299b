//! The memory that a step brings.

use crate::indexes::LargerIndexes;
use dcc_act::{Entry, Journal, Outcome};
use dcc_expiry::Due;
use dcc_state::OpenSession;

/// Larger lists and indexes than an account has, empty yet, for those that have no room for one more act.
#[derive(Drop)]
pub(crate) struct Larger {
    pub(crate) acts: Option<Journal>,
    pub(crate) outcomes: Option<Vec<Outcome>>,
    pub(crate) entries: Option<Vec<Entry>>,
    pub(crate) sessions: Option<Vec<OpenSession>>,
    pub(crate) due: Option<Due>,
    pub(crate) indexes: LargerIndexes,
}
