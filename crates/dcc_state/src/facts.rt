//! The facts of the acts that were made, beside the open sessions.

use dcc_model::Standing;

/// The facts of the acts that were made, by which one more is judged.
#[derive(Clone, Copy, Debug)]
pub struct Facts {
    /// The number of made acts.
    pub count: u64,
    /// Whether any of them is a top-up, which opens the account.
    pub has_account: bool,
    /// Whether any of them opened the session of the judged act.
    pub was_opened: bool,
    /// The place, from 1, of the act that has the key of the judged act.
    pub place: Option<u64>,
    /// The money after them.
    pub standing: Standing,
}
