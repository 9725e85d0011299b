//! Acts that were made.

use dcc_act::{Act, Outcome};

/// A made act, and its outcome.
#[derive(Debug, Drop)]
pub struct Done {
    pub act: Act,
    pub outcome: Outcome,
}
