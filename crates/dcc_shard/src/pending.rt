//! A step that is prepared and not yet installed.

ghost use Rattle.std.specs.Prelude.{◌≡◌};
ghost use Rattle.dcc_shard.specs.inner.Pending.{step_of};

use dcc_account::{Account, Step};

/// A step that is prepared and not yet installed.
#[derive(Drop)]
pub(crate) enum Pending {
    /// A step of the subscriber's account.
    Known { step: Step },
    /// The first step of an account, which is added with the step. There is room for the account.
    First { account: Account, step: Step },
}

impl Pending {
    /// The step of the account.
    pub(crate) fn step(&self) -> &Step
        ensures { result.now ≡ step_of self.now }
    {
        match self {
            Pending::Known { step } => step,
            Pending::First { step, .. } => step,
        }
    }
}
