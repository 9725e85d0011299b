//! Why an operator's command is not done.

ghost use Rattle.std.specs.Prelude.{◌≡◌};
ghost use Rattle.dcc_operator.specs.declared.fault.OperatorFault.TheVariants as fault;

use dcc_startup::StoreRefusal;
use dcc_streams::WriteFault;
use std::alloc::{AllocError, AllocFailed};
use thiserror::Error;

/// Why an operator's command is not done.
#[derive(Clone, Copy, Debug, PartialEq, Eq, Error)]
pub enum OperatorFault {
    /// Memory was short, and nothing was written.
    #[error("out of memory")]
    Memory,
    /// The writer failed.
    #[error("the output failed")]
    Output,
    /// The store has the fault with this number, 50 to 56, and nothing was written.
    #[error("store fault {0}")]
    Store(u8),
}

impl From<AllocError> for OperatorFault {
    ghost from_gives = { λ _ given. given ≡ fault.Memory };

    fn from(_error: AllocError) -> OperatorFault {
        OperatorFault::Memory
    }
}

impl<T: Drop> From<AllocFailed<T>> for OperatorFault {
    ghost from_gives = { λ _ given. given ≡ fault.Memory };

    fn from(_error: AllocFailed<T>) -> OperatorFault {
        OperatorFault::Memory
    }
}

impl From<WriteFault> for OperatorFault {
    ghost from_gives = { λ _ given. given ≡ fault.Output };

    fn from(_fault: WriteFault) -> OperatorFault {
        OperatorFault::Output
    }
}

impl From<StoreRefusal> for OperatorFault {
    ghost from_gives = { λ refusal given. given ≡ fault.Store refusal.0 };

    fn from(refusal: StoreRefusal) -> OperatorFault {
        OperatorFault::Store(refusal.0)
    }
}
