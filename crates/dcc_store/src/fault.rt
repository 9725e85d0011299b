//! The faults of records.

ghost use Rattle.std.specs.Prelude.{◌≡◌};
ghost use Rattle.dcc_store.specs.Faults.{fault_number};

use std::alloc::AllocError;
use thiserror::Error;

/// The reason for which a call of records failed.
#[derive(Clone, Copy, Debug, PartialEq, Eq, Error)]
pub enum StoreFault {
    /// Fault 50: memory was refused. Nothing changed, and the records may be used.
    #[error("out of memory")]
    Memory,
    /// Fault 51: the store failed in this call, and is stopped from then on. The next opening finds the act of the call or doesn't.
    #[error("the store failed")]
    Device,
    /// Fault 52: the store had failed before, and the call did nothing.
    #[error("the store is stopped")]
    Stopped,
}

impl StoreFault {
    /// The number of the fault.
    pub fn number(&self) -> u8
        ensures { result ≡ fault_number self.now }
    {
        match self {
            StoreFault::Memory => 50,
            StoreFault::Device => 51,
            StoreFault::Stopped => 52,
        }
    }
}

impl From<AllocError> for StoreFault {
    ghost use Rattle.dcc_store.specs.declared.fault.StoreFault.TheVariants.{Memory};

    ghost from_gives = { λ _ fault. fault ≡ Memory };

    fn from(_error: AllocError) -> StoreFault {
        StoreFault::Memory
    }
}
