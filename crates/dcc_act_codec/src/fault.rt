//! Why octets are no record.

ghost use Rattle.std.specs.Prelude.{◌≡◌};
ghost use Rattle.dcc_act_codec.specs.Faults.{fault_number};
ghost use Rattle.dcc_act_codec.specs.declared.fault.RecordFault.TheVariants.{Memory};

use std::alloc::{AllocError, AllocFailed};
use thiserror::Error;

/// Why a record could not be read.
#[derive(Clone, Copy, Debug, PartialEq, Eq, Error)]
pub enum RecordFault {
    /// Fault 40: the octets are no act's record.
    #[error("the octets are no record of an act")]
    BadRecord,
    /// There was no memory for the act.
    #[error("out of memory")]
    Memory,
}

impl RecordFault {
    /// The number of the fault, 40; want of memory has none.
    pub fn number(&self) -> Option<u8>
        ensures { result ≡ fault_number self.now }
    {
        match self {
            RecordFault::BadRecord => Some(40),
            RecordFault::Memory => None,
        }
    }
}

impl From<AllocError> for RecordFault {
    ghost from_gives = { λ _ fault. fault ≡ Memory };

    fn from(_error: AllocError) -> RecordFault {
        RecordFault::Memory
    }
}

impl<T: Drop> From<AllocFailed<T>> for RecordFault {
    ghost from_gives = { λ _ fault. fault ≡ Memory };

    fn from(_error: AllocFailed<T>) -> RecordFault {
        RecordFault::Memory
    }
}
