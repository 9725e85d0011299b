//! Why a text is no plan.

ghost use Rattle.std.specs.Prelude.{◌≡◌};
ghost use Rattle.dcc_tariff.specs.Faults.{fault_number};
ghost use Rattle.dcc_tariff.specs.declared.fault.PlanFault.TheVariants.{Memory};

use std::alloc::{AllocError, AllocFailed};
use thiserror::Error;

/// Why a plan file could not be read: the first fault in it, in the order of its keys.
#[derive(Clone, Copy, Debug, PartialEq, Eq, Error)]
pub enum PlanFault {
    /// Fault 20: the text is no TOML document.
    #[error("the plan is no TOML document")]
    NotToml,
    /// Fault 21: a key is missing, or has a value of another type.
    #[error("a key of the plan is missing or of another type")]
    MissingKey,
    /// Fault 22: a value is outside its limits, two versions of one group don't agree, or the default group has no tariff.
    #[error("a value of the plan is outside its limits")]
    Range,
    /// Fault 23: the moment from which a tariff holds is no date and time of the calendar, or past the limit of moments.
    #[error("a tariff of the plan begins at no moment")]
    BadMoment,
    /// Memory was short.
    #[error("out of memory")]
    Memory,
}

impl PlanFault {
    /// The number of the fault, 20 to 23; want of memory has none.
    pub fn number(&self) -> Option<u8>
        ensures { result ≡ fault_number self.now }
    {
        match self {
            PlanFault::NotToml => Some(20),
            PlanFault::MissingKey => Some(21),
            PlanFault::Range => Some(22),
            PlanFault::BadMoment => Some(23),
            PlanFault::Memory => None,
        }
    }
}

impl From<AllocError> for PlanFault {
    ghost from_gives = { λ _ fault. fault ≡ Memory };

    fn from(_error: AllocError) -> PlanFault {
        PlanFault::Memory
    }
}

impl<T: Drop> From<AllocFailed<T>> for PlanFault {
    ghost from_gives = { λ _ fault. fault ≡ Memory };

    fn from(_error: AllocFailed<T>) -> PlanFault {
        PlanFault::Memory
    }
}
