//! Why a pool refuses a call. A refusal changes nothing.

ghost use Rattle.std.specs.Prelude.{◌≡◌};

use thiserror::Error;

/// Fault 30: the free money doesn't cover the amount.
#[derive(Clone, Copy, Debug, PartialEq, Eq, Error)]
#[error("what is free doesn't reach")]
pub struct Short;

impl Short {
    /// The number of the fault.
    pub fn number(&self) -> u8
        ensures { result ≡ 30 }
    {
        30
    }
}

/// Fault 31: a charge would take the money below -10^18 minor units.
#[derive(Clone, Copy, Debug, PartialEq, Eq, Error)]
#[error("below the floor")]
pub struct Floor;

impl Floor {
    /// The number of the fault.
    pub fn number(&self) -> u8
        ensures { result ≡ 31 }
    {
        31
    }
}

/// Fault 32: a credit would lift the money above 10^18 minor units.
#[derive(Clone, Copy, Debug, PartialEq, Eq, Error)]
#[error("above the ceiling")]
pub struct Ceiling;

impl Ceiling {
    /// The number of the fault.
    pub fn number(&self) -> u8
        ensures { result ≡ 32 }
    {
        32
    }
}
