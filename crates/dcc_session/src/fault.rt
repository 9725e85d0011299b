//! Why a grant isn't made. A refusal changes nothing.

use thiserror::Error;

/// Why a grant isn't made.
#[derive(Clone, Copy, Debug, PartialEq, Eq, Error)]
pub enum GrantFault {
    /// The free money doesn't cover its price.
    #[error("what is free doesn't reach")]
    Short,
    /// Memory was short.
    #[error("out of memory")]
    Memory,
}
