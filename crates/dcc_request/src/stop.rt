//! Why reading a request ends without a request.

ghost use Rattle.std.specs.Prelude.{◌≡◌};
ghost use Rattle.dcc_request.specs.declared.stop.Stop.TheVariants.{Memory, Refused};

use crate::refused::Refused;
use std::alloc::{AllocError, AllocFailed};

/// Why a message gives no request.
#[derive(Debug, Drop)]
pub enum Stop<'a> {
    /// The request is refused.
    Refused(Refused<'a>),
    /// Memory was short.
    Memory,
}

impl<'a> From<AllocError> for Stop<'a> {
    ghost from_gives = { λ _ stop. stop ≡ Memory };

    fn from(_error: AllocError) -> Stop<'a> {
        Stop::Memory
    }
}

impl<'a, T: Drop> From<AllocFailed<T>> for Stop<'a> {
    ghost from_gives = { λ _ stop. stop ≡ Memory };

    fn from(_error: AllocFailed<T>) -> Stop<'a> {
        Stop::Memory
    }
}

impl<'a> From<Refused<'a>> for Stop<'a> {
    ghost from_gives = { λ refused stop. stop ≡ Refused refused };

    fn from(refused: Refused<'a>) -> Stop<'a> {
        Stop::Refused(refused)
    }
}
