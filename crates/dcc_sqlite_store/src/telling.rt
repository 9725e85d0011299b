//! What a failure of the database is told as.

ghost use Rattle.std.specs.Prelude.{◌≡◌};
ghost use Rattle.dcc_sqlite_store.specs.inner.Telling.{is_memory, told, create_fault, open_fault};

use crate::fault::{CreateFault, OpenFault};
use dcc_store::StoreFault;
use sqlite::{Error, ErrorCode};

/// Whether memory was refused.
pub fn is_memory(error: &Error) -> bool
    ensures { result ≡ is_memory error.now }
{
    matches!(error, Error::SqliteFailure(ErrorCode::OutOfMemory))
}

/// What a failed statement or transaction is told as: want of memory where memory was refused and the database answers since, and
/// else that the store failed.
pub fn told(error: &Error, answers: bool) -> StoreFault
    ensures { result ≡ told error.now answers }
{
    if answers && is_memory(error) {
        return StoreFault::Memory;
    }
    StoreFault::Device
}

/// Why a store was not made.
pub fn create_fault(fault: StoreFault) -> CreateFault
    ensures { result ≡ create_fault fault }
{
    match fault {
        StoreFault::Memory => CreateFault::Memory,
        StoreFault::Device | StoreFault::Stopped => CreateFault::Device,
    }
}

/// Why a store was not read.
pub fn open_fault(fault: StoreFault) -> OpenFault
    ensures { result ≡ open_fault fault }
{
    match fault {
        StoreFault::Memory => OpenFault::Memory,
        StoreFault::Device | StoreFault::Stopped => OpenFault::Device,
    }
}
