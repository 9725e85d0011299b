//! Why a store was not made, or not opened.

ghost use Rattle.std.specs.Prelude.{◌≡◌};
ghost use Rattle.dcc_sqlite_store.specs.Faults.{create_number, open_number};

use thiserror::Error;

/// Why a store was not made.
#[derive(Clone, Copy, Debug, PartialEq, Eq, Error)]
pub enum CreateFault {
    /// Fault 50: memory was refused. Nothing changed.
    #[error("out of memory")]
    Memory,
    /// Fault 51: the database failed, or a transaction was open.
    #[error("the database failed")]
    Device,
    /// Fault 53: the database isn't empty. Nothing changed.
    #[error("there are tables in the database")]
    Layout,
}

impl CreateFault {
    /// The number of the fault.
    pub fn number(&self) -> u8
        ensures { result ≡ create_number self.now }
    {
        match self {
            CreateFault::Memory => 50,
            CreateFault::Device => 51,
            CreateFault::Layout => 53,
        }
    }
}

/// Why a store was not opened. They are judged in the order in which they stand here, but for the first two, which may come at
/// any point.
#[derive(Clone, Copy, Debug, PartialEq, Eq, Error)]
pub enum OpenFault {
    /// Fault 50: memory was refused. Nothing changed.
    #[error("out of memory")]
    Memory,
    /// Fault 51: the database failed, or a transaction was open.
    #[error("the database failed")]
    Device,
    /// Fault 56: there is nothing in the database. Nothing changed.
    #[error("there are no tables in the database")]
    Empty,
    /// Fault 53: the tables are not those of a store, or the store is of another setting. Nothing changed.
    #[error("the tables are not those of a store of this setting")]
    Layout,
    /// Fault 55: a row is no act's, or is of nobody. Nothing changed.
    #[error("a row is damaged")]
    Damaged,
    /// Fault 54: the rows are not those of a book that its own acts make. Nothing changed.
    #[error("acts, entries and accounts disagree")]
    Disagree,
}

impl OpenFault {
    /// The number of the fault.
    pub fn number(&self) -> u8
        ensures { result ≡ open_number self.now }
    {
        match self {
            OpenFault::Memory => 50,
            OpenFault::Device => 51,
            OpenFault::Empty => 56,
            OpenFault::Layout => 53,
            OpenFault::Damaged => 55,
            OpenFault::Disagree => 54,
        }
    }
}
