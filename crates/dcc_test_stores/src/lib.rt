//! Records for tests: some whose appends wait at a gate, and some that fail once.
//!
//! Stands on `dcc_store`. Behind both are records in memory. The contract that the crate gives is the contract of [`dcc_store::Records`].
//! - An append of [`GateRecords`] looks at the gate, turn by turn, until the gate is open. Only then the records in memory make it. No
//!   clause says which append passes the gate, or when.
//! - Of [`OnceRecords`] the n-th append fails, an append of one act or of a batch, whatever was loaded before.
#![tactic(auto)]

mod gate;
mod once;
mod records;

pub use gate::Gate;
pub use once::OnceRecords;
pub use records::GateRecords;
