//! The record of an act: the octets that a store keeps of it, version 2, written and read back exactly.
//!
//! Stands on `dcc_act` for acts and their limits, on `dcc_tariff` for tariffs, and on `dcc_octets` for hosts and for numbers
//! in octets. `record_of` in `specs/Records.antt` defines the octets, each part in a definition of its own. The highest octet of a
//! number comes first. `IsAct` in `specs/Limits.antt` has the limits that the types of an act keep.
//!
//! The contract that it gives:
//! - [`write_act`] writes the record of an act, unless memory runs out.
//! - [`read_act`] returns the act whose record all of the octets are. It rejects octets that are no act's record (fault 40), and
//!   reports want of memory.
//! - [`write_act_1`] and [`read_act_1`] do the same for version 1, which has neither the limit nor the host of an initial request.
//!   Its octets are `old_record_of` in `specs/OldRecords.antt`. `IsOldAct` defines the acts of which version 1 loses nothing.
//! - By [`records_differ`] two acts never have the same record, and no record is the beginning of another. So the act that is read
//!   is the act that was written. By [`keeps_limits`] each act is within the limits that these laws require.
#![tactic(auto)]

mod fault;
mod fields;
mod kept;
mod laws;
mod limits;
mod old_reading;
mod old_writing;
mod reading;
mod writing;

pub use fault::RecordFault;
pub use kept::keeps_limits;
pub use laws::{old_records_differ, records_differ};
pub use old_reading::read_act_1;
pub use old_writing::write_act_1;
pub use reading::read_act;
pub use writing::write_act;
