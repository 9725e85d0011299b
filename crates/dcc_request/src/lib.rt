//! Requests checked against tables: the faults of a request of any command that come before the faults of its values.
//!
//! Stands on `dcc_message` for headers, on `dcc_avp` for lists of AVPs and the dictionary, and on `dcc_octets` for names.
//! Tables (`table`) say which AVPs a request has to have and how often each may stand, in the message's list and in the
//! walked groups. The contract that it gives: `check` returns the walked groups of a request, each read once, or the first
//! fault. Each check is made over the whole message before the next one (RFC 6733, section 7.1):
//!
//! 1. the header: flags, application, command (`command_of`);
//! 2. layout: the message's list (`read_message_list`), then the walked groups, each before those inside it;
//! 3. unknown AVPs that have M;
//! 4. AVPs that stand too often;
//! 5. AVPs that are missing.
//!
//! The command's own crate checks the values after these: it reads them by `required`, `number` and the like, and parts that
//! may stand several times by `read_each`. A refusal (`Refused`) lends its AVPs from the octets of the message, so that
//! refusing takes no memory and never fails.
#![tactic(auto)]

mod cause;
mod checks;
mod command;
mod fits;
mod laws;
mod layout;
mod parts;
mod refused;
mod stop;
pub mod table;
mod values;
mod walk;

pub use cause::Cause;
pub use checks::missing;
pub use command::{Command, check, command_of};
pub use laws::{list_within, numbers_are_given, shown_within};
pub use layout::{read_message_list, unread};
pub use parts::{Parts, read_each};
pub use refused::{Failed, Refused, clear};
pub use stop::Stop;
pub use values::{first, long_number, name_octets, number, number_within, required};
pub use walk::{Group, List};
