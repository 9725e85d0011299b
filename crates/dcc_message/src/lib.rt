//! Diameter messages: the header, messages in a stream of octets, and who answers them.
//!
//! Stands on `dcc_octets`. The contract that it gives: a header is read if and only if the octets spell it, and a stream
//! of octets has the same messages however it is cut into pieces (RFC 6733, section 3).
#![tactic(auto)]

pub mod applications;
pub mod command_flags;
pub mod commands;
mod framer;
mod header;
mod identity;
mod laws;
mod length;

pub use framer::Framer;
pub use header::{Header, HeaderFault, begin_message, finish_message, read_header, write_message};
pub use identity::{DiameterIdentity, Identity};
pub use laws::{any_pieces, header_read_back, numbers_are_given};
pub use length::{HEADER_LENGTH, LengthFault, MAX_LENGTH};
