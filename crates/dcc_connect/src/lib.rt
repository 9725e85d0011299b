//! Connections over any reader and writer: the two sides of a connection, each for a thread of its own, and a whole connection for a
//! single thread.
//!
//! Stands on `dcc_message` for the messages of a stream, on `dcc_lane` for the items of a writer, and on `dcc_base` for replies. The
//! contract that it gives, for readers and writers whose octets contracts can see: [`read_side`] hands on the messages in the octets that
//! it read, in order, each once, up to and including the first message behind which the connection closes. [`write_side`] writes the
//! octets of the items that it takes, in order. [`serve_connection`] writes the answers to the messages in the octets that it read, in
//! order. After a fault of the writer, exactly as many octets as the fault names have gone out, and nothing is written any more. Each
//! function counts its turns, ends at their bound, and reports [`ConnectFault::TooManyTurns`] only there. Each message has a reading of
//! the clock of its own, and is taken at the moment of this reading ([`Clock`]).
//!
//! Tests show three facts that no clause can say. A reader or writer that fails is reported by its own fault. The items that are in a lane
//! at one time go out in one call, up to 16,384 octets. No octets are held back while the lane is empty.
#![tactic(auto)]

mod connection;
mod fault;
mod gathering;
mod handing;
mod laws;
mod reading;
mod sending;
mod turns;
mod writing;

pub use connection::{Answerer, serve_connection};
pub use fault::{ConnectFault, ConnectionEnd, ReadEnd};
pub use handing::{Clock, Handed, Submitter};
pub use laws::numbers_are_given;
pub use reading::read_side;
pub use writing::{Item, WriteEnd, write_side};
