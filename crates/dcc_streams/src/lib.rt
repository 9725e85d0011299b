//! A whole text from a reader, and a whole text into a writer.
//!
//! Stands on nothing. The contract that it gives: [`read_all`] returns all octets that a reader gives up to its end, and
//! [`write_all`] writes a text whole, or reports how many of its octets the writer took before it failed.
#![tactic(auto)]

mod reading;
mod writing;

pub use reading::{MOST_READS, ReadFault, read_all};
pub use writing::{WriteFault, write_all};
