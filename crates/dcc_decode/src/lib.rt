//! Diameter messages as a person reads them: trees of names and values, for messages of any octets.
//!
//! Stands on `dcc_message` and `dcc_avp` for what octets spell and for the dictionary, and on `dcc_streams` for readers and
//! writers; hex is read by `hex`, and moments are written by `jiff`. The contract that it gives: [`decode_run`] writes, for
//! each line of a text in turn, the tree of the message in it and an empty line, or the line as it is where there is none; it
//! fails only for want of memory, a read or a write. [`decode_message`] gives the tree of one message. What a tree says
//! is shown by tests; docs/FORMATS.md has it.
#![tactic(auto)]

mod data;
mod decoding;
mod fault;
mod line;
mod lists;
mod message;
mod names;
mod tree;
mod values;
mod verdict;
mod words;

pub use decoding::decode_run;
pub use fault::DecodeFault;
pub use message::decode_message;
pub use tree::MAX_LEVEL;
