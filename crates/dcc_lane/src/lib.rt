//! Lanes: items that threads hand to one another, from several senders to one receiver, over one bounded queue.
//!
//! Stands on `crossbeam_queue`, whose queue keeps a rule through every atomic step of every thread (`specs/Rule.antt`): the taken items of
//! a sender, and then its queued items, are the items that it put, in order, each once. So at any moment the taken items of a sender are a
//! beginning of the items that it put. The contract that it gives: [`Sender::put`] adds its item to the items that this sender put.
//! [`Receiver::take`] adds one item of some sender to the taken items. [`Receiver::finish`] takes all senders, and returns for each sender
//! the number of its put items and of its taken items; each taken item is an item that a sender put. If both numbers of a sender are
//! equal, all its items were taken, in order, whole and once ([`equal_counts`]).
//!
//! `put` waits while the lane is full, and `take` while it is empty. Two facts are tested and not proved: a wait ends, and `try_take` finds
//! a queued item. A wait spins, and then sleeps until the other side rings. A caller that leaves items by [`Sender::try_leave`] rings for
//! them later. Senders that wait for room are rung together, once a quarter of the room was taken or the lane was found empty.
#![tactic(auto)]

mod bell;
mod laws;
mod making;
mod patience;
mod receiver;
mod rule;
mod search;
mod sender;

pub use laws::{equal_counts, numbers_are_given};
pub use making::Lane;
pub use receiver::{Count, LaneFault, Receiver, Unfinished};
pub use sender::Sender;
