//! Shards that work in many threads, each under a lock, and what they did compared with what callers were told.
//!
//! Stands on `dcc_shard` for one subscriber's step, and on `dcc_receipts` for the tests of receipts. Each call takes one shard's lock and
//! makes one step of `dcc_shard` under it, or, of several subscribers of the shard at once, one batch. The contract that it gives: a call adds to its caller's seat the receipt of what it was told,
//! and no other; once all threads are done, `close` takes the shards out of their locks and compares all receipts with them. Where it
//! answers Ok, the acts of each subscriber begin with those at opening, each receipt stands in them with what its act came to, each act
//! since opening has just one fresh receipt, each seat's receipts are in order, and the acts are those that they themselves make. Else it
//! says which of these doesn't hold.
//!
//! Nothing is known of a shard under a lock but its type. So what a call does there stands in a function over the shard, whose clauses say that the answer is this
//! shard's, and that the act and its receipt go together: there an answer that a subscriber is unknown, octet for octet, is refused where the shard holds acts of
//! it, and so is an act that is told as busy or as none. A call that takes no lock, and answers as a shard without acts does, is refused by tests alone
//! (`dcc_serving_tests`).
#![tactic(auto)]

mod apart;
mod audit;
mod auditing;
mod batches;
mod books;
mod calls;
mod close;
mod job;
mod lock;
mod look;
mod naming;
mod opening;
mod placed;
mod room;
mod seat;
mod seen;
mod shards;
mod tally;
mod told;
mod touches;
mod ward;

pub use books::Books;
pub use close::Unclosed;
pub use job::Job;
pub use look::Look;
pub use naming::Naming;
pub use seat::Seat;
pub use shards::Shards;
pub use tally::Tally;
