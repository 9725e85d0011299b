//! A shard: the accounts of its subscribers over records, and the steps of these subscribers. 1 to 8 shards stand as one.
//!
//! Stands on `dcc_account` for the outcome of an act, on `dcc_credit` for the octets of its answer, and on `dcc_store` for the store
//! of the acts. The contract that it gives: a step answers its subscriber by the defined outcome of one more act after the acts held
//! for this subscriber. It leaves the held acts of every other subscriber as they were. If memory or the records refuse a step, its
//! answer, if there is one, reports this, and all held acts stay as they were. In each step, everything that can be refused comes
//! before the first change: a new act is appended before its answer leaves and before the account changes. A shard whose records are
//! stopped judges nothing more. An expiry ends a subscriber's sessions that are due; it is such a step without octets. A batch is the
//! steps of several calls of different subscribers: one append adds all their new acts, or none of them.
#![tactic(auto)]

mod answers;
mod batch;
mod books;
mod call;
mod indexed;
mod kept;
mod laws;
mod memory;
mod pending;
mod plan;
mod route;
mod serve;
mod shard;
mod shards;

pub use answers::{ExpiryAnswer, RequestAnswer, TopUpAnswer};
pub use call::{Call, Reply};
pub use dcc_openers::Found;
pub use laws::batches_are_steps;
pub use memory::shards_in_memory;
pub use route::shard_of;
pub use shard::Shard;
pub use shards::Shards;
