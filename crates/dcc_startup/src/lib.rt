//! The shards of a server at its start: the store of each shard is opened or made, and a shard stands over its records.
//!
//! Stands on `dcc_shard` for shards over records, and on `dcc_tariff` for plans. The contract that it gives: [`Stores`] says what an
//! opening of a store returns, and the numbers of its refusals. [`shard_over`] makes a shard over opened records that have acts of the
//! shard's own subscribers alone. [`shards_over`] opens the stores of all shards of a plan, side by side, each in a thread. A store that
//! cannot be used is refused by its number, with the cause.
#![tactic(auto)]

mod shards;
mod stores;

pub use shards::{shard_at, shards_over};
pub use stores::{
    Copies, CopyFault, CountFault, Counts, StoreRefusal, Stores, shard_or_back, shard_over,
};
