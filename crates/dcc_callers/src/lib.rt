//! Shards over any records, under locks, and callers with seats, for tests.
//!
//! Stands on `dcc_running`. A [`Caller`] asks for one subscriber at its own seat. [`one`] and [`two`] make shards under locks of
//! records. [`shard_over`] and [`pair`] make shards without locks. [`debit_together`] submits debits of several subscribers at once.
//! The contract: [`are_shards`] and [`hold_nothing`] together are true only of shards that [`dcc_running::Shards::new`] takes at `Brand`, which stands for
//! no acts. All else is proved safe, no more.
#![tactic(auto)]

mod callers;
mod jobs;
mod locks;
mod placed;
mod shards;
mod together;

pub use callers::Caller;
pub use jobs::after;
pub use locks::{one, two};
pub use placed::{are_shards, hold_nothing};
pub use shards::{TERMS, identity, in_memory, pair, shard_over};
pub use together::{debit_one_by_one, debit_together};
