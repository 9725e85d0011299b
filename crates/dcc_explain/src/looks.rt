//! Looks at the stores of shards.

use dcc_tariff::Plan;
use std::alloc::AllocError;
use std::hash::RandomState;

/// What a look finds of the store of a shard.
#[derive(Drop)]
pub struct StoreNote {
    /// The number of the fault for which a server would not open the store, if it would not.
    pub fault: Option<u8>,
    /// The path, and what is wrong there: keys with both values, subscriber and place, or the system's reason.
    pub words: String,
}

/// Looks at the stores of shards in a folder. No file is changed or made.
pub trait Looks {
    /// What is found of the store of a shard, by its index, under a plan.
    fn look(
        &self,
        folder: &str,
        plan: &Plan,
        shard: usize,
        hasher: RandomState,
    ) -> Result<StoreNote, AllocError>;
}
