//! Readers of a shard under its lock.

ghost use Rattle.std.specs.Prelude.{ℕ};
ghost use Rattle.dcc_shard.specs.Stored.{StoredView};

use dcc_shard::Shard;
use dcc_store::Records;

/// A reader of one shard, by [`crate::Shards::read`].
pub trait Look<R: Records> {
    /// What it finds.
    type Found;

    /// The relation between the reader, the index of the shard, the shard and what it finds there.
    ghost finds: { Self → ℕ → StoredView R → Self.Found → Type 0 };

    /// Reads the shard of this index, under the shard's lock: it is to be short, and to wait for nothing.
    fn look(self, index: usize, shard: &Shard<R>) -> Self::Found
        ensures { finds self index shard.now result };
}
