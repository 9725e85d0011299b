//! Whether subscribers may be called together.

ghost use Rattle.std.specs.Prelude.{◌≡◌, ◌<◌, ◌==◌, ◌&&◌};
ghost use Rattle.std.specs.List.{list_all};
ghost use Rattle.dcc_running.specs.Batches.{are_of_one_shard};
ghost use Rattle.dcc_shard.specs.Routes.{shard_of};
ghost use Rattle.dcc_shard.specs.Shards.{are_apart, is_among};

use crate::naming::Naming;
use crate::shards::Shards;
use dcc_act::Sub;
use dcc_shard::shard_of;
use dcc_store::Records;

impl<R: Records, J: Naming> Shards<R, J> {
    /// Whether these subscribers may be called together: they are different, and one shard keeps them all. It takes no memory; its time grows with the
    /// square of their number.
    pub fn is_one_batch(&self, subs: &[Sub]) -> bool
        ensures { result ≡ (are_apart subs.now && are_of_one_shard self.now.count subs.now) }
    {
        are_apart(subs) && are_of_one_shard(self.locks.len(), subs)
    }
}

/// Whether no subscriber stands here twice.
fn are_apart(subs: &[Sub]) -> bool
    ensures { result ≡ are_apart subs.now }
{
    match subs.split_first() {
        None => true,
        Some((sub, others)) => !is_among(sub, others) && are_apart(others),
    }
}

/// Whether a subscriber is among these.
fn is_among(sub: &Sub, others: &[Sub]) -> bool
    ensures { result ≡ is_among sub.now others.now }
{
    others.iter().any(|other| *other == *sub)
}

/// Whether one shard keeps all these subscribers, of so many shards.
fn are_of_one_shard(count: usize, subs: &[Sub]) -> bool
    requires { 0 < count }
    ensures { result ≡ are_of_one_shard count subs.now }
{
    match subs.split_first() {
        None => true,
        Some((sub, others)) => are_kept_at(count, shard_of(sub, count), others),
    }
}

/// Whether the shard of this index keeps all these subscribers, of so many shards.
fn are_kept_at(count: usize, index: usize, subs: &[Sub]) -> bool
    requires { 0 < count }
    ensures { result ≡ list_all (λ sub. shard_of sub count == index) subs.now }
{
    match subs.split_first() {
        None => true,
        Some((sub, others)) => shard_of(sub, count) == index && are_kept_at(count, index, others),
    }
}
