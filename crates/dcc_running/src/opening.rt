//! The numbers of the acts that were held at opening.

ghost use Rattle.std.specs.Prelude.{◌≡◌, ◌≢◌, ℕ, ◌<◌, ◌≤◌, [], length, slice_index_or, IfOk, OnOk};
ghost use Rattle.dcc_act.specs.declared.sub.Sub.{Sub};
ghost use Rattle.dcc_running.specs.Books.{book};
ghost use Rattle.dcc_running.specs.inner.Numbers.{AreNumbersOf, number_of, or_before};
ghost use Rattle.dcc_shard.specs.Routes.{shard_of};
ghost use Rattle.dcc_shard.specs.Shards.{held};
ghost use Rattle.dcc_shard.specs.Stored.{StoredView};

use dcc_act::{Sub, same_subscribers_are_equal};
use dcc_shard::Shard;
use dcc_store::Records;
use std::alloc::{AllocError, Global};
use std::collections::HashMap;
use std::hash::RandomState;

/// The number of each subscriber's acts at opening.
pub(crate) type Numbers = HashMap<Sub, usize, RandomState>;

/// The numbers of the acts that the shards hold. The only error is want of memory.
pub(crate) fn counted<R: Records>(
    alloc: Global,
    shards: &[Shard<R>],
    hasher: RandomState,
) -> Result<Numbers, AllocError>
    requires some { 1 ≤ length shards.now }
    requires placed { (i : ℕ) (none : StoredView R) (sub : Sub) → i < length shards.now
        → held (slice_index_or shards.now i none).shard sub ≢ [] → shard_of sub (length shards.now) ≡ i }
    ensures { IfOk result (λ numbers. AreNumbersOf (book shards.now) numbers.entries) }
{
    let mut numbers = HashMap::with_hasher(alloc, hasher);
    for i in 0..shards.len() {
        let Ok(()) = add_numbers(&mut numbers, alloc, &shards[i]) else {
            // By a call: what is let go in place is proved part by part.
            drop(numbers);
            return Err(AllocError);
        };
    }
    Ok(numbers)
}

/// Adds the numbers of the acts that a shard holds.
fn add_numbers<R: Records>(
    numbers: &mut Numbers,
    alloc: Global,
    shard: &Shard<R>,
) -> Result<(), AllocError>
    ensures { OnOk result ((sub : Sub) → number_of numbers.new.entries sub ≡ or_before (held shard.now.shard sub) (number_of numbers.old.entries sub)) }
{
    same_subscribers_are_equal();
    let subs = shard.subs(alloc)?;
    for sub in &subs {
        let _before = numbers.insert(*sub, number_in(shard, *sub))?;
    }
    Ok(())
}

/// The number of a subscriber's acts that a shard holds.
pub(crate) fn number_in<R: Records>(shard: &Shard<R>, sub: Sub) -> usize
    ensures { result ≡ length (held shard.now.shard sub) }
{
    match shard.account(sub) {
        Some(account) => account.acts().len(),
        None => 0,
    }
}
