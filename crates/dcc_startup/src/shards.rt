//! The shards of a server.

ghost use Rattle.std.specs.Prelude.{◌≡◌, ◌<◌, ◌≤◌, ◌⊎◌, ℕ, map, length, slice_index_or, Result, Ok, IfOk, IfErr};
ghost use Rattle.dcc_startup.specs.Openings.{IsStarted, AreStarted, IsUnusable};
ghost use Rattle.dcc_startup.specs.inner.Results.{IsEither, IsFirstError};
ghost use Rattle.dcc_shard.specs.Stored.{StoredView};
ghost use Rattle.dcc_startup.specs.declared.stores.StoreRefusal.{StoreRefusal};

use crate::stores::{StoreRefusal, Stores, shard_over};
use dcc_message::Identity;
use dcc_shard::Shard;
use dcc_store::Records;
use dcc_tariff::Plan;
use std::alloc::{AllocError, Global};
use std::hash::RandomState;
use std::thread::{Threads, map_indices};

/// Opens the store of each shard of a server under this plan, 1 to 8, or makes the store if there is none, and returns the shards over
/// them in order. The stores are opened side by side, each in a thread if the system gives one. Each shard is under the plan's terms, for
/// this server, and has only subscribers of its own, as `dcc_shard::shard_of` says. Shards that work as one have to be so.
///
/// If some of the stores are missing, the others are looked at first: then no store is made beside a store of another server.
///
/// The error is that of the first store, by its index, that cannot be used: 50 if memory is short, 51 to 55 as of [`StoreRefusal`]. Every
/// other store may have been opened or made, and stays as it is.
pub fn shards_over<T: Threads + Sync, S: Stores + Sync>(
    rt: &T,
    alloc: Global,
    stores: &S,
    folder: &str,
    plan: &Plan,
    identity: &Identity,
    hasher: RandomState,
) -> Result<Vec<Shard<S::Records>>, StoreRefusal>
    ensures started { IfOk result (λ shards. AreStarted (S.opens stores.now folder.now plan.now) S.Records.may_leave plan.now.terms identity.now plan.now.shards shards.items) }
    // The fault is that of one of the stores, or want of memory for the list.
    ensures refused { IfErr result (λ refusal. (refusal.0 ≡ 50) ⊎ ((i : ℕ) × (i < plan.now.shards) × IsUnusable (S.refuses stores.now folder.now plan.now i)
        (S.opens stores.now folder.now plan.now i) S.Records.may_leave S.Records.is_stopped i plan.now.shards refusal.0)) }
{
    look_beside_each(stores, folder, plan, hasher)?;
    let opened = open_each(rt, alloc, stores, folder, plan, identity, hasher)?;
    match all_or_first(alloc, opened) {
        Ok(shards) => Ok(shards),
        Err(refusal) => Err(refusal),
    }
}

/// Looks at the stores beside each missing store of a plan.
fn look_beside_each<S: Stores>(
    stores: &S,
    folder: &str,
    plan: &Plan,
    hasher: RandomState,
) -> Result<(), StoreRefusal>
    ensures { IfErr result (λ refusal. (i : ℕ) × (i < plan.now.shards) × S.refuses stores.now folder.now plan.now i refusal.0) }
{
    for shard in 0..usize::from(plan.shards()) {
        stores.look_beside(folder, plan, shard, hasher)?;
    }
    Ok(())
}

/// Opens the store of each shard, side by side, and returns the shard of each, or its error, in order. The only other error is want of memory.
fn open_each<T: Threads + Sync, S: Stores + Sync>(
    rt: &T,
    alloc: Global,
    stores: &S,
    folder: &str,
    plan: &Plan,
    identity: &Identity,
    hasher: RandomState,
) -> Result<Vec<Result<Shard<S::Records>, StoreRefusal>>, AllocError>
    ensures count { IfOk result (λ opened. length opened.items ≡ plan.now.shards) }
    ensures few { IfOk result (λ opened. (1 ≤ length opened.items) × (length opened.items ≤ 8)) }
    ensures each { IfOk result (λ opened. (i : ℕ) (none : Result (StoredView S.Records) StoreRefusal) → i < plan.now.shards
        → IsEither (IsStarted (S.opens stores.now folder.now plan.now) S.Records.may_leave plan.now.terms identity.now plan.now.shards i)
        (λ refusal. IsUnusable (S.refuses stores.now folder.now plan.now i) (S.opens stores.now folder.now plan.now i) S.Records.may_leave S.Records.is_stopped i plan.now.shards refusal.0)
        (slice_index_or opened.items i none)) }
{
    let count = usize::from(plan.shards());
    map_indices(
        rt,
        alloc,
        count,
        &|index: usize| -> Result<Shard<S::Records>, StoreRefusal>
            ensures opened { IsEither (IsStarted (S.opens stores.entry.now folder.entry.now plan.entry.now) S.Records.may_leave plan.entry.now.terms identity.entry.now plan.entry.now.shards index)
                (λ refusal. IsUnusable (S.refuses stores.entry.now folder.entry.now plan.entry.now index)
                (S.opens stores.entry.now folder.entry.now plan.entry.now index) S.Records.may_leave S.Records.is_stopped index plan.entry.now.shards refusal.0) result }
        { shard_at(alloc, stores, folder, plan, identity, index, hasher) },
    )
}

/// The shards of these results, in order, or the first error. The only other error is want of memory.
fn all_or_first<R: Records + Drop>(
    alloc: Global,
    opened: Vec<Result<Shard<R>, StoreRefusal>>,
) -> Result<Vec<Shard<R>>, StoreRefusal>
    ensures all { IfOk result (λ shards. opened.items ≡ map Ok shards.items) }
    ensures first { IfErr result (λ refusal. (refusal.0 ≡ 50) ⊎ IsFirstError opened.items refusal) }
{
    let mut opened = opened;
    let Ok(mut shards) = Vec::with_capacity(alloc, opened.len()) else {
        // By a call, here and below: shards that are let go in place are proved part by part.
        drop(opened);
        return Err(StoreRefusal(50));
    };
    while opened.len() > 0 {
        match opened.remove(0) {
            Ok(shard) => shards.push_reserved(shard),
            Err(refusal) => {
                drop(shards);
                drop(opened);
                return Err(refusal);
            }
        }
    }
    drop(opened);
    Ok(shards)
}

/// Opens the store of this index, or makes the store if there is none, and returns the shard over it. The error is the store's.
pub fn shard_at<S: Stores>(
    alloc: Global,
    stores: &S,
    folder: &str,
    plan: &Plan,
    identity: &Identity,
    index: usize,
    hasher: RandomState,
) -> Result<Shard<S::Records>, StoreRefusal>
    ensures started { IfOk result (IsStarted (S.opens stores.now folder.now plan.now) S.Records.may_leave plan.now.terms identity.now plan.now.shards index) }
    ensures refused { IfErr result (λ refusal. IsUnusable (S.refuses stores.now folder.now plan.now index)
        (S.opens stores.now folder.now plan.now index) S.Records.may_leave S.Records.is_stopped index plan.now.shards refusal.0) }
{
    let count = usize::from(plan.shards());
    let records = stores.open_or_make(folder, plan, index, hasher)?;
    // By a match: the clauses of a shard and the clause of a refusal are proved apart.
    match shard_over(alloc, identity, records, index, count, hasher) {
        Ok(shard) => Ok(shard),
        Err(refusal) => Err(refusal),
    }
}
