//! Shards in memory.

ghost use Rattle.std.specs.Prelude.{◌≡◌, ◌≤◌, [], IfOk, length};
ghost use Rattle.dcc_act.specs.declared.sub.Sub.{Sub};
ghost use Rattle.dcc_shard.specs.Shards.{held, AreOwn};

use crate::shard::Shard;
use crate::shards::Shards;
use dcc_message::Identity;
use dcc_store::{MemoryRecords, content_has_one_book};
use dcc_tariff::Terms;
use std::alloc::{AllocError, Global};
use std::hash::RandomState;

/// So many shards without accounts, 1 to 8, whose records are in memory, under these terms and for this server. Subscribers are found
/// by hashes under `hasher`. The only error is want of memory.
pub fn shards_in_memory(
    alloc: Global,
    terms: &Terms,
    identity: Identity,
    count: u8,
    hasher: RandomState,
) -> Result<Shards<MemoryRecords>, AllocError>
    requires some { 1 ≤ count }
    requires most { count ≤ 8 }
    ensures terms { IfOk result (λ shards. shards.shard.terms ≡ terms.now) }
    ensures identity { IfOk result (λ shards. shards.shard.identity ≡ identity) }
    ensures count { IfOk result (λ shards. length shards.parts ≡ count) }
    ensures nothing { IfOk result (λ shards. (sub : Sub) → held shards.shard sub ≡ []) }
    ensures own { IfOk result (λ shards. AreOwn shards.shard) }
{
    let mut shards = Vec::with_capacity(alloc, usize::from(count))?;
    for _ in 0..count {
        match shard_in_memory(alloc, terms, &identity, hasher) {
            Ok(shard) => shards.push_reserved(shard),
            Err(error) => {
                // By a call: shards that are let go in place are proved part by part.
                drop(shards);
                return Err(error);
            }
        }
    }
    Ok(Shards::new(terms, identity, shards))
}

/// A shard without accounts whose records are in memory.
fn shard_in_memory(
    alloc: Global,
    terms: &Terms,
    identity: &Identity,
    hasher: RandomState,
) -> Result<Shard<MemoryRecords>, AllocError>
    ensures terms { IfOk result (λ shard. shard.shard.terms ≡ terms.now) }
    ensures identity { IfOk result (λ shard. shard.shard.identity ≡ identity.now) }
    ensures nothing { IfOk result (λ shard. (sub : Sub) → held shard.shard sub ≡ []) }
{
    content_has_one_book();
    let records = MemoryRecords::new(alloc, terms, hasher);
    match Shard::new(alloc, identity, records, hasher) {
        Ok(shard) => Ok(shard),
        Err((_, records)) => {
            drop(records);
            Err(AllocError)
        }
    }
}
