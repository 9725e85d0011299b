//! Shards under locks, opened of records.

ghost use Rattle.std.specs.Prelude.{◌<◌, IfOk};

use crate::placed::{are_shards, hold_nothing};
use crate::shards::{TERMS, identity, pair, shard_over};
use dcc_message::Identity;
use dcc_running::Shards;
use dcc_shard::Shard;
use dcc_store::Records;
use std::alloc::Global;
use std::hash::RandomState;
use std::marker::Brand;
use std::random::RandomSource;
use std::test::Fail;

/// These shards under locks, if they may stand as one and hold no acts.
fn locked<R: Records + Drop>(
    alloc: Global,
    identity: &Identity,
    shards: Vec<Shard<R>>,
    hasher: RandomState,
) -> Result<Shards<R, Brand>, Fail>
    ensures { IfOk result (λ locked. 0 < locked.count) }
{
    let count = shards.len();
    if count < 1 || count > 8 || !are_shards(&TERMS, identity, &shards) {
        drop(shards);
        return Err("shards".into());
    }
    if !matches!(hold_nothing(alloc, &shards), Ok(true)) {
        drop(shards);
        return Err("acts".into());
    }
    match Shards::new(alloc, &TERMS, identity, shards, hasher) {
        Ok(locked) => Ok(locked),
        Err(shards) => {
            drop(shards);
            Err("locks".into())
        }
    }
}

/// The same for the samples' server.
fn locked_for<S: RandomSource + AllocGlobal, R: Records + Drop>(
    rt: &S,
    shards: Result<Vec<Shard<R>>, Fail>,
) -> Result<Shards<R, Brand>, Fail>
    ensures { IfOk result (λ locked. 0 < locked.count) }
{
    let shards = shards?;
    match server(rt) {
        Ok((identity, hasher)) => locked(rt.alloc(), &identity, shards, hasher),
        Err(fail) => {
            drop(shards);
            Err(fail)
        }
    }
}

/// Its names, and by what its subscribers are found.
fn server<S: RandomSource + AllocGlobal>(rt: &S) -> Result<(Identity, RandomState), Fail> {
    let hasher = RandomState::new(rt)?;
    Ok((identity(rt.alloc())?, hasher))
}

/// A list of this shard alone. The only error is want of memory.
fn alone<R: Records + Drop>(alloc: Global, shard: Shard<R>) -> Result<Vec<Shard<R>>, Fail> {
    let mut shards = Vec::with_capacity(alloc, 1)?;
    shards.push_reserved(shard);
    Ok(shards)
}

/// The one shard over these records, under its lock.
pub fn one<S: RandomSource + AllocGlobal, R: Records + Drop>(
    rt: &S,
    records: R,
) -> Result<Shards<R, Brand>, Fail>
    ensures { IfOk result (λ locked. 0 < locked.count) }
{
    let shard = shard_over(rt, records)?;
    locked_for(rt, alone(rt.alloc(), shard))
}

/// Two shards over these records, each under its lock.
pub fn two<S: RandomSource + AllocGlobal, R: Records + Drop>(
    rt: &S,
    first: R,
    second: R,
) -> Result<Shards<R, Brand>, Fail> {
    locked_for(rt, pair(rt, first, second))
}
