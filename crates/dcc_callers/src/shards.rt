//! Shards over any records, as these tests and others begin with them.

use dcc_message::{DiameterIdentity, Identity};
use dcc_shard::Shard;
use dcc_store::{MemoryRecords, Records};
use dcc_tariff::Terms;
use std::alloc::Global;
use std::hash::RandomState;
use std::random::RandomSource;
use std::test::Fail;

/// The terms of the samples' plan.
pub const TERMS: Terms = Terms {
    validity: 600,
    hold: 1200,
    currency: 978,
    exponent: -2,
};

/// A name of these octets. A constructor of literals, in its place, takes the prover minutes.
fn named(alloc: Global, name: &[u8]) -> Result<DiameterIdentity, Fail> {
    Ok(DiameterIdentity::from_vec(name.to_vec(alloc)?).ok_or("a name")?)
}

/// The names and the address of the samples' server.
pub fn identity(alloc: Global) -> Result<Identity, Fail> {
    Ok(Identity {
        host: named(alloc, b"ocs.example")?,
        realm: named(alloc, b"example")?,
        address: [127, 0, 0, 1],
    })
}

/// Records in memory without acts.
pub fn in_memory<S: RandomSource + AllocGlobal>(rt: &S) -> Result<MemoryRecords, Fail> {
    let hasher = RandomState::new(rt)?;
    Ok(MemoryRecords::new(rt.alloc(), &TERMS, hasher))
}

/// A shard of what these records hold.
pub fn shard_over<S: RandomSource + AllocGlobal, R: Records + Drop>(
    rt: &S,
    records: R,
) -> Result<Shard<R>, Fail> {
    let hasher = RandomState::new(rt)?;
    let identity = identity(rt.alloc())?;
    Shard::new(rt.alloc(), &identity, records, hasher).map_err(|_| Fail::from("a shard"))
}

/// Shards of what both records hold.
pub fn pair<S: RandomSource + AllocGlobal, R: Records + Drop>(
    rt: &S,
    first: R,
    second: R,
) -> Result<Vec<Shard<R>>, Fail> {
    let mut shards = Vec::with_capacity(rt.alloc(), 2)?;
    shards.push_reserved(shard_over(rt, first)?);
    shards.push_reserved(shard_over(rt, second)?);
    Ok(shards)
}
