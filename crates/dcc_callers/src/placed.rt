//! Whether shards may stand as one.

ghost use Rattle.std.specs.Prelude.{◌≡◌, ◌≢◌, ◌<◌, ℕ, [], true, length, IfOk};
ghost use Rattle.dcc_act.specs.declared.sub.Sub.{Sub};
ghost use Rattle.dcc_running.specs.Books.{AreShards, book};
ghost use Rattle.dcc_shard.specs.Routes.{shard_of};
ghost use Rattle.dcc_shard.specs.Shards.{held};

use dcc_message::Identity;
use dcc_shard::Shard;
use dcc_store::Records;
use dcc_tariff::Terms;
use std::alloc::{AllocError, Global};

/// Whether these shards are under these terms, answer as this server, and hold only subscribers that they keep.
pub fn are_shards<R: Records>(terms: &Terms, identity: &Identity, shards: &[Shard<R>]) -> bool
    ensures { result ≡ true → AreShards terms.now identity.now shards.now }
{
    let count = shards.len();
    for i in 0..count {
        let shard = &shards[i];
        if !is_under(shard, terms, identity) || !shard.is_placed(i, count) {
            return false;
        }
    }
    true
}

/// Whether these shards hold no acts. The only error is want of memory.
#[tactic(auto, using(crate::proofs::Nothing::nothing_in))]
pub fn hold_nothing<R: Records>(alloc: Global, shards: &[Shard<R>]) -> Result<bool, AllocError>
    ensures { IfOk result (λ nothing. nothing ≡ true → (sub : Sub) → book shards.now sub ≡ []) }
{
    for i in 0..shards.len() {
        if !holds_nothing(alloc, &shards[i])? {
            return Ok(false);
        }
    }
    Ok(true)
}

/// Whether a shard holds no acts. The only error is want of memory.
fn holds_nothing<R: Records>(alloc: Global, shard: &Shard<R>) -> Result<bool, AllocError>
    ensures { IfOk result (λ nothing. nothing ≡ true → (sub : Sub) → held shard.now.shard sub ≡ []) }
{
    let subs = shard.subs(alloc)?;
    Ok(subs.is_empty())
}

/// Whether a shard is under these terms and answers as this server.
fn is_under<R: Records>(shard: &Shard<R>, terms: &Terms, identity: &Identity) -> bool
    ensures { result ≡ true → (shard.now.shard.terms ≡ terms.now) × (shard.now.shard.identity ≡ identity.now) }
{
    same_terms(shard.records().terms(), terms) && same_identity(shard.identity(), identity)
}

fn same_terms(a: &Terms, b: &Terms) -> bool
    ensures { result ≡ true → a.now ≡ b.now }
{
    a.validity == b.validity
        && a.hold == b.hold
        && a.currency == b.currency
        && a.exponent == b.exponent
}

fn same_identity(a: &Identity, b: &Identity) -> bool
    ensures { result ≡ true → a.now ≡ b.now }
{
    a.host.as_slice() == b.host.as_slice()
        && a.realm.as_slice() == b.realm.as_slice()
        && a.address == b.address
}
