//! Whether shards are those that were opened.

ghost use Rattle.std.specs.Prelude.{◌≡◌, ◌≢◌, ◌<◌, ℕ, [], true, false, IfOk, length};
ghost use Rattle.dcc_act.specs.declared.sub.Sub.{Sub};
ghost use Rattle.dcc_running.specs.Books.{AreShards};
ghost use Rattle.dcc_shard.specs.Routes.{shard_of};
ghost use Rattle.dcc_shard.specs.Shards.{held};

use crate::books::Books;
use crate::naming::Naming;
use dcc_act::same_subscribers_are_equal;
use dcc_message::Identity;
use dcc_shard::{Shard, shard_of};
use dcc_store::Records;
use dcc_tariff::Terms;
use std::alloc::{AllocError, Global};

/// Whether each shard is under the terms of the books, answers as their server, and holds only subscribers that it keeps. The only
/// error is want of memory.
pub(crate) fn are_shards<R: Records, J: Naming>(
    alloc: Global,
    books: &Books<R, J>,
) -> Result<bool, AllocError>
    ensures yes { IfOk result (λ all. all ≡ true → AreShards books.now.terms books.now.identity books.now.parts) }
    ensures no { IfOk result (λ all. all ≡ false → AreShards books.now.terms books.now.identity books.now.parts → ⊥) }
{
    let count = books.shards.len();
    for i in 0..count {
        let shard = &books.shards[i];
        if !is_under(shard, &books.terms, &books.identity) || !is_placed(alloc, shard, i, count)? {
            return Ok(false);
        }
    }
    Ok(true)
}

/// Whether a shard is under these terms and answers as this server.
fn is_under<R: Records>(shard: &Shard<R>, terms: &Terms, identity: &Identity) -> bool
    ensures yes { result ≡ true → (shard.now.shard.terms ≡ terms.now) × (shard.now.shard.identity ≡ identity.now) }
    ensures no { result ≡ false → shard.now.shard.terms ≡ terms.now → shard.now.shard.identity ≡ identity.now → ⊥ }
{
    same_terms(shard.records().terms(), terms) && same_identity(shard.identity(), identity)
}

/// Whether a shard holds only subscribers that the shard of this index keeps, of so many.
fn is_placed<R: Records>(
    alloc: Global,
    shard: &Shard<R>,
    index: usize,
    count: usize,
) -> Result<bool, AllocError>
    requires { 0 < count }
    ensures yes { IfOk result (λ placed. placed ≡ true → (sub : Sub) → held shard.now.shard sub ≢ [] → shard_of sub count ≡ index) }
    ensures no { IfOk result (λ placed. placed ≡ false → (sub : Sub) × (held shard.now.shard sub ≢ []) × (shard_of sub count ≢ index)) }
{
    same_subscribers_are_equal();
    let subs = shard.subs(alloc)?;
    for sub in &subs {
        if shard_of(sub, count) != index {
            return Ok(false);
        }
    }
    Ok(true)
}

fn same_terms(a: &Terms, b: &Terms) -> bool
    ensures yes { result ≡ true → a.now ≡ b.now }
    ensures no { result ≡ false → a.now ≢ b.now }
{
    a.validity == b.validity
        && a.hold == b.hold
        && a.currency == b.currency
        && a.exponent == b.exponent
}

fn same_identity(a: &Identity, b: &Identity) -> bool
    ensures yes { result ≡ true → a.now ≡ b.now }
    ensures no { result ≡ false → a.now ≢ b.now }
{
    a.host.as_slice() == b.host.as_slice()
        && a.realm.as_slice() == b.realm.as_slice()
        && a.address == b.address
}
