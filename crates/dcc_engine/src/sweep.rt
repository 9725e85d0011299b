//! A sweep: each subscriber's expiry, by itself.

ghost use Rattle.std.specs.Prelude.{◌≡◌, ◌<◌, true, length, vec_len, vec_capacity, IfOk, OnErr};
ghost use Rattle.std.specs.List.Sorted.{IsStrictlySortedBy};
ghost use Rattle.dcc_shard.specs.Answers.{expiry_act};
ghost use Rattle.dcc_shard.specs.Routes.{route_order};
ghost use Rattle.dcc_shard.specs.Shards.{AreOwn, are_apart};
ghost use Rattle.dcc_engine.specs.inner.Sweeps.{IsSwept, IsOneSwept};
ghost use Rattle.dcc_engine.specs.inner.Turns.{IsTurnDone};
ghost use Rattle.dcc_engine.specs.declared.event.Event.TheVariants.{Sweep};

use crate::engine::Engine;
use crate::event::Out;
use crate::outs::sweeping;
use crate::subs::Subs;
use dcc_act::{Moment, Sub, same_subscribers_are_equal};
use dcc_shard::{ExpiryAnswer, Shards};
use dcc_store::Records;
use std::alloc::{AllocError, Global};

impl<R: Records> Engine<R> {
    /// Ends the due sessions of every subscriber.
    pub(crate) fn sweep(&mut self, alloc: Global, moment: Moment) -> Out
        ensures done { IsTurnDone self.old self.new (record { event = Sweep moment; out = result }) }
        ensures peers { self.new.peers ≡ self.old.peers }
        ensures order { IsStrictlySortedBy (route_order self.old.shards) result.refused }
        ensures shards { self.new.shards ≡ self.old.shards }
    {
        same_subscribers_are_equal();
        let Ok(subs) = self.shards.subs(alloc) else {
            return sweeping(alloc, Subs::new(alloc), true);
        };
        match expire_each(&mut self.shards, alloc, &subs, moment) {
            Ok(refused) => sweeping(alloc, refused, false),
            Err(_) => sweeping(alloc, Subs::new(alloc), true),
        }
    }
}

/// Ends the due sessions of these subscribers, and returns the subscribers whose expiry was refused. The only error is want of memory
/// for this list; it changes nothing.
fn expire_each<R: Records>(
    shards: &mut Shards<R>,
    alloc: Global,
    subs: &[Sub],
    moment: Moment,
) -> Result<Subs, AllocError>
    requires once { are_apart subs.now ≡ true }
    requires order { IsStrictlySortedBy (route_order (length shards.old.parts)) subs.now }
    requires own { AreOwn shards.old.shard }
    ensures swept { IfOk result (λ refused. IsSwept shards.old.shard shards.new.shard subs.now refused (expiry_act moment)) }
    ensures order { IfOk result (IsStrictlySortedBy (route_order (length shards.old.parts))) }
    ensures count { length shards.new.parts ≡ length shards.old.parts }
    ensures err { OnErr result (shards.new ≡ shards.old) }
    ensures own { AreOwn shards.new.shard }
{
    same_subscribers_are_equal();
    let mut refused = Vec::with_capacity(alloc, subs.len())?;
    for sub in subs {
        expire_one(shards, alloc, *sub, moment, &mut refused);
    }
    Ok(Subs::from_vec(refused))
}

/// Ends the due sessions of a subscriber, and adds the subscriber to the refused ones if this is refused.
fn expire_one<R: Records>(
    shards: &mut Shards<R>,
    alloc: Global,
    sub: Sub,
    moment: Moment,
    refused: &mut Vec<Sub>,
)
    requires room { vec_len refused.old < vec_capacity refused.old }
    ensures swept { IsOneSwept shards.old.shard shards.new.shard refused.old.items refused.new.items sub (expiry_act moment) }
    ensures own { AreOwn shards.new.shard }
    ensures count { length shards.new.parts ≡ length shards.old.parts }
    ensures room { vec_capacity refused.new ≡ vec_capacity refused.old }
{
    if shards.expire(alloc, sub, moment) == ExpiryAnswer::Refused {
        refused.push_reserved(sub);
    }
}
