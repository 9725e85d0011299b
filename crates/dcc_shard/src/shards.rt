//! Shards as one.

ghost use Rattle.std.specs.Prelude.{◌≡◌, ◌≢◌, ◌≤◌, ◌<◌, ◌==◌, ◌++◌, ℕ, [], true, false, IfOk, IfSome, IfNone, OnOk, is_some, filter, length, slice_index_or};
ghost use Rattle.std.specs.List.Sorted.{IsStrictlySortedBy};
ghost use Rattle.dcc_act.specs.declared.sub.Sub.{Sub};
ghost use Rattle.dcc_model.specs.Keys.{request_key};
ghost use Rattle.dcc_shard.specs.Openers.{IsFound, opened};
ghost use Rattle.dcc_shard.specs.Shards.{held, AreOwn, IsStep, is_among, are_apart};
ghost use Rattle.dcc_shard.specs.Stored.{StoredView};
ghost use Rattle.dcc_shard.specs.Routes.{shard_of, route_order, part_of, IsPartStep};
ghost use Rattle.dcc_shard.specs.Answers.{IsAnswer, IsToldApart, IsTold, octets_of, is_judged, is_judged_top_up, top_up_act};
ghost use Rattle.dcc_shard.specs.Answers.{IsExpired, is_judged_expiry, expiry_act};

use crate::answers::{ExpiryAnswer, RequestAnswer, TopUpAnswer};
use crate::route::shard_of;
use crate::shard::Shard;
use dcc_account::Account;
use dcc_act::{Act, Moment, SessionId, Sub, same_subscribers_are_equal};
use dcc_answer::{MAX_ANSWER, Proxies};
use dcc_message::{Header, Identity};
use dcc_model::leaving_out_changes_nothing;
use dcc_octets::Host;
use dcc_openers::Found;
use dcc_store::Records;
use dcc_tariff::Terms;
use std::alloc::{AllocError, Global};
use std::marker::Model;

/// 1 to 8 shards as one, under one plan's terms and for one server. Each shard keeps the subscribers that [`shard_of`] gives it.
#[derive(Drop)]
pub struct Shards<R: Records> {
    terms: Terms,
    identity: Identity,
    shards: Vec<Shard<R>>,
}

impl<R: Records> Model for Shards<R> {
    ghost use Rattle.dcc_shard.specs.Routes.{ShardsView};
    ghost use Rattle.dcc_shard.specs.inner.Routed.{as_one, AreShards};

    ghost Value = { ShardsView R };

    ghost view = { λ s. record { shard = as_one s.terms s.identity s.shards.items; parts = s.shards.items } };

    ghost invariant = { λ s. AreShards s.terms s.identity s.shards.items };
}

impl<R: Records> Shards<R> {
    /// These shards as one. It takes no memory. The conditions: 1 to 8 shards, under these terms and for this server, each of which
    /// holds only subscribers that [`shard_of`] gives it.
    pub fn new(terms: &Terms, identity: Identity, shards: Vec<Shard<R>>) -> Shards<R>
        requires some { 1 ≤ length shards.items }
        requires most { length shards.items ≤ 8 }
        requires terms { (i : ℕ) (none : StoredView R) → i < length shards.items → (slice_index_or shards.items i none).shard.terms ≡ terms.now }
        requires identity { (i : ℕ) (none : StoredView R) → i < length shards.items
            → (slice_index_or shards.items i none).shard.identity ≡ identity }
        requires placed { (i : ℕ) (none : StoredView R) (sub : Sub) → i < length shards.items
            → held (slice_index_or shards.items i none).shard sub ≢ [] → shard_of sub (length shards.items) ≡ i }
        ensures terms { result.shard.terms ≡ terms.now }
        ensures identity { result.shard.identity ≡ identity }
        ensures parts { result.parts ≡ shards.items }
        ensures held { (sub : Sub) (none : StoredView R) → held result.shard sub
            ≡ held (slice_index_or shards.items (shard_of sub (length shards.items)) none).shard sub }
        ensures own { AreOwn result.shard }
    {
        same_subscribers_are_equal();
        for shard in &shards {
            shard.acts_are_own();
        }
        Shards {
            terms: *terms,
            identity,
            shards,
        }
    }

    /// The shards, each with its records, moved out.
    pub fn into_vec(self) -> Vec<Shard<R>>
        ensures parts { result.items ≡ self.parts }
        ensures held { (sub : Sub) (none : StoredView R) → held self.shard sub
            ≡ held (slice_index_or result.items (shard_of sub (length result.items)) none).shard sub }
    {
        same_subscribers_are_equal();
        let Shards {
            terms: _,
            identity: _,
            shards,
        } = self;
        shards
    }

    /// Does nothing: the held acts of each subscriber are exactly those that their own list makes.
    pub fn acts_are_own(&self)
        ensures { AreOwn self.now.shard }
    {
        let _shards = &self.shards;
    }

    /// The identity of the server that answers.
    pub fn identity(&self) -> &Identity
        ensures { result.now ≡ self.now.shard.identity }
    {
        &self.identity
    }

    /// The account of a subscriber, if there is one: if an act of the subscriber was made.
    pub fn account(&self, sub: Sub) -> Option<&Account>
        ensures terms { IfSome result (λ account. account.now.terms ≡ self.now.shard.terms) }
        ensures acts { IfSome result (λ account. account.now.acts ≡ held self.now.shard sub) }
        ensures some { IfSome result (λ account. account.now.acts ≢ []) }
        ensures none { IfNone result (held self.now.shard sub ≡ []) }
    {
        same_subscribers_are_equal();
        let i = shard_of(&sub, self.shards.len());
        let shard = &self.shards[i];
        shard.account(sub)
    }

    /// The subscribers that have acts, each once: by shard, and then by type and data. The only error is want of memory.
    pub fn subs(&self, alloc: Global) -> Result<Vec<Sub>, AllocError>
        ensures order { IfOk result (λ subs. IsStrictlySortedBy (route_order (length self.now.parts)) subs.items) }
        ensures once { IfOk result (λ subs. are_apart subs.items ≡ true) }
        ensures some { IfOk result (λ subs. (sub : Sub) → is_among sub subs.items ≡ true → held self.now.shard sub ≢ []) }
        ensures none { IfOk result (λ subs. (sub : Sub) → is_among sub subs.items ≡ false → held self.now.shard sub ≡ []) }
    {
        same_subscribers_are_equal();
        let count = self.shards.len();
        let mut all = Vec::new(alloc);
        for i in 0..count {
            let shard = &self.shards[i];
            let subs = shard.subs(alloc)?;
            add_own(&mut all, &subs, i, count)?;
        }
        Ok(all)
    }

    /// Who opened the session from the host, by the acts held in all shards: nobody, one subscriber, or several. It takes no memory, and
    /// looks into each shard once.
    pub fn find(&self, host: &Host, sid: &SessionId) -> Found
        ensures { IsFound (opened self.now.shard host.now sid.now) result }
    {
        same_subscribers_are_equal();
        let mut found = Found::None;
        for shard in &self.shards {
            found = found.join(shard.find(host, sid));
        }
        found
    }

    /// Makes a request's act in its subscriber's shard, and answers the request as [`Shard::step`] does.
    pub fn step(
        &mut self,
        alloc: Global,
        sub: Sub,
        act: Act,
        header: &Header,
        proxies: &Proxies,
    ) -> RequestAnswer
        requires { is_some (request_key act.kind) ≡ true }
        ensures answer { IsAnswer self.old.shard sub act header.now proxies.now result }
        ensures step { IsStep self.old.shard self.new.shard (is_judged result) sub act }
        // The act is made in the shard that keeps the subscriber, and in no other shard.
        ensures parts { IsPartStep self.old.parts self.new.parts (is_judged result) sub act }
        // If the records of this shard are stopped, it judges nothing.
        ensures stopped { (none : StoredView R) → R.is_stopped (part_of self.old.parts sub none).records ≡ true → is_judged result ≡ false }
        ensures own { AreOwn self.new.shard }
        ensures apart { IsToldApart result }
        // No answer has more octets.
        ensures bounded { length (octets_of result) ≤ MAX_ANSWER }
        ensures count { length self.new.parts ≡ length self.old.parts }
    {
        same_subscribers_are_equal();
        leaving_out_changes_nothing();
        let i = shard_of(&sub, self.shards.len());
        let shard = &mut self.shards[i];
        shard.step(alloc, sub, act, header, proxies)
    }

    /// Puts money into a subscriber's account, in minor units, as [`Shard::top_up`] does.
    pub fn top_up(
        &mut self,
        alloc: Global,
        sub: Sub,
        moment: Moment,
        ticket: u64,
        amount: u64,
    ) -> TopUpAnswer
        ensures answer { IsTold self.old.shard sub moment ticket amount result }
        ensures step { IsStep self.old.shard self.new.shard (is_judged_top_up result) sub (top_up_act moment ticket amount) }
        // The act is made in the shard that keeps the subscriber, and in no other shard.
        ensures parts { IsPartStep self.old.parts self.new.parts (is_judged_top_up result) sub (top_up_act moment ticket amount) }
        // If the records of this shard are stopped, it judges nothing.
        ensures stopped { (none : StoredView R) → R.is_stopped (part_of self.old.parts sub none).records ≡ true → is_judged_top_up result ≡ false }
        ensures own { AreOwn self.new.shard }
        ensures count { length self.new.parts ≡ length self.old.parts }
    {
        same_subscribers_are_equal();
        leaving_out_changes_nothing();
        let i = shard_of(&sub, self.shards.len());
        let shard = &mut self.shards[i];
        shard.top_up(alloc, sub, moment, ticket, amount)
    }

    /// Ends the subscriber's sessions whose deadline is this moment or an earlier moment.
    pub fn expire(&mut self, alloc: Global, sub: Sub, moment: Moment) -> ExpiryAnswer
        ensures answer { IsExpired self.old.shard sub moment result }
        ensures step { IsStep self.old.shard self.new.shard (is_judged_expiry result) sub (expiry_act moment) }
        // The act is made in the shard that keeps the subscriber, and in no other shard.
        ensures parts { IsPartStep self.old.parts self.new.parts (is_judged_expiry result) sub (expiry_act moment) }
        // If the records of this shard are stopped, it judges nothing.
        ensures stopped { (none : StoredView R) → R.is_stopped (part_of self.old.parts sub none).records ≡ true → is_judged_expiry result ≡ false }
        ensures own { AreOwn self.new.shard }
        ensures count { length self.new.parts ≡ length self.old.parts }
    {
        same_subscribers_are_equal();
        leaving_out_changes_nothing();
        let i = shard_of(&sub, self.shards.len());
        let shard = &mut self.shards[i];
        shard.expire(alloc, sub, moment)
    }
}

/// Adds those of the subscribers that belong to the shard at this index, of so many shards. The only error is want of memory.
fn add_own(all: &mut Vec<Sub>, subs: &[Sub], i: usize, count: usize) -> Result<(), AllocError>
    requires { 0 < count }
    ensures { OnOk result (all.new.items ≡ all.old.items ++ filter (λ sub. shard_of sub count == i) subs.now) }
{
    for sub in subs {
        if shard_of(sub, count) == i {
            all.push(*sub)?;
        }
    }
    Ok(())
}
