//! Shards out of their locks.

ghost use Rattle.std.specs.Prelude.{◌≡◌, ◌≢◌, ◌<◌, ◌≤◌, ℕ, [], true, false, length, map, slice_index_or, vec_len, vec_capacity, IfSome, IfNone};
ghost use Rattle.dcc_act.specs.declared.sub.Sub.{Sub};
ghost use Rattle.dcc_running.specs.Audited.{AreOwn, are_true, times_in};
ghost use Rattle.dcc_running.specs.Books.{AreShards, AreKept, AreLeft, BeginWith, HaveOwnPlaces, acts_told, book, told_in};
ghost use Rattle.dcc_running.specs.inner.Wards.{AreBeside, shard_in, side_in};
ghost use Rattle.dcc_shard.specs.Routes.{shard_of};
ghost use Rattle.dcc_shard.specs.Shards.{held};
ghost use Rattle.dcc_shard.specs.Stored.{StoredView};

use crate::lock::{Lock, Side};
use crate::naming::Naming;
use crate::opening::Numbers;
use crate::shards::{Shards, locked, unlocked, warded};
use crate::ward::Ward;
use dcc_account::Account;
use dcc_act::{Sub, same_subscribers_are_equal};
use dcc_message::Identity;
use dcc_model::leaving_out_changes_nothing;
use dcc_shard::{Shard, shard_of};
use dcc_store::Records;
use dcc_tariff::Terms;
use std::hash::RandomState;
use std::marker::{Model, PhantomData};

/// What shards hold that were at work under locks, once they are out of them: a list of acts for each subscriber. The acts that were held at opening stand in
/// the type, as `J`.
#[derive(Drop)]
pub struct Books<R: Records, J: Naming> {
    pub(crate) terms: Terms,
    pub(crate) identity: Identity,
    /// The number of each subscriber's acts at opening.
    numbers: Numbers,
    pub(crate) shards: Vec<Shard<R>>,
    /// Beside each shard the place of its lock, and its receipts that were audited.
    pub(crate) sides: Vec<Side>,
    /// No locks and no wards, with room for as many as there are shards.
    locks: Vec<Lock<R, J>>,
    wards: Vec<Ward<R, J>>,
    pub(crate) hasher: RandomState,
    of: PhantomData<J>,
}

impl<R: Records, J: Naming> Model for Books<R, J> {
    ghost use Rattle.std.specs.Prelude.{◌≡◌, ◌≤◌, vec_len, vec_capacity};
    ghost use Rattle.dcc_running.specs.Books.{BooksView};
    ghost use Rattle.dcc_running.specs.inner.Numbers.{AreNumbersOf};
    ghost use Rattle.dcc_running.specs.inner.Wards.{AreBeside};

    ghost Value = { BooksView R };

    ghost view = { λ b. record { terms = b.terms; identity = b.identity; parts = b.shards.items; sides = b.sides.items } };

    ghost invariant = { λ b. (1 ≤ vec_len b.shards) × (vec_len b.shards ≤ 8) × (vec_len b.locks ≡ 0) × (vec_len b.shards ≤ vec_capacity b.locks)
        × (vec_len b.wards ≡ 0) × (vec_len b.shards ≤ vec_capacity b.wards) × AreNumbersOf J.opening b.numbers.entries
        × (vec_len b.sides ≡ vec_len b.shards) × AreBeside J.opening b.sides.items b.shards.items };
}

impl<R: Records, J: Naming> Books<R, J> {
    /// The shards, once nobody is at work with them, out of their locks. It takes no memory, and waits for nobody.
    pub(crate) fn of(shards: Shards<R, J>) -> Books<R, J>
        ensures terms { result.terms ≡ shards.terms }
        ensures identity { result.identity ≡ shards.identity }
        ensures count { length result.parts ≡ shards.count }
    {
        let Shards {
            terms,
            identity,
            numbers,
            locks,
            wards,
            emptied,
            sides,
            hasher,
            of: _,
        } = shards;
        let (locks, wards) = unlocked(locks, wards);
        let (wards, shards, sides) = parted(wards, emptied, sides);
        Books {
            terms,
            identity,
            numbers,
            shards,
            sides,
            locks,
            wards,
            hasher,
            of: PhantomData,
        }
    }

    /// The account of a subscriber, where there is one: where an act of it was made.
    pub fn account(&self, sub: Sub) -> Option<&Account>
        ensures acts { IfSome result (λ account. account.now.acts ≡ book self.now.parts sub) }
        ensures some { IfSome result (λ account. account.now.acts ≢ []) }
        ensures none { IfNone result (book self.now.parts sub ≡ []) }
        ensures terms { IfSome result (λ account. AreShards self.now.terms self.now.identity self.now.parts → account.now.terms ≡ self.now.terms) }
    {
        let i = shard_of(&sub, self.shards.len());
        self.shards[i].account(sub)
    }

    /// How many acts of a subscriber there are.
    pub(crate) fn count(&self, sub: Sub) -> usize
        ensures { result ≡ length (book self.now.parts sub) }
    {
        match self.account(sub) {
            Some(account) => account.acts().len(),
            None => 0,
        }
    }

    /// Does nothing: the acts of each subscriber are those that they themselves make.
    pub(crate) fn acts_are_own(&self)
        requires { AreShards self.now.terms self.now.identity self.now.parts }
        ensures { AreOwn self.now }
    {
        leaving_out_changes_nothing();
        for shard in &self.shards {
            shard.acts_are_own();
        }
    }

    /// Does nothing: what a stop leaves of each shard is what it holds, or where its records are stopped at most one act beyond.
    pub(crate) fn records_are_kept(&self)
        ensures { AreKept R.is_stopped R.may_leave self.now.parts }
    {
        for shard in &self.shards {
            let _records = shard.records();
        }
    }

    /// The number of a subscriber's acts at opening.
    pub(crate) fn number_at_opening(&self, sub: &Sub) -> usize
        ensures { result ≡ length (J.opening sub.now) }
    {
        same_subscribers_are_equal();
        match self.numbers.get(sub) {
            Some(number) => *number,
            None => 0,
        }
    }

    /// How many acts the audited receipts are of: each act has one receipt that is fresh. At most 2^64 - 1.
    pub fn acts_told(&self) -> u64
        ensures { result ≡ acts_told self.now.sides }
    {
        acts_in(&self.sides)
    }

    /// Does nothing: the receipts that were audited are true of the acts of the books, and no place has two fresh ones.
    pub(crate) fn told_are_true(&self)
        requires { AreShards self.now.terms self.now.identity self.now.parts }
        ensures all { are_true self.now.identity self.now.terms J.opening (book self.now.parts) (told_in self.now.sides) ≡ true }
        ensures once { (sub : Sub) (place : ℕ) → times_in sub place (told_in self.now.sides) ≤ 1 }
    {
        same_subscribers_are_equal();
        for side in &self.sides {
            side.told.are_once();
        }
    }

    /// Does nothing: if each shard came out of its own lock, the acts of each subscriber begin with the acts at opening.
    pub(crate) fn acts_are_begun(&self)
        requires { HaveOwnPlaces self.now.sides }
        ensures { (sub : Sub) → BeginWith (J.opening sub) (book self.now.parts sub) }
    {
        let _shards = &self.shards;
    }

    /// The shards, each with its records, moved out. It takes no memory. Where `close` was Ok they may be opened again, as
    /// [`Shards::new`] asks for it.
    pub fn into_shards(self) -> Vec<Shard<R>>
    where
        R: Drop,
        ensures parts { result.items ≡ self.parts }
        ensures some { 1 ≤ length result.items }
        ensures most { length result.items ≤ 8 }
        ensures terms { AreShards self.terms self.identity self.parts → (i : ℕ) (none : StoredView R) → i < length result.items
            → (slice_index_or result.items i none).shard.terms ≡ self.terms }
        ensures identity { AreShards self.terms self.identity self.parts → (i : ℕ) (none : StoredView R) → i < length result.items
            → (slice_index_or result.items i none).shard.identity ≡ self.identity }
        ensures placed { AreShards self.terms self.identity self.parts → (i : ℕ) (none : StoredView R) (sub : Sub) → i < length result.items
            → held (slice_index_or result.items i none).shard sub ≢ [] → shard_of sub (length result.items) ≡ i }
        // The acts of a subscriber are those that its shard holds, and whatever a stop leaves of a shard has them all.
        ensures held { (sub : Sub) (none : StoredView R) → held (slice_index_or result.items (shard_of sub (length result.items)) none).shard sub
            ≡ book self.parts sub }
        ensures kept { AreKept R.is_stopped R.may_leave result.items }
        ensures left { AreLeft R.may_leave result.items }
    {
        self.records_are_kept();
        let Books {
            terms: _,
            identity,
            numbers,
            shards,
            sides,
            locks,
            wards,
            hasher: _,
            of: _,
        } = self;
        // By a call: what is let go in place is proved part by part.
        drop((identity, numbers, sides, locks, wards));
        shards
    }

    /// The shards under locks again, with the same acts at opening. It takes no memory.
    pub fn into_locks(self) -> Shards<R, J>
        ensures terms { result.terms ≡ self.terms }
        ensures identity { result.identity ≡ self.identity }
        ensures count { result.count ≡ length self.parts }
    {
        let Books {
            terms,
            identity,
            numbers,
            shards,
            sides,
            locks,
            wards,
            hasher,
            of: _,
        } = self;
        let (wards, emptied, sides) = warded(wards, shards, sides);
        let (locks, wards) = locked(locks, wards);
        Shards {
            terms,
            identity,
            numbers,
            locks,
            wards,
            emptied,
            sides,
            hasher,
            of: PhantomData,
        }
    }
}

/// Whether the place of each of these is that of its index, among as many as there are.
pub(crate) fn are_own(sides: &[Side]) -> bool
    ensures yes { result ≡ true → HaveOwnPlaces sides.now }
    ensures no { result ≡ false → HaveOwnPlaces sides.now → ⊥ }
{
    let count = sides.len();
    for index in 0..count {
        let place = sides[index].place;
        if place.index != index || place.count != count {
            return false;
        }
    }
    true
}

/// How many acts the audited receipts of these are of, at most 2^64 - 1.
fn acts_in(sides: &[Side]) -> u64
    ensures { result ≡ acts_told sides.now }
{
    let mut count = 0u64;
    for side in sides {
        count = count.saturating_add(side.told.acts());
    }
    count
}

/// The list of these wards, emptied; their shards, in order; and their sides. The shards and the sides are put into empty lists with room for them. It
/// takes no memory.
fn parted<R: Records, J: Naming>(
    wards: Vec<Ward<R, J>>,
    shards: Vec<Shard<R>>,
    sides: Vec<Side>,
) -> (Vec<Ward<R, J>>, Vec<Shard<R>>, Vec<Side>)
    requires no_shards { vec_len shards ≡ 0 }
    requires room { vec_len wards ≤ vec_capacity shards }
    requires no_sides { vec_len sides ≡ 0 }
    requires room_for_sides { vec_len wards ≤ vec_capacity sides }
    ensures emptied { vec_len result.0 ≡ 0 }
    ensures room { vec_len wards ≤ vec_capacity result.0 }
    ensures count { vec_len result.1 ≡ vec_len wards }
    ensures each { vec_len result.2 ≡ vec_len wards }
    ensures shards { result.1.items ≡ map shard_in wards.items }
    ensures sides { result.2.items ≡ map side_in wards.items }
    ensures begun { AreBeside J.opening result.2.items result.1.items }
{
    let mut wards = wards;
    let mut shards = shards;
    let mut sides = sides;
    while wards.len() > 0 {
        let (side, shard) = wards.remove(0).into_parts();
        shards.push_reserved(shard);
        sides.push_reserved(side);
    }
    (wards, shards, sides)
}
