//! The shards under their locks.

ghost use Rattle.std.specs.Prelude.{◌≡◌, ◌≢◌, ℕ, ◌<◌, ◌≤◌, [], length, map, slice_index_or, IfOk, IfErr, vec_len, vec_capacity};
ghost use Rattle.std.specs.List.Sorted.{IsStrictlySortedBy};
ghost use Rattle.dcc_act.specs.declared.sub.Sub.{Sub};
ghost use Rattle.dcc_store.specs.Books.{sub_order};
ghost use Rattle.dcc_running.specs.Books.{HaveOwnPlaces, book};
ghost use Rattle.dcc_running.specs.Calls.{AreSubs, IsReadOf, IsResolved, IsToldStopped};
ghost use Rattle.dcc_running.specs.inner.Batches.{AreKeptAt};
ghost use Rattle.dcc_running.specs.inner.Locks.{AreOf};
ghost use Rattle.dcc_running.specs.inner.Numbers.{AreNumbersOf};
ghost use Rattle.dcc_running.specs.inner.Told.{none_told};
ghost use Rattle.dcc_running.specs.inner.Wards.{AreBeside, shard_in, side_in};
ghost use Rattle.dcc_shard.specs.Routes.{shard_of};
ghost use Rattle.dcc_shard.specs.Shards.{held};
ghost use Rattle.dcc_shard.specs.Stored.{StoredView};

use crate::lock::{Lock, Place, Side};
use crate::look::Look;
use crate::naming::Naming;
use crate::opening::{Numbers, counted};
use crate::seat::Seat;
use crate::told::Told;
use crate::touches::Touches;
use crate::ward::Ward;
use dcc_act::{SessionId, Sub, same_subscribers_are_equal};
use dcc_message::Identity;
use dcc_octets::Host;
use dcc_shard::{Call, Found, Shard, shard_of};
use dcc_store::Records;
use dcc_tariff::Terms;
use std::alloc::{AllocError, Global};
use std::hash::RandomState;
use std::marker::{Model, PhantomData};
use std::sync::{MutexGuard, Wait};

/// 1 to 8 shards, each under its lock. The acts that were held when they were put there stand in the type, as `J`.
#[derive(Drop)]
pub struct Shards<R: Records, J: Naming> {
    pub(crate) terms: Terms,
    pub(crate) identity: Identity,
    /// The number of each subscriber's acts at opening.
    pub(crate) numbers: Numbers,
    pub(crate) locks: Vec<Lock<R, J>>,
    /// No wards, no shards and no sides, with room for as many as there are locks.
    pub(crate) wards: Vec<Ward<R, J>>,
    pub(crate) emptied: Vec<Shard<R>>,
    pub(crate) sides: Vec<Side>,
    pub(crate) hasher: RandomState,
    pub(crate) of: PhantomData<J>,
}

impl<R: Records, J: Naming> Model for Shards<R, J> {
    ghost use Rattle.std.specs.Prelude.{◌≡◌, ◌≤◌, vec_len, vec_capacity};
    ghost use Rattle.dcc_running.specs.Books.{LockedView};
    ghost use Rattle.dcc_running.specs.inner.Locks.{AreOf};
    ghost use Rattle.dcc_running.specs.inner.Numbers.{AreNumbersOf};

    ghost Value = { LockedView };

    ghost view = { λ s. record { terms = s.terms; identity = s.identity; count = vec_len s.locks } };

    ghost invariant = { λ s. (1 ≤ vec_len s.locks) × (vec_len s.locks ≤ 8) × (vec_len s.wards ≡ 0) × (vec_len s.locks ≤ vec_capacity s.wards)
        × (vec_len s.emptied ≡ 0) × (vec_len s.locks ≤ vec_capacity s.emptied) × AreOf (vec_len s.locks) s.locks.items
        × AreNumbersOf J.opening s.numbers.entries × (vec_len s.sides ≡ 0) × (vec_len s.locks ≤ vec_capacity s.sides) };
}

impl<R: Records, J: Naming> Shards<R, J> {
    /// These shards, each under a lock. The conditions: 1 to 8 shards, under these terms and for this server, each of which holds only
    /// subscribers that [`dcc_shard::shard_of`] gives it; `J` is of the acts that they hold. Subscribers are found by hashes under this state. It copies no
    /// acts. The only error is want of memory, and then the shards are handed back.
    pub fn new(
        alloc: Global,
        terms: &Terms,
        identity: &Identity,
        shards: Vec<Shard<R>>,
        hasher: RandomState,
    ) -> Result<Shards<R, J>, Vec<Shard<R>>>
    where
        R: Drop,
        requires some { 1 ≤ length shards.items }
        requires most { length shards.items ≤ 8 }
        requires terms { (i : ℕ) (none : StoredView R) → i < length shards.items → (slice_index_or shards.items i none).shard.terms ≡ terms.now }
        requires identity { (i : ℕ) (none : StoredView R) → i < length shards.items
            → (slice_index_or shards.items i none).shard.identity ≡ identity.now }
        requires placed { (i : ℕ) (none : StoredView R) (sub : Sub) → i < length shards.items
            → held (slice_index_or shards.items i none).shard sub ≢ [] → shard_of sub (length shards.items) ≡ i }
        requires opening { (sub : Sub) → J.opening sub ≡ book shards.items sub }
        ensures terms { IfOk result (λ locked. locked.terms ≡ terms.now) }
        ensures identity { IfOk result (λ locked. locked.identity ≡ identity.now) }
        ensures count { IfOk result (λ locked. locked.count ≡ length shards.items) }
        ensures back { IfErr result (λ back. back.items ≡ shards.items) }
    {
        let Ok((identity, numbers, locks, wards, sides)) = room_for(
            alloc, identity, &shards, hasher,
        ) else {
            return Err(shards);
        };
        let sides = own_sides(alloc, hasher, sides, shards.len());
        let (wards, emptied, sides) = warded(wards, shards, sides);
        let (locks, wards) = locked(locks, wards);
        Ok(Shards {
            terms: *terms,
            identity,
            numbers,
            locks,
            wards,
            emptied,
            sides,
            hasher,
            of: PhantomData,
        })
    }

    /// A seat without receipts, for one caller. Its number is its index in the list of seats that [`Shards::close`] gets. The only error is want of memory.
    pub fn seat(&self, alloc: Global, number: usize) -> Result<Seat, AllocError>
        ensures { IfOk result (λ seat. seat ≡ []) }
    {
        Seat::new(alloc, number)
    }

    /// The subscribers of the shard of this index that have acts, each once, in their order: by type, and then by the data, octet by
    /// octet. It waits for the shard's lock. The condition is that there is such a shard; the only error is want of memory.
    pub fn subs<W: Wait>(&self, rt: &W, alloc: Global, shard: usize) -> Result<Vec<Sub>, AllocError>
        requires { shard < self.now.count }
        ensures order { IfOk result (λ subs. IsStrictlySortedBy sub_order subs.items) }
        ensures held { IfOk result (λ subs. AreSubs subs.items) }
    {
        self.locks[shard].lock_as(rt, shard).shard().subs(alloc)
    }

    /// Who opened the session from the host, by what each shard holds when its lock is taken: nobody, one subscriber, or several. It
    /// waits for each lock in turn, one at a time, and takes no memory.
    pub fn resolve<W: Wait>(&self, rt: &W, host: &Host, sid: &SessionId) -> Found
        ensures { IsResolved self.now.count host.now sid.now result }
    {
        let mut found = Found::None;
        for shard in 0..self.locks.len() {
            let ward = self.locks[shard].lock_as(rt, shard);
            found = found.join(ward.shard().find(host, sid));
        }
        found
    }

    /// Whether the records of the shard of this index have failed, as they are when its lock is taken. It waits for the shard's lock, and takes no
    /// memory. The condition is that there is such a shard.
    pub fn is_stopped<W: Wait>(&self, rt: &W, shard: usize) -> bool
        requires { shard < self.now.count }
        ensures { IsToldStopped R.is_stopped result }
    {
        let ward = self.locks[shard].lock_as(rt, shard);
        ward.shard().records().is_stopped()
    }

    /// What a reader finds in the shard of this index, as the shard is when its lock is taken. It waits for the shard's lock, and holds it until
    /// the reader returns. No act is made in the shard meanwhile. The condition is that there is such a shard.
    pub fn read<W: Wait, L: Look<R>>(&self, rt: &W, shard: usize, look: L) -> L::Found
        requires { shard < self.now.count }
        ensures { IsReadOf (L.finds look shard) result }
    {
        look.look(shard, self.locks[shard].lock_as(rt, shard).shard())
    }

    /// The number of a subscriber's acts at opening.
    pub(crate) fn number_at_opening(&self, sub: &Sub) -> usize
        ensures { result ≡ length (J.opening sub.now) }
    {
        same_subscribers_are_equal();
        match self.numbers.get(sub) {
            Some(number) => *number,
            None => 0,
        }
    }

    /// The number of shards.
    pub fn count(&self) -> usize
        ensures { result ≡ self.now.count }
    {
        self.locks.len()
    }

    /// The index of the shard that keeps a subscriber.
    pub fn index_of(&self, sub: &Sub) -> usize
        ensures value { result ≡ shard_of sub.now self.now.count }
        ensures within { result < self.now.count }
    {
        shard_of(sub, self.locks.len())
    }

    /// Waits for the lock of the shard that keeps the subscribers of these calls. The conditions: it keeps this subscriber, and the subscriber
    /// of each call.
    pub(crate) fn lock_of_all<'a, W: Wait>(
        &'a self,
        rt: &W,
        sub: &Sub,
        calls: &[Call],
    ) -> MutexGuard<'a, Ward<R, J>>
        requires { AreKeptAt (record { index = shard_of sub.now self.now.count; count = self.now.count }) calls.now }
    {
        let at = shard_of(sub, self.locks.len());
        self.locks[at].lock_for_all(rt, calls)
    }

    /// Waits for the lock of the shard that keeps a subscriber.
    pub(crate) fn lock_of<'a, W: Wait>(&'a self, rt: &W, sub: &Sub) -> MutexGuard<'a, Ward<R, J>> {
        let index = shard_of(sub, self.locks.len());
        self.locks[index].lock_for(rt, sub)
    }
}

/// All that is taken of memory for shards under locks: a copy of the names, the numbers of the acts, and room for the locks, the wards and their sides.
fn room_for<R: Records + Drop, J: Naming>(
    alloc: Global,
    identity: &Identity,
    shards: &[Shard<R>],
    hasher: RandomState,
) -> Result<
    (
        Identity,
        Numbers,
        Vec<Lock<R, J>>,
        Vec<Ward<R, J>>,
        Vec<Side>,
    ),
    AllocError,
>
    requires some { 1 ≤ length shards.now }
    requires placed { (i : ℕ) (none : StoredView R) (sub : Sub) → i < length shards.now
        → held (slice_index_or shards.now i none).shard sub ≢ [] → shard_of sub (length shards.now) ≡ i }
    ensures identity { IfOk result (λ room. room.0 ≡ identity.now) }
    ensures numbers { IfOk result (λ room. AreNumbersOf (book shards.now) room.1.entries) }
    ensures no_locks { IfOk result (λ room. vec_len room.2 ≡ 0) }
    ensures locks { IfOk result (λ room. length shards.now ≤ vec_capacity room.2) }
    ensures no_wards { IfOk result (λ room. vec_len room.3 ≡ 0) }
    ensures wards { IfOk result (λ room. length shards.now ≤ vec_capacity room.3) }
    ensures no_sides { IfOk result (λ room. vec_len room.4 ≡ 0) }
    ensures sides { IfOk result (λ room. length shards.now ≤ vec_capacity room.4) }
{
    let identity = identity.copy()?;
    let Ok(numbers) = counted(alloc, shards, hasher) else {
        // By a call, here and below: what is let go in place is proved part by part.
        drop(identity);
        return Err(AllocError);
    };
    let Ok(locks) = Vec::with_capacity(alloc, shards.len()) else {
        drop((identity, numbers));
        return Err(AllocError);
    };
    let Ok(wards) = Vec::with_capacity(alloc, shards.len()) else {
        drop((identity, numbers, locks));
        return Err(AllocError);
    };
    let Ok(sides) = Vec::with_capacity(alloc, shards.len()) else {
        drop((identity, numbers, locks, wards));
        return Err(AllocError);
    };
    Ok((identity, numbers, locks, wards, sides))
}

/// The sides of so many shards, in order, without receipts, put into an empty list with room for them. It takes no memory.
fn own_sides(alloc: Global, hasher: RandomState, sides: Vec<Side>, count: usize) -> Vec<Side>
    requires none { vec_len sides ≡ 0 }
    requires room { count ≤ vec_capacity sides }
    ensures own { HaveOwnPlaces result.items }
    ensures untold { (i : ℕ) (none : Side) → i < length result.items → (slice_index_or result.items i none).told ≡ none_told }
    ensures count { vec_len result ≡ count }
    ensures room { count ≤ vec_capacity result }
{
    let mut sides = sides;
    while sides.len() < count {
        let index = sides.len();
        sides.push_reserved(Side {
            place: Place { index, count },
            told: Told::new(alloc, hasher),
            touches: Touches::new(alloc, hasher),
        });
    }
    sides
}

/// Each shard with its side, in order, and the lists of the shards and of the sides, emptied. It takes no memory. The condition: the acts of each
/// shard begin with the acts at opening, at its place, and its audited receipts are true.
pub(crate) fn warded<R: Records, J: Naming>(
    wards: Vec<Ward<R, J>>,
    shards: Vec<Shard<R>>,
    sides: Vec<Side>,
) -> (Vec<Ward<R, J>>, Vec<Shard<R>>, Vec<Side>)
    requires none { vec_len wards ≡ 0 }
    requires room { vec_len shards ≤ vec_capacity wards }
    requires begun { AreBeside J.opening sides.items shards.items }
    requires each { vec_len sides ≡ vec_len shards }
    ensures shards { map shard_in result.0.items ≡ shards.items }
    ensures sides { map side_in result.0.items ≡ sides.items }
    ensures count { vec_len result.0 ≡ vec_len shards }
    ensures emptied { vec_len result.1 ≡ 0 }
    ensures room { vec_len shards ≤ vec_capacity result.1 }
    ensures no_sides { vec_len result.2 ≡ 0 }
    ensures room_for_sides { vec_len shards ≤ vec_capacity result.2 }
{
    let mut wards = wards;
    let mut shards = shards;
    let mut sides = sides;
    while shards.len() > 0 {
        let side = sides.remove(0);
        wards.push_reserved(Ward::new(side, shards.remove(0)));
    }
    (wards, shards, sides)
}

/// Puts each shard under a lock, in order, and gives what held them back, emptied. It takes no memory.
pub(crate) fn locked<R: Records, J: Naming>(
    locks: Vec<Lock<R, J>>,
    wards: Vec<Ward<R, J>>,
) -> (Vec<Lock<R, J>>, Vec<Ward<R, J>>)
    requires none { vec_len locks ≡ 0 }
    requires room { vec_len wards ≤ vec_capacity locks }
    ensures count { vec_len result.0 ≡ vec_len wards }
    ensures places { AreOf (vec_len wards) result.0.items }
    ensures emptied { vec_len result.1 ≡ 0 }
    ensures room { vec_len wards ≤ vec_capacity result.1 }
{
    let mut locks = locks;
    let mut wards = wards;
    let count = wards.len();
    while wards.len() > 0 {
        let index = locks.len();
        locks.push_reserved(Lock::new(Place { index, count }, wards.remove(0)));
    }
    (locks, wards)
}

/// Takes each shard out of its lock, in order, and gives what held the locks back, emptied. It takes no memory.
pub(crate) fn unlocked<R: Records, J: Naming>(
    locks: Vec<Lock<R, J>>,
    wards: Vec<Ward<R, J>>,
) -> (Vec<Lock<R, J>>, Vec<Ward<R, J>>)
    requires none { vec_len wards ≡ 0 }
    requires room { vec_len locks ≤ vec_capacity wards }
    ensures count { vec_len result.1 ≡ vec_len locks }
    ensures emptied { vec_len result.0 ≡ 0 }
    ensures room { vec_len locks ≤ vec_capacity result.0 }
{
    let mut locks = locks;
    let mut wards = wards;
    while locks.len() > 0 {
        wards.push_reserved(locks.remove(0).into_ward());
    }
    (locks, wards)
}
