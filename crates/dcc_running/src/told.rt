//! The receipts of a shard that were audited.

ghost use Rattle.std.specs.Prelude.{◌≡◌, ◌<◌, ◌≤◌, ◌-◌, ◌^◌, ◌++◌, ◌∷◌, ◌==◌, ◌&&◌, [], ℕ, Some, cond, min, nat_lt, true, false, IfErr, IfOk, OnErr, OnOk};
ghost use Rattle.std.specs.HashMap.{spare};
ghost use Rattle.dcc_act.specs.Subs.{same_sub};
ghost use Rattle.dcc_act.specs.declared.sub.Sub.{Sub};
ghost use Rattle.dcc_receipts.specs.Audit.{in_order, own, times};
ghost use Rattle.dcc_running.specs.Acts.{acts_of};
ghost use Rattle.dcc_running.specs.Audited.{IsOrdered};
ghost use Rattle.dcc_running.specs.Told.{told_of};
ghost use Rattle.dcc_running.specs.inner.Told.{IsTwice, are_placed, is_placed, none_told, told_with, top_in};
ghost use Rattle.dcc_receipts.specs.Tops.{in_order_by, top_after};

use crate::seen::Seen;
use dcc_act::{Sub, same_subscribers_are_equal};
use dcc_receipts::{CloseFault, Receipt, follows, orders_agree, top_after};
use std::alloc::{AllocError, Global};
use std::collections::HashMap;
use std::hash::RandomState;
use std::marker::Model;
use std::snapshot::Snapshot;

/// By a seat's number and a subscriber, the greatest place of the subscriber's receipts that the seat had.
type Tops = HashMap<(usize, Sub), u64, RandomState>;

/// The receipts of a shard that were audited, in order. It keeps what [`Seen`] keeps of them, and the greatest place of each seat and subscriber. Contracts
/// see it as the receipts and the numbers of their seats.
#[derive(Drop)]
pub(crate) struct Told {
    seen: Seen,
    /// The number of each one's seat.
    seats: Vec<Snapshot<usize>>,
    tops: Tops,
}

impl Model for Told {
    ghost use Rattle.std.specs.Prelude.{◌≡◌, length, vec_len};
    ghost use Rattle.dcc_running.specs.Told.{ToldView};
    ghost use Rattle.dcc_running.specs.inner.Told.{AreTops, numbers};

    ghost Value = { ToldView };

    ghost view = { λ t. record { receipts = t.seen; seats = numbers t.seats.items } };

    ghost invariant = { λ t. (length (numbers t.seats.items) ≡ length t.seen) × AreTops t.tops.entries (numbers t.seats.items) t.seen };
}

impl Told {
    /// No receipts. It takes no memory.
    pub(crate) fn new(alloc: Global, hasher: RandomState) -> Told
        ensures { result ≡ none_told }
    {
        Told {
            seen: Seen::new(alloc, hasher),
            seats: Vec::new(alloc),
            tops: HashMap::with_hasher(alloc, hasher),
        }
    }

    /// How many of these receipts are fresh: of how many acts they are, at most 2^64 - 1.
    pub(crate) fn acts(&self) -> u64
        ensures { result ≡ min (acts_of self.now.receipts) (2 ^ 64 - 1) }
    {
        self.seen.acts()
    }

    /// Whether a place has a fresh receipt among these.
    pub(crate) fn has(&self, sub: Sub, place: u64) -> bool
        ensures yes { result ≡ true → times place (own sub self.now.receipts) ≡ 1 }
        ensures no { result ≡ false → times place (own sub self.now.receipts) ≡ 0 }
    {
        self.seen.has(sub, place)
    }

    /// Whether each of a subscriber's places past `from` has a fresh receipt, up to `to`. It looks at each place once, if `from` is the same in each call.
    pub(crate) fn are_told(&mut self, sub: Sub, from: u64, to: u64) -> bool
        ensures same { self.new ≡ self.old }
        ensures yes { result ≡ true → (place : ℕ) → from < place → place ≤ to → times place (own sub self.old.receipts) ≡ 1 }
        ensures no { result ≡ false → (place : ℕ) × (from < place) × (place ≤ to) × (times place (own sub self.old.receipts) ≡ 0) }
    {
        self.seen.are_told(sub, from, to)
    }

    /// Does nothing: no place has two fresh receipts.
    pub(crate) fn are_once(&self)
        ensures { (sub : Sub) (place : ℕ) → times place (own sub self.now.receipts) ≤ 1 }
    {
        self.seen.are_once();
    }

    /// Does nothing: the receipts of each seat are in order.
    pub(crate) fn are_in_order(&self)
        ensures { (seat : ℕ) → IsOrdered (told_of seat self.now) }
    {
        orders_agree();
        let _tops = &self.tops;
    }

    /// Whether these receipts of a seat are in order behind those that it had. The condition: each that is fresh has a place. The only error is want of memory.
    pub(crate) fn is_continued(
        &self,
        alloc: Global,
        hasher: RandomState,
        seat: usize,
        receipts: &[Receipt],
    ) -> Result<bool, AllocError>
        requires placed { are_placed receipts.now ≡ true }
        ensures yes { IfOk result (λ ordered. ordered ≡ true → IsOrdered (told_of seat self.now ++ receipts.now)) }
        ensures no { IfOk result (λ ordered. ordered ≡ false → (sub : Sub) × (in_order [] (own sub (told_of seat self.now ++ receipts.now)) ≡ false)) }
    {
        orders_agree();
        let ordered = is_continued(alloc, hasher, &self.tops, seat, receipts)?;
        Ok(ordered)
    }

    /// Adds a receipt that a seat had. A fresh receipt's place has to be new, and the receipt has to be after those of its subscriber that the seat had. The
    /// condition: if it is fresh, it has a place.
    ///
    /// Errors, which change nothing: [`CloseFault::Memory`]; [`CloseFault::ReceiptStray`], the place has a fresh receipt; [`CloseFault::OutOfOrder`], the
    /// receipt is before another.
    pub(crate) fn add(&mut self, seat: usize, receipt: &Receipt) -> Result<(), CloseFault>
        requires placed { is_placed receipt.now ≡ true }
        ensures added { OnOk result (self.new ≡ told_with self.old seat receipt.now) }
        ensures same { OnErr result (self.new ≡ self.old) }
        ensures fault { IfErr result (λ fault. IsTwice fault self.old seat receipt.now) }
    {
        orders_agree();
        same_subscribers_are_equal();
        let (sub, place) = (receipt.sub, receipt.place);
        if receipt.fresh && self.seen.has(sub, place) {
            return Err(CloseFault::ReceiptStray);
        }
        let top = top(&self.tops, seat, sub);
        if !follows(top, receipt) {
            return Err(CloseFault::OutOfOrder);
        }
        self.seats.reserve(1)?;
        make_room(&mut self.tops, place)?;
        if !self.seen.add(receipt)? {
            return Err(CloseFault::ReceiptStray);
        }
        set_top(&mut self.tops, seat, top, receipt);
        self.seats.push_reserved(Snapshot::of(&seat));
        Ok(())
    }
}

/// The greatest place of a seat and a subscriber, if the seat had a receipt.
fn top(tops: &Tops, seat: usize, sub: Sub) -> Option<u64>
    ensures { result ≡ top_in tops.now.entries seat sub }
{
    tops.get(&(seat, sub)).copied()
}

/// Room for the greatest place of one seat and subscriber more, if this is a place. The only error is want of memory.
fn make_room(tops: &mut Tops, place: u64) -> Result<(), AllocError>
    ensures same { (seat : ℕ) (sub : Sub) → top_in tops.new.entries seat sub ≡ top_in tops.old.entries seat sub }
    ensures room { OnOk result (0 < place → 1 ≤ spare tops.new) }
{
    if place == 0 {
        return Ok(());
    }
    tops.reserve(1)
}

/// Keeps the greatest place of a seat's receipt and of those before it, of which this is the greatest. A receipt without a place leaves nothing: an unknown
/// subscriber may have any name. The condition: there is room.
fn set_top(tops: &mut Tops, seat: usize, top: Option<u64>, receipt: &Receipt)
    requires { 0 < receipt.now.place → 1 ≤ spare tops.old }
    ensures { (s : ℕ) (other : Sub) → top_in tops.new.entries s other
        ≡ cond (nat_lt 0 receipt.now.place && ((seat == s) && same_sub receipt.now.sub other)) (Some (top_after top receipt.now)) (top_in tops.old.entries s other) }
{
    if receipt.place == 0 {
        return;
    }
    match tops.insert((seat, receipt.sub), top_after(top, receipt)) {
        Ok(_before) => {}
        Err(_refused) => unreachable!(),
    }
}

/// Whether these receipts of a seat are in order behind receipts with these greatest places. The only error is want of memory.
fn is_continued(
    alloc: Global,
    hasher: RandomState,
    tops: &Tops,
    seat: usize,
    receipts: &[Receipt],
) -> Result<bool, AllocError>
    ensures yes { IfOk result (λ ordered. ordered ≡ true → (sub : Sub) → in_order_by (top_in tops.now.entries seat sub) (own sub receipts.now) ≡ true) }
    ensures no { IfOk result (λ ordered. ordered ≡ false → (sub : Sub) × (in_order_by (top_in tops.now.entries seat sub) (own sub receipts.now) ≡ false)) }
{
    same_subscribers_are_equal();
    let mut later = HashMap::with_hasher(alloc, hasher);
    for receipt in receipts {
        let top = later
            .get(&receipt.sub)
            .copied()
            .or(top(tops, seat, receipt.sub));
        if !follows(top, receipt) {
            return Ok(false);
        }
        later.insert(receipt.sub, top_after(top, receipt))?;
    }
    Ok(true)
}
