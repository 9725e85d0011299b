//! The places that have a fresh receipt.

ghost use Rattle.std.specs.Prelude.{◌≡◌, ℕ, ◌+◌, ◌<◌, ◌≤◌, ◌&&◌, nat_eq, true, false, not, cond, IfOk, OnErr};
ghost use Rattle.dcc_act.specs.declared.sub.Sub.{Sub};
ghost use Rattle.dcc_act.specs.Subs.{same_sub};
ghost use Rattle.dcc_receipts.specs.Audit.{own, times};
ghost use Rattle.dcc_receipts.specs.Marks.{is_marked};
ghost use Rattle.dcc_receipts.specs.inner.Spots.{is_of};

use crate::receipt::Receipt;
use crate::walk::Walk;
use dcc_act::{Sub, same_subscribers_are_equal};
use std::alloc::{AllocError, Global};
use std::collections::HashMap;
use std::hash::RandomState;
use std::marker::Model;

/// The places of subscribers that have a fresh receipt. Contracts see it as a list of subscribers, each with whether its places are
/// marked. It takes an octet for each place of a subscriber, up to the greatest marked place.
#[derive(Drop)]
pub struct Marks {
    alloc: Global,
    subs: HashMap<Sub, Walk, RandomState>,
}

impl Model for Marks {
    ghost use Rattle.dcc_receipts.specs.Marks.{MarksView};

    ghost Value = { MarksView };

    ghost view = { λ m. m.subs.entries };
}

impl Marks {
    /// No places. It takes no memory.
    pub fn new(alloc: Global, hasher: RandomState) -> Marks
        ensures { (sub : Sub) (place : ℕ) → is_marked result sub place ≡ false }
    {
        Marks {
            alloc,
            subs: HashMap::with_hasher(alloc, hasher),
        }
    }

    /// Whether a subscriber's place has a fresh receipt.
    pub fn has(&self, sub: Sub, place: u64) -> bool
        ensures { result ≡ is_marked self.now sub place }
    {
        match self.subs.get(&sub) {
            Some(own) => own.has(place),
            None => false,
        }
    }

    /// Whether a subscriber's places past `from` are all marked, up to `to`. It looks at each place once, if `from` is the same in each call.
    pub fn are_marked(&mut self, sub: Sub, from: u64, to: u64) -> bool
        ensures same { (other : Sub) (place : ℕ) → is_marked self.new other place ≡ is_marked self.old other place }
        ensures yes { result ≡ true → (place : ℕ) → from < place → place ≤ to → is_marked self.old sub place ≡ true }
        ensures no { result ≡ false → (place : ℕ) × (from < place) × (place ≤ to) × (is_marked self.old sub place ≡ false) }
    {
        same_subscribers_are_equal();
        match self.subs.get_mut(&sub) {
            Some(own) => own.are_marked(from, to),
            None => to <= from,
        }
    }

    /// Adds a place, and returns whether it is new. The only error is want of memory, which changes no mark.
    fn add(&mut self, sub: Sub, place: u64) -> Result<bool, AllocError>
        ensures added { IfOk result (λ added. added ≡ not (is_marked self.old sub place)) }
        ensures marks { IfOk result (λ added. (other : Sub) (at : ℕ) → is_marked self.new other at
            ≡ cond (same_sub sub other && nat_eq place at) true (is_marked self.old other at)) }
        ensures err { OnErr result ((other : Sub) (at : ℕ) → is_marked self.new other at ≡ is_marked self.old other at) }
    {
        same_subscribers_are_equal();
        if let Some(own) = self.subs.get_mut(&sub) {
            return own.add(place);
        }
        let mut own = Walk::new(self.alloc);
        let added = own.add(place)?;
        self.subs.insert(sub, own)?;
        Ok(added)
    }

    /// Adds the place of a fresh receipt, and returns whether the place is new. A receipt that is not fresh adds nothing, and passes. The
    /// only error is want of memory. Neither an error nor a place that is not new changes a mark.
    #[tactic(auto, using(crate::proofs::Marked::marked_more))]
    pub fn add_fresh(&mut self, receipt: &Receipt) -> Result<bool, AllocError>
        ensures single { IfOk result (λ single. single ≡ true → (sub : Sub) (place : ℕ)
            → cond (is_marked self.new sub place) 1 0 ≡ cond (is_marked self.old sub place) 1 0 + cond (is_of sub place receipt.now) 1 0) }
        ensures double { IfOk result (λ single. single ≡ false
            → (receipt.now.fresh ≡ true) × (is_marked self.old receipt.now.sub receipt.now.place ≡ true)
            × ((sub : Sub) (place : ℕ) → is_marked self.new sub place ≡ is_marked self.old sub place)) }
        ensures err { OnErr result ((sub : Sub) (place : ℕ) → is_marked self.new sub place ≡ is_marked self.old sub place) }
    {
        same_subscribers_are_equal();
        if !receipt.fresh {
            return Ok(true);
        }
        self.add(receipt.sub, receipt.place)
    }

    /// Adds the places of a seat's fresh receipts, and returns whether each place is new. It stops at the first place that is not new. The
    /// only error is want of memory.
    pub fn add_all(&mut self, receipts: &[Receipt]) -> Result<bool, AllocError>
        ensures single { IfOk result (λ single. single ≡ true → (sub : Sub) (place : ℕ)
            → cond (is_marked self.new sub place) 1 0 ≡ cond (is_marked self.old sub place) 1 0 + times place (own sub receipts.now)) }
        ensures double { IfOk result (λ single. single ≡ false
            → (sub : Sub) × (place : ℕ) × (1 < cond (is_marked self.old sub place) 1 0 + times place (own sub receipts.now))) }
    {
        same_subscribers_are_equal();
        for receipt in receipts {
            if !self.add_fresh(receipt)? {
                return Ok(false);
            }
        }
        Ok(true)
    }
}
