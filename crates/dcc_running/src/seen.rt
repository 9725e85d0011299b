//! Receipts that were audited, and the marks of their places.

ghost use Rattle.std.specs.Prelude.{◌≡◌, ◌<◌, ◌≤◌, ◌-◌, ◌^◌, ◌++◌, ◌∷◌, [], ℕ, min, true, false, IfOk, OnErr};
ghost use Rattle.dcc_receipts.specs.Audit.{own, times};
ghost use Rattle.dcc_receipts.specs.Marks.{is_marked};
ghost use Rattle.dcc_act.specs.declared.sub.Sub.{Sub};
ghost use Rattle.dcc_running.specs.Acts.{acts_of};

use dcc_act::Sub;
use dcc_receipts::{Marks, Receipt};
use std::alloc::{AllocError, Global};
use std::hash::RandomState;
use std::marker::Model;
use std::snapshot::Snapshot;

/// Receipts that were audited, in order. Of each it keeps the place alone, if the receipt was fresh: an octet. Contracts see it as the receipts.
#[derive(Drop)]
pub(crate) struct Seen {
    marks: Marks,
    receipts: Vec<Snapshot<Receipt>>,
    /// How many of them are fresh, at most 2^64 - 1.
    acts: u64,
}

impl Model for Seen {
    ghost use Rattle.std.specs.Prelude.{◌≡◌, ◌-◌, ◌^◌, min, List};
    ghost use Rattle.dcc_receipts.specs.declared.receipt.Receipt.{Receipt};
    ghost use Rattle.dcc_running.specs.Acts.{acts_of};
    ghost use Rattle.dcc_running.specs.inner.Told.{AreMarksOf, values};

    ghost Value = { List Receipt };

    ghost view = { λ s. values s.receipts.items };

    ghost invariant = { λ s. AreMarksOf s.marks (values s.receipts.items) × (s.acts ≡ min (acts_of (values s.receipts.items)) (2 ^ 64 - 1)) };
}

impl Seen {
    /// No receipts. It takes no memory.
    pub(crate) fn new(alloc: Global, hasher: RandomState) -> Seen
        ensures { result ≡ [] }
    {
        Seen {
            marks: Marks::new(alloc, hasher),
            receipts: Vec::new(alloc),
            acts: 0,
        }
    }

    /// How many of these receipts are fresh: of how many acts they are, at most 2^64 - 1.
    pub(crate) fn acts(&self) -> u64
        ensures { result ≡ min (acts_of self.now) (2 ^ 64 - 1) }
    {
        self.acts
    }

    /// Whether a place has a fresh receipt among these.
    pub(crate) fn has(&self, sub: Sub, place: u64) -> bool
        ensures yes { result ≡ true → times place (own sub self.now) ≡ 1 }
        ensures no { result ≡ false → times place (own sub self.now) ≡ 0 }
    {
        self.marks.has(sub, place)
    }

    /// Whether each of a subscriber's places past `from` has a fresh receipt, up to `to`. It looks at each place once, if `from` is the same in each call.
    pub(crate) fn are_told(&mut self, sub: Sub, from: u64, to: u64) -> bool
        ensures same { self.new ≡ self.old }
        ensures yes { result ≡ true → (place : ℕ) → from < place → place ≤ to → times place (own sub self.old) ≡ 1 }
        ensures no { result ≡ false → (place : ℕ) × (from < place) × (place ≤ to) × (times place (own sub self.old) ≡ 0) }
    {
        self.marks.are_marked(sub, from, to)
    }

    /// Does nothing: no place has two fresh receipts.
    pub(crate) fn are_once(&self)
        ensures { (sub : Sub) (place : ℕ) → times place (own sub self.now) ≤ 1 }
    {
        let _marks = &self.marks;
    }

    /// Adds a receipt, and returns whether its place is new; a receipt that isn't fresh passes. Neither an error, which is want of memory, nor a place that
    /// is not new changes the receipts.
    pub(crate) fn add(&mut self, receipt: &Receipt) -> Result<bool, AllocError>
        ensures added { IfOk result (λ added. added ≡ true → self.new ≡ self.old ++ receipt.now ∷ []) }
        ensures double { IfOk result (λ added. added ≡ false → (self.new ≡ self.old) × (receipt.now.fresh ≡ true)
            × (times receipt.now.place (own receipt.now.sub self.old) ≡ 1)) }
        ensures err { OnErr result (self.new ≡ self.old) }
    {
        self.receipts.reserve(1)?;
        if !self.marks.add_fresh(receipt)? {
            return Ok(false);
        }
        if receipt.fresh {
            self.acts = self.acts.saturating_add(1);
        }
        self.receipts.push_reserved(Snapshot::of(receipt));
        Ok(true)
    }
}
