//! The marks of one subscriber, walked once.

ghost use Rattle.std.specs.Prelude.{◌≡◌, ℕ, ◌+◌, ◌<◌, ◌≤◌, [], nat_eq, true, false, not, cond, IfOk, OnErr};
ghost use Rattle.dcc_receipts.specs.Marks.{is_at};

use crate::own_marks::OwnMarks;
use std::alloc::{AllocError, Global};
use std::marker::Model;

/// The marks of one subscriber, and how far they were found without a gap. Contracts see it as the marks.
#[derive(Drop)]
pub(crate) struct Walk {
    own: OwnMarks,
    /// All places past `from` are marked, up to `upto`: so far as [`Walk::are_marked`] has looked.
    from: u64,
    upto: u64,
}

impl Model for Walk {
    ghost use Rattle.std.specs.Prelude.{◌≡◌, ◌<◌, ◌≤◌, ℕ, Bool, List, true};
    ghost use Rattle.dcc_receipts.specs.Marks.{is_at};

    ghost Value = { List Bool };

    ghost view = { λ w. w.own };

    ghost invariant = { λ w. (w.from ≤ w.upto) × ((place : ℕ) → w.from < place → place ≤ w.upto → is_at w.own place ≡ true) };
}

impl Walk {
    /// No marks. It takes no memory.
    pub(crate) fn new(alloc: Global) -> Walk
        ensures { result ≡ [] }
    {
        Walk {
            own: OwnMarks::new(alloc),
            from: 0,
            upto: 0,
        }
    }

    /// Whether a place is marked.
    pub(crate) fn has(&self, place: u64) -> bool
        ensures { result ≡ is_at self.now place }
    {
        self.own.has(place)
    }

    /// Whether all places past `from` are marked, up to `to`. It goes on where it stopped before, if `from` is the same.
    pub(crate) fn are_marked(&mut self, from: u64, to: u64) -> bool
        ensures same { self.new ≡ self.old }
        ensures yes { result ≡ true → (place : ℕ) → from < place → place ≤ to → is_at self.old place ≡ true }
        ensures no { result ≡ false → (place : ℕ) × (from < place) × (place ≤ to) × (is_at self.old place ≡ false) }
    {
        let begun = if self.from == from { self.upto } else { from };
        let upto = walked(&self.own, begun, to);
        self.from = from;
        self.upto = upto;
        to <= upto
    }

    /// Marks a place, and returns whether it is new. The only error is want of memory, which changes no mark.
    pub(crate) fn add(&mut self, place: u64) -> Result<bool, AllocError>
        ensures added { IfOk result (λ added. added ≡ not (is_at self.old place)) }
        ensures marks { IfOk result (λ added. (at : ℕ) → is_at self.new at ≡ cond (nat_eq place at) true (is_at self.old at)) }
        ensures err { OnErr result ((at : ℕ) → is_at self.new at ≡ is_at self.old at) }
    {
        self.own.add(place)
    }
}

/// The last place of a run of marks that begins behind `begun`. It looks no further than `to`.
fn walked(own: &OwnMarks, begun: u64, to: u64) -> u64
    ensures least { begun ≤ result }
    ensures marked { (place : ℕ) → begun < place → place ≤ result → is_at own.now place ≡ true }
    ensures last { result < to → is_at own.now (result + 1) ≡ false }
{
    let mut upto = begun;
    while upto < to && own.has(upto + 1) {
        upto += 1;
    }
    upto
}
