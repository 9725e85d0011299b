//! The places of one subscriber that have a fresh receipt.

ghost use Rattle.std.specs.Prelude.{◌≡◌, ℕ, [], nat_eq, true, not, cond, IfOk, OnErr};
ghost use Rattle.dcc_receipts.specs.Marks.{is_at};

use std::alloc::{AllocError, Global};
use std::marker::Model;

/// The marks of one subscriber: whether each place has a fresh receipt, from 0 up to the greatest marked place. It takes an octet for
/// each place.
#[derive(Drop)]
pub(crate) struct OwnMarks {
    places: Vec<bool>,
}

impl Model for OwnMarks {
    ghost use Rattle.std.specs.Prelude.{Bool, List};

    ghost Value = { List Bool };

    ghost view = { λ m. m.places.items };
}

impl OwnMarks {
    /// No marks. It takes no memory.
    pub(crate) fn new(alloc: Global) -> OwnMarks
        ensures { result ≡ [] }
    {
        OwnMarks {
            places: Vec::new(alloc),
        }
    }

    /// Whether a place is marked.
    pub(crate) fn has(&self, place: u64) -> bool
        ensures { result ≡ is_at self.now place }
    {
        match self.places.get(place as usize) {
            Some(marked) => *marked,
            None => false,
        }
    }

    /// Marks a place, and returns whether it is new. The only error is want of memory, which changes no mark.
    pub(crate) fn add(&mut self, place: u64) -> Result<bool, AllocError>
        ensures added { IfOk result (λ added. added ≡ not (is_at self.old place)) }
        ensures marks { IfOk result (λ added. (at : ℕ) → is_at self.new at ≡ cond (nat_eq place at) true (is_at self.old at)) }
        ensures err { OnErr result ((at : ℕ) → is_at self.new at ≡ is_at self.old at) }
    {
        let place = place as usize;
        if place < self.places.len() {
            let added = !self.places[place];
            self.places[place] = true;
            return Ok(added);
        }
        self.places.resize(place, false)?;
        self.places.push(true)?;
        Ok(true)
    }
}
