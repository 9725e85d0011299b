//! The subscribers at whom calls may have made acts.

ghost use Rattle.std.specs.Prelude.{◌≡◌, ◌&&◌, ◌||◌, [], not, true, OnErr, OnOk};
ghost use Rattle.dcc_act.specs.Subs.{same_sub};
ghost use Rattle.dcc_act.specs.declared.sub.Sub.{Sub};
ghost use Rattle.dcc_running.specs.inner.Touches.{is_touched};

use dcc_act::{Sub, same_subscribers_are_equal};
use std::alloc::{AllocError, Global};
use std::collections::HashMap;
use std::hash::RandomState;
use std::marker::Model;

/// The subscribers at whom calls may have made acts whose receipts no audit has compared. Beside each one stands the number of these calls.
#[derive(Drop)]
pub(crate) struct Touches {
    counts: HashMap<Sub, u64, RandomState>,
}

impl Model for Touches {
    ghost use Rattle.dcc_running.specs.inner.Touches.{Touched};

    ghost Value = { Touched };

    ghost view = { λ t. t.counts.entries };
}

impl Touches {
    /// No subscribers. It takes no memory.
    pub(crate) fn new(alloc: Global, hasher: RandomState) -> Touches
        ensures { result ≡ [] }
    {
        Touches {
            counts: HashMap::with_hasher(alloc, hasher),
        }
    }

    /// Counts a call. The only error is want of memory, which changes nothing.
    pub(crate) fn add(&mut self, sub: Sub) -> Result<(), AllocError>
        ensures added { OnOk result ((other : Sub) → is_touched self.new other ≡ (same_sub sub other || is_touched self.old other)) }
        ensures same { OnErr result ((other : Sub) → is_touched self.new other ≡ is_touched self.old other) }
        ensures kept { (other : Sub) → is_touched self.old other ≡ true → is_touched self.new other ≡ true }
    {
        same_subscribers_are_equal();
        if let Some(count) = self.counts.get_mut(&sub) {
            *count = count.saturating_add(1);
            return Ok(());
        }
        self.counts.insert(sub, 1)?;
        Ok(())
    }

    /// Takes a call back, unless it is the last of its subscriber. It returns whether it is. Nothing is taken back if no call is counted.
    pub(crate) fn take(&mut self, sub: Sub) -> bool
        ensures { (other : Sub) → is_touched self.new other ≡ is_touched self.old other }
    {
        same_subscribers_are_equal();
        if let Some(count) = self.counts.get_mut(&sub) {
            if *count > 1 {
                *count -= 1;
                return false;
            }
            return true;
        }
        false
    }

    /// Takes all calls of a subscriber back.
    pub(crate) fn remove(&mut self, sub: Sub)
        ensures { (other : Sub) → is_touched self.new other ≡ (not (same_sub sub other) && is_touched self.old other) }
    {
        let _count = self.counts.remove(&sub);
    }
}
