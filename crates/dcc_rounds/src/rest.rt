//! The rest of a sweep.

ghost use Rattle.std.specs.Prelude.{◌≡◌, ◌+◌, ◌-◌, ◌≤◌, [], drop, length};
ghost use Rattle.dcc_rounds.specs.Working.{left_of};

use dcc_act::{Moment, Sub};
use std::alloc::Global;

/// A sweep that a worker is in.
#[derive(Drop)]
pub(crate) struct Rest {
    pub moment: Moment,
    /// The listed subscribers.
    pub subs: Vec<Sub>,
    /// The number of subscribers at the beginning of the list that were asked.
    pub asked: usize,
}

impl Rest {
    /// The rest before the first sweep: no subscriber is left. The moment has no meaning. It takes no memory.
    pub fn new(alloc: Global) -> Rest
        ensures { (result.subs.items ≡ []) × (result.asked ≡ 0) }
    {
        let Some(moment) = Moment::new(0) else {
            unreachable!()
        };
        Rest {
            moment,
            subs: Vec::new(alloc),
            asked: 0,
        }
    }

    /// The number of subscribers that are left to be asked.
    pub fn count(&self) -> usize
        ensures { result ≡ length self.now.subs.items - self.now.asked }
    {
        self.subs.len().saturating_sub(self.asked)
    }

    /// Counts so many more subscribers as asked, and drops the list behind its last subscriber. The condition: so many are left.
    pub fn pass(&mut self, alloc: Global, count: usize)
        requires { self.old.asked + count ≤ length self.old.subs.items }
        ensures left { left_of self.new ≡ drop count (left_of self.old) }
        ensures size { self.new.asked + length self.old.subs.items ≡ self.old.asked + count + length self.new.subs.items }
        ensures moment { self.new.moment ≡ self.old.moment }
    {
        self.asked += count;
        if self.asked >= self.subs.len() {
            self.subs = Vec::new(alloc);
            self.asked = 0;
        }
    }
}
