//! The end that takes.
ghost use Rattle.std.specs.Prelude.{◌≡◌, ◌<◌, [], ℕ, vec_len, slice_index, length};
ghost use Rattle.std.specs.Arc.{arc_value};
ghost use Rattle.crossbeam_queue.specs.Passes.{view, IsPassOf};
ghost use Rattle.dcc_lane.specs.Rule.{receiver, of, IsIn};
ghost use Rattle.dcc_lane.specs.declared.rule.Tagged.{Tagged};

use crate::patience::Patience;
use crate::rule::{Compares, End, Joins, Shared, Tagged, Takes};
use crate::search::put_by;
use crate::sender::{Sender, never};
use std::alloc::Global;
use std::sync::{Arc, Wait};
use thiserror::Error;

/// The receiver of a lane. It counts the items that it took of each sender.
#[derive(Drop)]
pub struct Receiver<T> {
    pub(crate) alloc: Global,
    pub(crate) shared: Arc<Shared<T>, Global>,
    pub(crate) taken: Vec<u64>,
    pub(crate) pass: End<T>,
    /// The number of items taken since the senders that wait for room were rung. They are rung again at a quarter of the lane's room.
    pub(crate) freed: usize,
    pub(crate) quarter: usize,
    ghost tied: { IsPassOf (arc_value shared).queue pass },
    ghost known: { view pass ≡ receiver (vec_len taken) (view pass).taken [] },
    ghost counted: { (k : ℕ) → k < vec_len taken → slice_index taken.items k ≡ length (of k (view pass).taken) },
    ghost numbered: { (t : Tagged T) → IsIn t (view pass).taken → t.from < vec_len taken },
}

/// The numbers of items of one sender that were put and taken.
#[derive(Clone, Copy, Debug, PartialEq, Eq)]
pub struct Count {
    pub put: u64,
    pub taken: u64,
}

/// The reason for which a lane isn't ended.
#[derive(Clone, Copy, Debug, PartialEq, Eq, Error)]
pub enum LaneFault {
    /// Fault 80: a sender of the lane is missing.
    #[error("a sender is missing")]
    SenderMissing,
    /// Memory was short for the counts.
    #[error("out of memory")]
    Memory,
}

impl LaneFault {
    ghost use Rattle.dcc_lane.specs.Faults.{lane_fault_number};

    /// The number of the fault: 80; none for want of memory.
    pub fn number(&self) -> Option<u8>
        ensures { result ≡ lane_fault_number self.now }
    {
        match self {
            LaneFault::SenderMissing => Some(80),
            LaneFault::Memory => None,
        }
    }
}

/// A lane that isn't ended: the reason, and its ends as they were.
#[derive(Drop)]
pub struct Unfinished<T> {
    pub fault: LaneFault,
    pub receiver: Receiver<T>,
    pub senders: Vec<Sender<T>>,
}

impl<T: Drop> Receiver<T> {
    ghost use Rattle.std.specs.Prelude.{MatchOption, IfOk, OnOk, IfErr, IfSome, IfNone};
    ghost use Rattle.std.specs.List.{All};
    ghost use Rattle.dcc_lane.specs.Ends.{lane_of, senders_of, number_of, taken_of, IsSameReceiver, TakesOne, IsOfLane, HasNoneOf, IsBegun, IsPutBy, AreCounts, AreHeard, IsMissing};

    /// The number of senders with which the lane was made.
    pub fn senders(&self) -> usize
        ensures { result ≡ senders_of self.now }
    {
        self.taken.len()
    }

    /// Takes the next item. It waits while the lane is empty. Senders are woken as by [`Receiver::try_take`].
    pub fn take<R: Wait>(&mut self, rt: &R) -> T
        ensures same { IsSameReceiver self.old self.new }
        ensures taken { TakesOne self.old result self.new }
    {
        let mut patience = Patience::new();
        for _ in rt.forever() {
            match self.try_take(rt) {
                Some(item) => return item,
                None => patience.pause(rt, &self.shared.items),
            }
        }
        unreachable!()
    }

    /// Takes the next item; none if the lane was empty at one moment. It waits for no item, but may try again while a sender is in the midst
    /// of its step. Senders that wait for room are woken together, once a quarter of the lane's room was taken, or no item was found. So a
    /// caller that then takes nothing for a while has to call [`Receiver::ring`] first.
    pub fn try_take<R: Wait>(&mut self, rt: &R) -> Option<T>
        ensures same { IsSameReceiver self.old self.new }
        ensures taken { MatchOption result (taken_of self.new ≡ taken_of self.old) (λ x. TakesOne self.old x self.new) }
    {
        let taken = self.pop(rt);
        if taken.is_some() {
            self.freed = self.freed.saturating_add(1);
        }
        if taken.is_none() || self.freed >= self.quarter {
            self.ring();
        }
        taken
    }

    /// Wakes the senders that wait for room, if an item was taken since they were woken.
    pub fn ring(&mut self)
        ensures same { IsSameReceiver self.old self.new }
        ensures taken { taken_of self.new ≡ taken_of self.old }
    {
        if self.freed > 0 {
            self.freed = 0;
            self.shared.room.ring();
        }
    }

    /// Takes the next item; none if the lane was empty at one moment. It wakes nobody.
    fn pop<R: Wait>(&mut self, rt: &R) -> Option<T>
        ensures same { IsSameReceiver self.old self.new }
        ensures taken { MatchOption result (taken_of self.new ≡ taken_of self.old) (λ x. TakesOne self.old x self.new) }
    {
        let tagged = self.shared.queue.pop_as::<Takes, R>(rt, &mut self.pass)?;
        let Tagged { from, item } = tagged;
        let Some(count) = self.taken[from].checked_add(1) else {
            never(rt)
        };
        self.taken[from] = count;
        Some(item)
    }

    /// Ends the lane, and returns the counts of its senders in the order of their numbers. Items that are still queued are dropped. The
    /// condition: the senders are of this lane.
    ///
    /// Errors, with all ends handed back: [`LaneFault::SenderMissing`], a sender of the lane isn't among `senders`; [`LaneFault::Memory`],
    /// memory was short for the counts.
    pub fn finish(self, senders: Vec<Sender<T>>) -> Result<Vec<Count>, Unfinished<T>>
        requires { All (IsOfLane (lane_of self)) senders.items }
        ensures counts { IfOk result (λ counts. (vec_len counts ≡ senders_of self) × AreCounts self senders.items counts.items) }
        ensures begun { OnOk result (All (IsBegun self) senders.items) }
        ensures heard { OnOk result (AreHeard self senders.items) }
        ensures back { IfErr result (λ u. (u.receiver ≡ self) × (u.senders ≡ senders)) }
        ensures missing { IfErr result (λ u. IsMissing u.fault self senders.items) }
    {
        match self.counts(senders.as_slice()) {
            Ok(counts) => {
                self.join(senders);
                Ok(counts)
            }
            Err(fault) => Err(Unfinished {
                fault,
                receiver: self,
                senders,
            }),
        }
    }

    /// The counts of the senders, in the order of their numbers.
    fn counts(&self, senders: &[Sender<T>]) -> Result<Vec<Count>, LaneFault>
        ensures len { IfOk result (λ counts. vec_len counts ≡ senders_of self.now) }
        ensures ok { IfOk result (λ counts. AreCounts self.now senders.now counts.items) }
        ensures err { IfErr result (λ fault. IsMissing fault self.now senders.now) }
    {
        let Ok(mut all) = Vec::with_capacity(self.alloc, self.taken.len()) else {
            return Err(LaneFault::Memory);
        };
        for number in 0..self.taken.len() {
            let Some(put) = put_by(senders, number) else {
                return Err(LaneFault::SenderMissing);
            };
            all.push_reserved(Count {
                put,
                taken: self.taken[number],
            });
        }
        Ok(all)
    }

    /// Joins the knowledge of each sender into the receiver's, and compares both.
    fn join(self, senders: Vec<Sender<T>>)
        requires { All (IsOfLane (lane_of self)) senders.items }
        ensures { All (IsBegun self) senders.items }
    {
        let Receiver {
            alloc: _,
            shared,
            taken: _,
            mut pass,
            freed: _,
            quarter: _,
        } = self;
        let mut senders = senders;
        while senders.len() > 0 {
            let Sender {
                shared: _,
                number: _,
                sent: _,
                pass: end,
                owes: _,
            } = senders.remove(0);
            shared.queue.absorb::<Joins>(&mut pass, end);
        }
        shared.queue.learn_as::<Compares>(&mut pass);
    }
}
