//! The end that puts.
ghost use Rattle.std.specs.Prelude.{◌≡◌, true, length};
ghost use Rattle.std.specs.Arc.{arc_value};
ghost use Rattle.crossbeam_queue.specs.Passes.{view, IsPassOf};
ghost use Rattle.dcc_lane.specs.Rule.{sender};

use crate::patience::Patience;
use crate::rule::{End, Puts, Shared, Tagged};
use std::alloc::Global;
use std::sync::atomic::{AtomicBool, Ordering};
use std::sync::{Arc, Wait};

/// One of the senders of a lane.
#[derive(Drop)]
pub struct Sender<T> {
    pub(crate) shared: Arc<Shared<T>, Global>,
    pub(crate) number: usize,
    pub(crate) sent: u64,
    pub(crate) pass: End<T>,
    /// Whether an item was left for which the receiver wasn't rung yet.
    pub(crate) owes: AtomicBool,
    ghost tied: { IsPassOf (arc_value shared).queue pass },
    ghost known: { view pass ≡ sender number (view pass).put },
    ghost counted: { sent ≡ length (view pass).put },
}

impl<T: Drop> Sender<T> {
    ghost use Rattle.std.specs.Prelude.{◌++◌, ◌∷◌, [], OnOk, IfErr};
    ghost use Rattle.dcc_lane.specs.Ends.{number_of, put_of, IsSameSender};

    /// The number by which its items are counted, from 0.
    pub fn number(&self) -> usize
        ensures { result ≡ number_of self.now }
    {
        self.number
    }

    /// Puts an item at the lane's end, and wakes the receiver. If the lane is full, it first wakes the receiver for items that were left, and
    /// then waits until the receiver rings for room.
    pub fn put<R: Wait>(&mut self, rt: &R, item: T)
        ensures same { IsSameSender self.old self.new }
        ensures put { put_of self.new ≡ put_of self.old ++ item ∷ [] }
    {
        let mut item = item;
        let mut patience = Patience::new();
        for _ in rt.forever() {
            match self.try_put(rt, item) {
                Ok(()) => return,
                Err(back) => {
                    item = back;
                    self.ring();
                    patience.pause(rt, &self.shared.room);
                }
            }
        }
        unreachable!()
    }

    /// Puts an item and wakes the receiver. If the lane was full at one moment, it hands the item back and wakes nobody.
    pub fn try_put<R: Wait>(&mut self, rt: &R, item: T) -> Result<(), T>
        ensures same { IsSameSender self.old self.new }
        ensures ok { OnOk result (put_of self.new ≡ put_of self.old ++ item ∷ []) }
        ensures err { IfErr result (λ back. (back ≡ item) × (put_of self.new ≡ put_of self.old)) }
    {
        self.try_leave(rt, item)?;
        self.ring();
        Ok(())
    }

    /// Puts an item as [`Sender::try_put`] does, but wakes nobody: a sleeping receiver sleeps on until [`Sender::ring`], or until an item is put
    /// by another function. A caller that leaves items has to ring before it waits for anything, and before it ends.
    pub fn try_leave<R: Wait>(&mut self, rt: &R, item: T) -> Result<(), T>
        ensures same { IsSameSender self.old self.new }
        ensures ok { OnOk result (put_of self.new ≡ put_of self.old ++ item ∷ []) }
        ensures err { IfErr result (λ back. (back ≡ item) × (put_of self.new ≡ put_of self.old)) }
    {
        let Some(sent) = self.sent.checked_add(1) else {
            never(rt)
        };
        let tagged = Tagged {
            from: self.number,
            item,
        };
        match self
            .shared
            .queue
            .push_as::<Puts, R>(rt, &mut self.pass, tagged)
        {
            Ok(()) => {
                self.sent = sent;
                self.owes.store(true, Ordering::Relaxed);
                Ok(())
            }
            Err(back) => {
                let Tagged { from: _, item } = back;
                Err(item)
            }
        }
    }

    /// Wakes the receiver, if it sleeps and this sender left an item for it.
    pub fn ring(&self) {
        if self.owes.load(Ordering::Relaxed) {
            self.owes.store(false, Ordering::Relaxed);
            self.shared.items.ring();
        }
    }
}

/// Waits for ever, since a count of items would reach 2^64.
pub(crate) fn never<R: Wait>(rt: &R) -> ! {
    for _ in rt.forever() {}
    unreachable!()
}
