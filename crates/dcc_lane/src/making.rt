//! The making of a lane.
ghost use Rattle.std.specs.Prelude.{◌≡◌, ◌<◌, [], IfOk, vec_len};
ghost use Rattle.std.specs.List.{All};
ghost use Rattle.dcc_lane.specs.Ends.{lane_of, capacity_of, senders_of, taken_of, AreNew, IsOfLane};

use crate::bell::Bell;
use crate::receiver::Receiver;
use crate::rule::{Queue, Shared, Splits};
use crate::sender::Sender;
use std::alloc::{AllocError, Global};
use std::marker::PhantomData;
use std::sync::Arc;
use std::sync::atomic::AtomicBool;

/// Lanes of items of one type.
pub struct Lane<T> {
    marker: PhantomData<T>,
}

impl<T: Drop> Lane<T> {
    /// A lane with room for `capacity` items: its senders, with the numbers 0 to `senders` - 1 in order, and its receiver. The conditions:
    /// there is room for an item, and there is a sender. The only error is want of memory.
    pub fn new(
        alloc: Global,
        capacity: usize,
        senders: usize,
    ) -> Result<(Vec<Sender<T>>, Receiver<T>), AllocError>
        requires capacity { 0 < capacity }
        requires senders { 0 < senders }
        ensures senders { IfOk result (λ r. AreNew (lane_of r.1) 0 r.0.items × (vec_len r.0 ≡ senders)) }
        ensures of_lane { IfOk result (λ r. All (IsOfLane (lane_of r.1)) r.0.items) }
        ensures capacity { IfOk result (λ r. capacity_of r.1 ≡ capacity) }
        ensures receiver { IfOk result (λ r. (senders_of r.1 ≡ senders) × (taken_of r.1 ≡ [])) }
    {
        let taken = Vec::from_elem(alloc, 0, senders)?;
        let mut all = Vec::with_capacity(alloc, senders)?;
        let (queue, mut pass) = Queue::<T>::ruled(alloc, capacity)?;
        let shared = Arc::new(
            alloc,
            Shared {
                queue,
                items: Bell::new(),
                room: Bell::new(),
            },
        )?;
        for number in 0..senders {
            let theirs = Arc::try_clone(&shared)?;
            let end = shared.queue.another::<Splits>(&mut pass);
            all.push_reserved(Sender {
                shared: theirs,
                number,
                sent: 0,
                pass: end,
                owes: AtomicBool::new(false),
            });
        }
        let receiver = Receiver {
            alloc,
            shared,
            taken,
            pass,
            freed: 0,
            quarter: capacity / 4,
        };
        Ok((all, receiver))
    }
}
