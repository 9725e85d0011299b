//! Attendants: the threads that serve operators.

ghost use Rattle.dcc_rounds.specs.Attending.{Attends};

use crate::face::Listener;
use crate::tasks::Shared;
use dcc_connect::Clock;
use dcc_running::{Naming, Seat};
use dcc_store::Records;
use std::sync::Wait;

/// A thread that serves operators: the seat of its calls on the shards.
#[derive(Drop)]
pub(crate) struct Attendant {
    pub seat: Seat,
}

impl Attendant {
    /// Serves operators until the listener takes no more connections in for places.
    pub fn run<W: Wait, R: Records, J: Naming, I, O, L: Listener<I, O>, C: Clock + Copy, N>(
        &mut self,
        rt: &W,
        shared: &Shared<'_, R, J, L, C, N>,
    )
        ensures { Attends L.attends L.is_closed self.old self.new }
    {
        let seat = &mut self.seat;
        shared
            .listener
            .attend(rt, shared.alloc, shared.shards, *shared.clock, seat);
    }
}
