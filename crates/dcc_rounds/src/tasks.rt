//! What the threads of a round do.

ghost use Rattle.std.specs.Prelude.{◌≡◌};
ghost use Rattle.dcc_rounds.specs.Tasks.{Runs};
ghost use Rattle.dcc_rounds.specs.Counting.{requests_in, answers_in, acts_in};
ghost use Rattle.dcc_running.specs.Acts.{acts_of};

use crate::attendant::Attendant;
use crate::face::{Listener, Notices, Shut};
use crate::place::Place;
use crate::timer::SweepTimer;
use crate::worker::Worker;
use dcc_connect::Clock;
use dcc_message::Identity;
use dcc_running::{Naming, Seat, Shards};
use dcc_store::Records;
use dcc_tariff::Plan;
use std::alloc::Global;
use std::io::Read;
use std::sync::Wait;
use std::thread::Threads;

/// What one thread of a round does, and what came of it.
#[derive(Drop)]
pub(crate) enum Task<I, O> {
    Work(Worker),
    Time(SweepTimer),
    Place(Place<I, O>),
    Attend(Attendant),
}

/// What all threads of a round share.
#[derive(Drop)]
pub(crate) struct Shared<'a, R: Records, J: Naming, L, C, N> {
    pub alloc: Global,
    pub plan: &'a Plan,
    pub identity: &'a Identity,
    pub clock: &'a C,
    pub notices: &'a N,
    pub listener: &'a L,
    pub shards: &'a Shards<R, J>,
    /// So many shards there are.
    pub count: usize,
    /// So many threads there are, one for each task.
    pub threads: usize,
    ghost counted: { count ≡ shards.now.count },
}

impl<I: Read + Send + Drop, O: Shut + Send + Drop> Task<I, O> {
    /// Does what there is to do, once all threads have begun.
    pub fn run<
        W: Threads + Wait + Sync,
        R: Records + Send + Sync + Drop,
        J: Naming + Send + Sync,
        L: Listener<I, O> + Sync,
        C: Clock + Copy + Sync,
        N: Notices + Sync,
    >(&mut self, rt: &W, shared: &Shared<'_, R, J, L, C, N>)
        ensures { Runs I.remaining O.contents C.tells L.is_closed L.attends shared.now.clock.now (record { plan = shared.now.plan.now; identity = shared.now.identity.now })
            J.opening shared.now.count self.old self.new }
    {
        shared.listener.begin(rt, shared.threads);
        match self {
            Task::Work(worker) => {
                if worker.shard < shared.count {
                    worker.run(rt, shared.alloc, shared.shards, shared.notices);
                }
            }
            Task::Time(timer) => timer.run::<W, R, J, I, O, L, C, N>(rt, shared),
            Task::Place(place) => place.run(rt, shared),
            Task::Attend(attendant) => attendant.run::<W, R, J, I, O, L, C, N>(rt, shared),
        }
    }
}

impl<I, O> Task<I, O> {
    /// How many requests it handed to shards.
    pub fn requests(&self) -> u64
        ensures { result ≡ requests_in self.now }
    {
        match self {
            Task::Place(place) => place.reader.requests,
            Task::Work(_) | Task::Time(_) | Task::Attend(_) => 0,
        }
    }

    /// How many answers it wrote whole.
    pub fn answers(&self) -> u64
        ensures { result ≡ answers_in self.now }
    {
        match self {
            Task::Place(place) => place.answers,
            Task::Work(_) | Task::Time(_) | Task::Attend(_) => 0,
        }
    }

    /// How many acts the receipts are of that it keeps.
    pub fn acts(&self) -> u64
        ensures { result ≡ acts_in self.now }
    {
        match self {
            Task::Work(worker) => acts_of(&worker.seat),
            Task::Attend(attendant) => acts_of(&attendant.seat),
            Task::Place(_) | Task::Time(_) => 0,
        }
    }
}

/// How many acts the receipts of a seat are of: each act has one receipt that is fresh.
fn acts_of(seat: &Seat) -> u64
    ensures { result ≡ acts_of seat.now }
{
    let mut count = 0usize;
    for receipt in seat.receipts() {
        if receipt.fresh {
            count += 1;
        }
    }
    count as u64
}
