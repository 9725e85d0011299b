//! How the lanes of a round end.

ghost use Rattle.std.specs.Prelude.{◌≡◌, ◌≤◌, ◌+◌, ◌∷◌, [], true, map, vec_len, vec_capacity, IfErr, IfOk, OnOk};
ghost use Rattle.std.specs.List.{All, filter_map};
ghost use Rattle.dcc_lane.specs.Ends.{IsOfLane, lane_of};
ghost use Rattle.dcc_rounds.specs.Counting.{seat_in};
ghost use Rattle.dcc_rounds.specs.Finishing.{AddsTask, AreFinished, ArePartsOf, AreTied, ends_in};
ghost use Rattle.dcc_rounds.specs.Lanes.{AreAllHeard, AreOfLanes, IsHeard, firsts, lanes_of, lists_of, rests};
ghost use Rattle.dcc_rounds.specs.Lines.{is_of_lanes};

use crate::attendant::Attendant;
use crate::fault::{ServeFault, of_lane};
use crate::lanes::first_of;
use crate::place::Place;
use crate::reader::Reader;
use crate::tasks::Task;
use crate::timer::SweepTimer;
use crate::work::Work;
use crate::worker::Worker;
use dcc_connect::Item;
use dcc_lane::{Receiver, Sender};
use dcc_running::Seat;
use std::alloc::{AllocError, Global};

/// What the threads of a round leave: the seats of its workers and attendants, and all ends of its lanes, each with those of its kind.
#[derive(Drop)]
pub(crate) struct Parts {
    pub seats: Vec<Seat>,
    /// Of the workers, by shard: the lane that each takes of, and its senders to the writers.
    pub work: Vec<Receiver<Work>>,
    pub answers: Vec<Vec<Sender<Item>>>,
    /// Of the timer and of each place's reader: its senders to the workers.
    pub asks: Vec<Vec<Sender<Work>>>,
    /// Of the readers, by place: the sender to the place's writer.
    pub replies: Vec<Sender<Item>>,
    /// Of the writers, by place: the lane that each takes of.
    pub items: Vec<Receiver<Item>>,
}

/// Ends each lane of a round with all its senders, and gives the seats of the workers and attendants, in order. The condition: the timer, each
/// reader and each worker have a sender of every lane that they put into.
///
/// Errors: memory was short, or a sender is missing.
pub(crate) fn finished<I: Drop, O: Drop>(
    alloc: Global,
    tasks: Vec<Task<I, O>>,
) -> Result<Vec<Seat>, ServeFault>
    requires { AreTied (map ends_in tasks.items) }
    ensures seats { IfOk result (λ seats. seats.items ≡ filter_map seat_in tasks.items) }
    ensures finished { OnOk result (AreFinished tasks.items) }
    ensures fault { IfErr result (λ fault. is_of_lanes fault ≡ true) }
{
    let Parts {
        seats,
        work,
        answers,
        asks,
        replies,
        items,
    } = parted(alloc, tasks)?;
    match finish_all(alloc, work, asks) {
        Ok(()) => {}
        Err(fault) => {
            // By a call, here and below: what is let go in place is proved part by part.
            drop((seats, answers, replies, items));
            return Err(fault);
        }
    }
    let mut putters = answers;
    match putters.insert(0, replies) {
        Ok(()) => {}
        Err(failed) => {
            drop((failed, seats, putters, items));
            return Err(ServeFault::Memory);
        }
    }
    match finish_all(alloc, items, putters) {
        Ok(()) => Ok(seats),
        Err(fault) => {
            drop(seats);
            Err(fault)
        }
    }
}

/// Takes threads apart. The only error is want of memory.
fn parted<I: Drop, O: Drop>(alloc: Global, tasks: Vec<Task<I, O>>) -> Result<Parts, AllocError>
    ensures { IfOk result (λ parts. ArePartsOf tasks.items parts) }
{
    let mut parts = Parts::new(alloc);
    for task in tasks {
        let Ok(()) = add_task(&mut parts, task) else {
            drop(parts);
            return Err(AllocError);
        };
    }
    Ok(parts)
}

impl Parts {
    /// No parts yet. It takes no memory.
    fn new(alloc: Global) -> Parts
        ensures seats { result.seats.items ≡ [] }
        ensures work { result.work.items ≡ [] }
        ensures answers { result.answers.items ≡ [] }
        ensures asks { result.asks.items ≡ [] }
        ensures replies { result.replies.items ≡ [] }
        ensures items { result.items.items ≡ [] }
    {
        Parts {
            seats: Vec::new(alloc),
            work: Vec::new(alloc),
            answers: Vec::new(alloc),
            asks: Vec::new(alloc),
            replies: Vec::new(alloc),
            items: Vec::new(alloc),
        }
    }

    /// Room for what one thread more leaves, of each kind. The only error is want of memory.
    fn reserve(&mut self) -> Result<(), AllocError>
        ensures seats { self.new.seats.items ≡ self.old.seats.items }
        ensures work { self.new.work.items ≡ self.old.work.items }
        ensures answers { self.new.answers.items ≡ self.old.answers.items }
        ensures asks { self.new.asks.items ≡ self.old.asks.items }
        ensures replies { self.new.replies.items ≡ self.old.replies.items }
        ensures items { self.new.items.items ≡ self.old.items.items }
        ensures room_seats { OnOk result (vec_len self.new.seats + 1 ≤ vec_capacity self.new.seats) }
        ensures room_work { OnOk result (vec_len self.new.work + 1 ≤ vec_capacity self.new.work) }
        ensures room_answers { OnOk result (vec_len self.new.answers + 1 ≤ vec_capacity self.new.answers) }
        ensures room_asks { OnOk result (vec_len self.new.asks + 1 ≤ vec_capacity self.new.asks) }
        ensures room_replies { OnOk result (vec_len self.new.replies + 1 ≤ vec_capacity self.new.replies) }
        ensures room_items { OnOk result (vec_len self.new.items + 1 ≤ vec_capacity self.new.items) }
    {
        self.seats.reserve(1)?;
        self.work.reserve(1)?;
        self.answers.reserve(1)?;
        self.asks.reserve(1)?;
        self.replies.reserve(1)?;
        self.items.reserve(1)
    }
}

/// Adds what one thread leaves. The only error is want of memory.
fn add_task<I: Drop, O: Drop>(parts: &mut Parts, task: Task<I, O>) -> Result<(), AllocError>
    ensures { OnOk result (AddsTask task parts.old parts.new) }
{
    let Ok(()) = parts.reserve() else {
        drop(task);
        return Err(AllocError);
    };
    match task {
        Task::Work(worker) => {
            let Worker {
                shard: _,
                seat,
                counter: _,
                from,
                writers,
            } = worker;
            parts.seats.push_reserved(seat);
            parts.work.push_reserved(from);
            parts.answers.push_reserved(writers);
        }
        Task::Time(timer) => {
            let SweepTimer { stays: _, workers } = timer;
            parts.asks.push_reserved(workers);
        }
        Task::Place(place) => {
            let Place {
                first,
                stays: _,
                reader,
                from,
                answers: _,
            } = place;
            let Reader {
                gate: _,
                peer,
                workers,
                writer,
                sweeps: _,
                requests: _,
            } = reader;
            parts.asks.push_reserved(workers);
            parts.replies.push_reserved(writer);
            parts.items.push_reserved(from);
            drop((first, peer));
        }
        Task::Attend(attendant) => {
            let Attendant { seat } = attendant;
            parts.seats.push_reserved(seat);
        }
    }
    Ok(())
}

/// Ends each of these lanes with its sender of each list.
fn finish_all<T: Drop>(
    alloc: Global,
    receivers: Vec<Receiver<T>>,
    senders: Vec<Vec<Sender<T>>>,
) -> Result<(), ServeFault>
    requires { AreOfLanes (map lane_of receivers.items) (map lanes_of (lists_of senders.items)) }
    ensures heard { OnOk result (AreAllHeard receivers.items (lists_of senders.items)) }
    ensures fault { IfErr result (λ fault. is_of_lanes fault ≡ true) }
{
    let mut receivers = receivers;
    let mut senders = senders;
    while let Some(receiver) = first_of(&mut receivers) {
        let (firsts, rests) = firsts_of(alloc, senders)?;
        senders = rests;
        finish(receiver, firsts)?;
    }
    Ok(())
}

/// Ends a lane with all its senders.
fn finish<T: Drop>(receiver: Receiver<T>, senders: Vec<Sender<T>>) -> Result<(), ServeFault>
    requires { All (IsOfLane (lane_of receiver)) senders.items }
    ensures heard { OnOk result (IsHeard receiver senders.items) }
    ensures fault { IfErr result (λ fault. is_of_lanes fault ≡ true) }
{
    match receiver.finish(senders) {
        Ok(_counts) => Ok(()),
        Err(unfinished) => Err(of_lane(unfinished.fault)),
    }
}

/// The first sender of each list, and what is behind it. The only error is want of memory.
fn firsts_of<T: Drop>(
    alloc: Global,
    lists: Vec<Vec<Sender<T>>>,
) -> Result<(Vec<Sender<T>>, Vec<Vec<Sender<T>>>), AllocError>
    ensures firsts { IfOk result (λ r. r.0.items ≡ firsts (lists_of lists.items)) }
    ensures rests { IfOk result (λ r. lists_of r.1.items ≡ rests (lists_of lists.items)) }
{
    let mut lists = lists;
    let mut firsts = Vec::with_capacity(alloc, lists.len())?;
    let mut rests = Vec::with_capacity(alloc, lists.len())?;
    while let Some(mut list) = first_of(&mut lists) {
        if let Some(sender) = first_of(&mut list) {
            firsts.push(sender)?;
        }
        rests.push(list)?;
    }
    Ok((firsts, rests))
}
