//! One round.

ghost use Rattle.std.specs.Prelude.{◌≡◌, ◌≢◌, ◌<◌, ◌≤◌, ◌+◌, ◌++◌, ℕ, false, [], length, slice_index_or, IfOk, IfErr, OnOk};
ghost use Rattle.dcc_running.specs.Books.{AreShards, book};
ghost use Rattle.dcc_rounds.specs.Counting.{counts_in, with_acts};
ghost use Rattle.dcc_rounds.specs.Gathering.{AddsPlaces, AreGathered, HasCome, attendants_of, place_of, workers_from};
ghost use Rattle.dcc_rounds.specs.Lanes.{AreLanes};
ghost use Rattle.dcc_rounds.specs.Lines.{is_numbered};
ghost use Rattle.dcc_rounds.specs.Served.{EndsRound, IsRound};
ghost use Rattle.dcc_rounds.specs.Tasks.{AllRun};

use crate::attendant::Attendant;
use crate::counter::CallCounter;
use crate::face::{Connection, Listener, Notices, Shut};
use crate::fault::{ServeFault, of_close};
use crate::finishing::finished;
use crate::lanes::{Lanes, first_of, make_lanes};
use crate::line::Counts;
use crate::place::{Place, tell_came};
use crate::reader::{Reader, Sweeps};
use crate::rounds::Rounds;
use crate::run::Service;
use crate::tasks::{Shared, Task};
use crate::timer::SweepTimer;
use crate::work::Work;
use crate::worker::Worker;
use dcc_base::Peer;
use dcc_connect::{Clock, Item};
use dcc_lane::{Receiver, Sender};
use dcc_running::{Naming, Shards};
use dcc_shard::Shard;
use dcc_store::Records;
use std::alloc::{AllocError, Global};
use std::io::{self, Read};
use std::marker::Brand;
use std::sync::Wait;
use std::thread::{Threads, for_each_mut};

/// Serves one round over these shards, and hands them out again with the counts of the round.
pub(crate) fn serve_round<
    W: Threads + Wait + Sync,
    R: Records + Send + Sync + Drop,
    I: Read + Send + Drop,
    O: Shut + Send + Drop,
    L: Listener<I, O> + Sync,
    C: Clock + Copy + Sync,
    N: Notices + Sync,
>(
    rt: &W,
    alloc: Global,
    service: &Service<'_, C, N>,
    shards: Vec<Shard<R>>,
    listener: &mut L,
    rounds: &Rounds,
) -> Result<(Counts, Vec<Shard<R>>), ServeFault>
    requires shards { AreShards service.now.plan.now.terms service.now.identity.now shards.items }
    requires some { 1 ≤ length shards.items }
    requires most { length shards.items ≤ 8 }
    ensures round { IfOk result (λ r. IsRound I.remaining O.contents C.tells L.is_closed L.attends service.now.clock.now
        (record { plan = service.now.plan.now; identity = service.now.identity.now }) R.is_stopped R.may_leave rounds.now shards.items r.0 r.1.items) }
    ensures shards { IfOk result (λ r. AreShards service.now.plan.now.terms service.now.identity.now r.1.items) }
    ensures some { IfOk result (λ r. 1 ≤ length r.1.items) }
    ensures most { IfOk result (λ r. length r.1.items ≤ 8) }
    ensures ends { IfErr result (EndsRound I.remaining O.contents C.tells L.is_closed L.attends service.now.clock.now
        (record { plan = service.now.plan.now; identity = service.now.identity.now }) rounds.now shards.items) }
{
    serve_over::<W, R, Brand, I, O, L, C, N>(rt, alloc, service, shards, listener, rounds)
}

/// The same over shards that hold the acts of `J`.
fn serve_over<
    W: Threads + Wait + Sync,
    R: Records + Send + Sync + Drop,
    J: Naming + Send + Sync,
    I: Read + Send + Drop,
    O: Shut + Send + Drop,
    L: Listener<I, O> + Sync,
    C: Clock + Copy + Sync,
    N: Notices + Sync,
>(
    rt: &W,
    alloc: Global,
    service: &Service<'_, C, N>,
    shards: Vec<Shard<R>>,
    listener: &mut L,
    rounds: &Rounds,
) -> Result<(Counts, Vec<Shard<R>>), ServeFault>
    requires shards { AreShards service.now.plan.now.terms service.now.identity.now shards.items }
    requires some { 1 ≤ length shards.items }
    requires most { length shards.items ≤ 8 }
    requires opening { J.opening ≡ book shards.items }
    ensures round { IfOk result (λ r. IsRound I.remaining O.contents C.tells L.is_closed L.attends service.now.clock.now
        (record { plan = service.now.plan.now; identity = service.now.identity.now }) R.is_stopped R.may_leave rounds.now shards.items r.0 r.1.items) }
    ensures shards { IfOk result (λ r. AreShards service.now.plan.now.terms service.now.identity.now r.1.items) }
    ensures some { IfOk result (λ r. 1 ≤ length r.1.items) }
    ensures most { IfOk result (λ r. length r.1.items ≤ 8) }
    ensures ends { IfErr result (EndsRound I.remaining O.contents C.tells L.is_closed L.attends service.now.clock.now
        (record { plan = service.now.plan.now; identity = service.now.identity.now }) rounds.now shards.items) }
{
    let count = shards.len();
    let locked = match Shards::new(
        alloc,
        service.plan.terms(),
        service.identity,
        shards,
        service.hasher,
    ) {
        Ok(locked) => locked,
        Err(shards) => {
            // By a call, here and below: shards that are let go in place are proved part by part.
            drop(shards);
            return Err(ServeFault::Memory);
        }
    };
    let mut tasks = match gather::<W, R, J, I, O, L, N>(
        rt,
        alloc,
        service.notices,
        &locked,
        count,
        listener,
        rounds,
    ) {
        Ok(tasks) => tasks,
        Err(fault) => {
            drop(locked);
            return Err(fault);
        }
    };
    serve_all::<W, R, J, I, O, L, C, N>(
        rt,
        alloc,
        service,
        listener,
        &locked,
        count,
        tasks.as_mut_slice(),
    );
    let counts = counted(tasks.as_slice());
    let seats = match finished(alloc, tasks) {
        Ok(seats) => seats,
        Err(fault) => {
            drop(locked);
            return Err(fault);
        }
    };
    match locked.close(alloc, seats) {
        Ok(books) => {
            let counts = with_acts(counts, books.acts_told());
            Ok((counts, books.into_shards()))
        }
        Err(unclosed) => {
            let fault = of_close(unclosed.fault);
            drop(unclosed);
            Err(fault)
        }
    }
}

/// Makes all that the threads of a round begin with, and accepts its gateways if they come before it begins.
fn gather<
    W: Wait,
    R: Records,
    J: Naming,
    I: Read + Drop,
    O: Shut + Drop,
    L: Listener<I, O>,
    N: Notices,
>(
    rt: &W,
    alloc: Global,
    notices: &N,
    locked: &Shards<R, J>,
    count: usize,
    listener: &mut L,
    rounds: &Rounds,
) -> Result<Vec<Task<I, O>>, ServeFault>
    requires some { 1 ≤ count }
    requires most { count ≤ 8 }
    ensures tasks { IfOk result (λ tasks. AreGathered count rounds.now tasks.items) }
    ensures fault { IfErr result (λ fault. is_numbered fault ≡ false) }
{
    let gates = rounds.gates;
    let mut work = make_lanes::<Work>(alloc, count, gates + 1)?;
    let mut items = match make_lanes::<Item>(alloc, gates, count + 1) {
        Ok(items) => items,
        Err(_) => {
            // By a call, here and below: what is let go in place is proved part by part.
            drop(work);
            return Err(ServeFault::Memory);
        }
    };
    let mut tasks = Vec::new(alloc);
    match add_tasks::<W, R, J, I, O, L, N>(
        rt, alloc, notices, locked, listener, rounds, &mut work, &mut items, &mut tasks,
    ) {
        Ok(()) => {
            drop((work, items));
            Ok(tasks)
        }
        Err(fault) => {
            drop((work, items, tasks));
            Err(fault)
        }
    }
}

/// Adds the worker of each shard, the timer and the places, with their ends of the lanes to workers and to writers, and the attendants.
fn add_tasks<
    W: Wait,
    R: Records,
    J: Naming,
    I: Read + Drop,
    O: Shut + Drop,
    L: Listener<I, O>,
    N: Notices,
>(
    rt: &W,
    alloc: Global,
    notices: &N,
    locked: &Shards<R, J>,
    listener: &mut L,
    rounds: &Rounds,
    work: &mut Lanes<Work>,
    items: &mut Lanes<Item>,
    gathered: &mut Vec<Task<I, O>>,
) -> Result<(), ServeFault>
    ensures tasks { OnOk result ((shards : ℕ) → AreLanes shards (rounds.now.gates + 1) work.old → AreLanes rounds.now.gates (shards + 1) items.old
        → gathered.old.items ≡ [] → AreGathered shards rounds.now gathered.new.items) }
    ensures fault { IfErr result (λ fault. is_numbered fault ≡ false) }
{
    let Some(timers) = first_of(&mut work.senders) else {
        return Err(ServeFault::Memory);
    };
    let Some(mut replies) = first_of(&mut items.senders) else {
        drop(timers);
        return Err(ServeFault::Memory);
    };
    let Ok(()) = add_workers::<R, J, I, O>(
        alloc,
        locked,
        &mut work.receivers,
        &mut items.senders,
        gathered,
    ) else {
        drop((timers, replies));
        return Err(ServeFault::Memory);
    };
    let timer = SweepTimer {
        stays: rounds.stays,
        workers: timers,
    };
    match gathered.push(Task::Time(timer)) {
        Ok(()) => {}
        Err(failed) => {
            drop((failed, replies));
            return Err(ServeFault::Memory);
        }
    }
    match add_places::<W, I, O, L, N>(
        rt,
        notices,
        listener,
        rounds,
        &mut items.receivers,
        &mut work.senders,
        &mut replies,
        gathered,
    ) {
        Ok(()) => {
            drop(replies);
            add_attendants::<R, J, I, O>(alloc, locked, rounds.attendants, gathered)?;
            Ok(())
        }
        Err(fault) => {
            drop(replies);
            Err(fault)
        }
    }
}

/// Adds a worker for each shard, in order. The only error is want of memory.
fn add_workers<R: Records, J: Naming, I: Drop, O: Drop>(
    alloc: Global,
    locked: &Shards<R, J>,
    receivers: &mut Vec<Receiver<Work>>,
    senders: &mut Vec<Vec<Sender<Item>>>,
    tasks: &mut Vec<Task<I, O>>,
) -> Result<(), AllocError>
    ensures { OnOk result (tasks.new.items ≡ tasks.old.items ++ workers_from 0 receivers.old.items senders.old.items) }
{
    let count = receivers.len();
    for shard in 0..count {
        tasks.reserve(1)?;
        let seat = locked.seat(alloc, shard)?;
        let Some(from) = first_of(receivers) else {
            drop(seat);
            break;
        };
        let Some(writers) = first_of(senders) else {
            drop((seat, from));
            break;
        };
        tasks.push_reserved(Task::Work(Worker {
            shard,
            seat,
            counter: CallCounter::new(shard),
            from,
            writers,
        }));
    }
    Ok(())
}

/// Adds so many attendants, each with a seat of its own. The only error is want of memory.
fn add_attendants<R: Records, J: Naming, I: Drop, O: Drop>(
    alloc: Global,
    locked: &Shards<R, J>,
    count: usize,
    tasks: &mut Vec<Task<I, O>>,
) -> Result<(), AllocError>
    ensures { OnOk result (tasks.new.items ≡ tasks.old.items ++ attendants_of count) }
{
    for added in 0..count {
        tasks.reserve(1)?;
        // Behind the workers' seats, of which each shard has one.
        let number = locked.count().saturating_add(added);
        let seat = locked.seat(alloc, number)?;
        tasks.push_reserved(Task::Attend(Attendant { seat }));
    }
    Ok(())
}

/// Adds each place of a round, with the gateway that it accepts for the place, or without a gateway if places are taken again.
fn add_places<W: Wait, I: Read + Drop, O: Shut + Drop, L: Listener<I, O>, N: Notices>(
    rt: &W,
    notices: &N,
    listener: &mut L,
    rounds: &Rounds,
    receivers: &mut Vec<Receiver<Item>>,
    senders: &mut Vec<Vec<Sender<Work>>>,
    replies: &mut Vec<Sender<Item>>,
    tasks: &mut Vec<Task<I, O>>,
) -> Result<(), ServeFault>
    ensures places { OnOk result (AddsPlaces rounds.now receivers.old.items senders.old.items replies.old.items tasks.old.items tasks.new.items) }
    ensures fault { IfErr result (λ fault. is_numbered fault ≡ false) }
{
    for gate in 0..rounds.gates {
        tasks.reserve(1)?;
        let Some(from) = first_of(receivers) else {
            return Err(ServeFault::Memory);
        };
        let Some(workers) = first_of(senders) else {
            drop(from);
            return Err(ServeFault::Memory);
        };
        let Some(writer) = first_of(replies) else {
            drop((from, workers));
            return Err(ServeFault::Memory);
        };
        let Ok(first) = first_at::<W, I, O, L, N>(rt, notices, listener, rounds.stays, gate) else {
            drop((from, workers, writer));
            return Err(ServeFault::Io);
        };
        tasks.push_reserved(place_of(
            rounds.stays,
            rounds.every,
            gate,
            first,
            from,
            workers,
            writer,
        ));
    }
    Ok(())
}

/// The gateway that comes for a place before the round begins. None if places are taken again. The only error is the listener's.
fn first_at<W: Wait, I, O, L: Listener<I, O>, N: Notices>(
    rt: &W,
    notices: &N,
    listener: &mut L,
    stays: bool,
    gate: usize,
) -> io::Result<Option<Connection<I, O>>>
    ensures { IfOk result (λ first. HasCome stays first) }
{
    if stays {
        return Ok(None);
    }
    let connection = listener.accept(gate)?;
    tell_came(rt, notices, gate, &connection);
    Ok(Some(connection))
}

/// A place.
fn place_of<I: Drop, O: Drop>(
    stays: bool,
    every: u32,
    gate: usize,
    first: Option<Connection<I, O>>,
    from: Receiver<Item>,
    workers: Vec<Sender<Work>>,
    writer: Sender<Item>,
) -> Task<I, O>
    ensures { result ≡ place_of stays every gate first from workers writer }
{
    let reader = Reader {
        gate,
        peer: Peer::Wait,
        workers,
        writer,
        sweeps: Sweeps { every, since: 0 },
        requests: 0,
    };
    Task::Place(Place {
        first,
        stays,
        reader,
        from,
        answers: 0,
    })
}

/// Runs each task in a thread of its own, until all have ended.
fn serve_all<
    W: Threads + Wait + Sync,
    R: Records + Send + Sync + Drop,
    J: Naming + Send + Sync,
    I: Read + Send + Drop,
    O: Shut + Send + Drop,
    L: Listener<I, O> + Sync,
    C: Clock + Copy + Sync,
    N: Notices + Sync,
>(
    rt: &W,
    alloc: Global,
    service: &Service<'_, C, N>,
    listener: &L,
    locked: &Shards<R, J>,
    count: usize,
    tasks: &mut [Task<I, O>],
)
    requires { count ≡ locked.now.count }
    ensures { AllRun I.remaining O.contents C.tells L.is_closed L.attends service.now.clock.now (record { plan = service.now.plan.now; identity = service.now.identity.now })
        J.opening count tasks.old tasks.new }
{
    let threads = tasks.len().max(1);
    let shared = Shared {
        alloc,
        plan: service.plan,
        identity: service.identity,
        clock: service.clock,
        notices: service.notices,
        listener,
        shards: locked,
        count,
        threads,
    };
    for_each_mut(
        rt,
        tasks,
        threads,
        &|_, task: &mut Task<I, O>| { task.run(rt, &shared) },
    );
}

/// The counts of a round, with the acts of the receipts that were audited before its end.
fn with_acts(counts: Counts, acts: u64) -> Counts
    ensures { result ≡ with_acts counts acts }
{
    Counts {
        requests: counts.requests,
        answers: counts.answers,
        acts: counts.acts.saturating_add(acts),
    }
}

/// The counts of the threads of a round.
fn counted<I, O>(tasks: &[Task<I, O>]) -> Counts
    ensures { result ≡ counts_in tasks.now }
{
    let mut counts = Counts {
        requests: 0,
        answers: 0,
        acts: 0,
    };
    for task in tasks {
        counts.requests = counts.requests.saturating_add(task.requests());
        counts.answers = counts.answers.saturating_add(task.answers());
        counts.acts = counts.acts.saturating_add(task.acts());
    }
    counts
}
