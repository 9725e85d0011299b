//! The lanes of a round.

ghost use Rattle.std.specs.Prelude.{◌≡◌, ◌<◌, [], length, IfOk};
ghost use Rattle.std.specs.List.{AllByRecursion};
ghost use Rattle.dcc_rounds.specs.Lanes.{AreDealt, AreLanes, TakesFirst, all_put, deal, lanes_of, lists_of, put_into, put_all};
ghost use Rattle.dcc_rounds.specs.declared.work.Work.TheVariants as work;

use crate::work::Work;
use dcc_act::Moment;
use dcc_connect::Item;
use dcc_lane::{Lane, Receiver, Sender};
use std::alloc::{AllocError, Global};
use std::sync::Wait;

/// A lane has room for so many items. If it is full, its senders wait.
const CAPACITY: usize = 256;

/// The ends of lanes to workers or writers: who takes, and for each that puts its senders, in the order of who takes.
#[derive(Drop)]
pub(crate) struct Lanes<T> {
    pub receivers: Vec<Receiver<T>>,
    pub senders: Vec<Vec<Sender<T>>>,
}

/// So many lanes, each with so many senders, which are dealt to as many that put. The only error is want of memory.
pub(crate) fn make_lanes<T: Drop>(
    alloc: Global,
    takers: usize,
    putters: usize,
) -> Result<Lanes<T>, AllocError>
    requires { 0 < putters }
    ensures { IfOk result (AreLanes takers putters) }
{
    let mut senders = no_senders(alloc, putters)?;
    let mut receivers = Vec::new(alloc);
    while receivers.len() < takers {
        let (more, receiver) = Lane::<T>::new(alloc, CAPACITY, putters)?;
        senders = dealt(alloc, senders, more)?;
        receivers.push(receiver)?;
    }
    Ok(Lanes { receivers, senders })
}

/// So many lists without a sender.
fn no_senders<T: Drop>(alloc: Global, putters: usize) -> Result<Vec<Vec<Sender<T>>>, AllocError>
    ensures lists { IfOk result (λ lists. length lists.items ≡ putters) }
    ensures none { IfOk result (λ lists. AllByRecursion (AreDealt []) (lists_of lists.items)) }
{
    let mut lists = Vec::new(alloc);
    while lists.len() < putters {
        lists.push(Vec::new(alloc))?;
    }
    Ok(lists)
}

/// Gives each list one more sender, in order.
fn dealt<T: Drop>(
    alloc: Global,
    lists: Vec<Vec<Sender<T>>>,
    senders: Vec<Sender<T>>,
) -> Result<Vec<Vec<Sender<T>>>, AllocError>
    ensures { IfOk result (λ dealt. lists_of dealt.items ≡ deal (lists_of lists.items) senders.items) }
{
    let mut lists = lists;
    let mut senders = senders;
    let mut dealt = Vec::with_capacity(alloc, lists.len())?;
    while let Some(mut list) = first_of(&mut lists) {
        if let Some(sender) = first_of(&mut senders) {
            list.push(sender)?;
        }
        dealt.push(list)?;
    }
    Ok(dealt)
}

/// Takes the first item of a list, if it has any.
pub(crate) fn first_of<T>(list: &mut Vec<T>) -> Option<T>
    ensures { TakesFirst result list.old.items list.new.items }
{
    if list.is_empty() {
        return None;
    }
    Some(list.remove(0))
}

/// Puts an item into the lane of this index, if there is such a lane.
pub(crate) fn put_into<W: Wait, T: Drop>(rt: &W, lanes: &mut Vec<Sender<T>>, index: usize, item: T)
    ensures put { all_put lanes.new.items ≡ put_into index item (all_put lanes.old.items) }
    ensures lanes { lanes_of lanes.new.items ≡ lanes_of lanes.old.items }
{
    if index >= lanes.len() {
        return;
    }
    lanes[index].put(rt, item);
}

/// Puts an item into the lane of this index, if there is such a lane, and lets the thread that takes of it sleep, until `ring_all`. If the
/// lane is full, all such threads are woken before it waits.
pub(crate) fn leave_in<W: Wait, T: Drop>(rt: &W, lanes: &mut Vec<Sender<T>>, index: usize, item: T)
    ensures put { all_put lanes.new.items ≡ put_into index item (all_put lanes.old.items) }
    ensures lanes { lanes_of lanes.new.items ≡ lanes_of lanes.old.items }
{
    if index >= lanes.len() {
        return;
    }
    if let Err(item) = lanes[index].try_leave(rt, item) {
        ring_all(lanes.as_slice());
        put_into(rt, lanes, index, item);
    }
}

/// Wakes all that take of these lanes and were let sleep.
pub(crate) fn ring_all<T: Drop>(lanes: &[Sender<T>]) {
    for lane in lanes {
        lane.ring();
    }
}

/// Says to each worker that the gateway of this index asks for nothing more.
pub(crate) fn end_all<W: Wait>(rt: &W, workers: &mut Vec<Sender<Work>>, gate: usize)
    ensures put { all_put workers.new.items ≡ put_all (work.End gate) (all_put workers.old.items) }
    ensures lanes { lanes_of workers.new.items ≡ lanes_of workers.old.items }
{
    for index in 0..workers.len() {
        put_into(rt, workers, index, Work::End(gate));
    }
}

/// Asks each worker for a sweep.
pub(crate) fn ask_all_to_sweep<W: Wait>(rt: &W, workers: &mut Vec<Sender<Work>>, moment: Moment)
    ensures put { all_put workers.new.items ≡ put_all (work.Sweep moment) (all_put workers.old.items) }
    ensures lanes { lanes_of workers.new.items ≡ lanes_of workers.old.items }
{
    for index in 0..workers.len() {
        put_into(rt, workers, index, Work::Sweep(moment));
    }
}

/// Asks each worker for an audit.
pub(crate) fn ask_all_to_audit<W: Wait>(rt: &W, workers: &mut Vec<Sender<Work>>)
    ensures put { all_put workers.new.items ≡ put_all work.Audit (all_put workers.old.items) }
    ensures lanes { lanes_of workers.new.items ≡ lanes_of workers.old.items }
{
    for index in 0..workers.len() {
        put_into(rt, workers, index, Work::Audit);
    }
}

/// Says to each worker that this sender puts nothing more.
pub(crate) fn leave_all<W: Wait>(rt: &W, workers: &mut Vec<Sender<Work>>)
    ensures put { all_put workers.new.items ≡ put_all work.Over (all_put workers.old.items) }
    ensures lanes { lanes_of workers.new.items ≡ lanes_of workers.old.items }
{
    for index in 0..workers.len() {
        put_into(rt, workers, index, Work::Over);
    }
}
