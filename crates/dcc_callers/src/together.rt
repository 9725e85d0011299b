//! Debits of several subscribers, submitted together, or each by itself.

ghost use Rattle.std.specs.Prelude.{◌≡◌, ◌≤◌, [], true, length, map, vec_capacity, IfOk};
ghost use Rattle.std.specs.List.{list_all};
ghost use Rattle.dcc_running.specs.Batches.{has_request, sub_of_job};

use crate::jobs::event_job;
use dcc_act::{Action, Sub};
use dcc_running::{Job, Seat, Shards};
use dcc_shard::RequestAnswer;
use dcc_store::Records;
use std::alloc::Global;
use std::marker::Brand;
use std::sync::Wait;
use std::test::Fail;

/// The answers to debits of this number in sessions of this name, one of each of these subscribers, which are submitted together at this seat.
///
/// Errors: they can't be submitted together, or want of memory.
pub fn debit_together<W: Wait, R: Records>(
    rt: &W,
    alloc: Global,
    shards: &Shards<R, Brand>,
    seat: &mut Seat,
    subs: &[Sub],
    (name, number): (&[u8], u32),
) -> Result<Vec<RequestAnswer>, Fail> {
    if !shards.is_one_batch(subs) {
        return Err("subscribers".into());
    }
    let (jobs, room) = debits_and_room(alloc, subs, name, number)?;
    let mut answers = room;
    shards.submit_all(rt, alloc, seat, jobs, &mut answers);
    Ok(answers)
}

/// The answers to the same debits, each submitted by itself.
///
/// The only error is want of memory.
pub fn debit_one_by_one<W: Wait, R: Records>(
    rt: &W,
    alloc: Global,
    shards: &Shards<R, Brand>,
    seat: &mut Seat,
    subs: &[Sub],
    (name, number): (&[u8], u32),
) -> Result<Vec<RequestAnswer>, Fail> {
    let mut answers = Vec::with_capacity(alloc, subs.len())?;
    for sub in subs {
        let answer = debit_alone(rt, alloc, shards, seat, *sub, (name, number))?;
        let Ok(()) = answers.push(answer) else {
            drop(answers);
            return Err("memory".into());
        };
    }
    Ok(answers)
}

/// The answer to one of them.
fn debit_alone<W: Wait, R: Records>(
    rt: &W,
    alloc: Global,
    shards: &Shards<R, Brand>,
    seat: &mut Seat,
    sub: Sub,
    (name, number): (&[u8], u32),
) -> Result<RequestAnswer, Fail> {
    let job = event_job(alloc, sub, Action::DirectDebiting, name, number).ok_or("a job")?;
    Ok(shards.submit(rt, alloc, seat, job))
}

/// The jobs of these debits, and room for as many answers.
fn debits_and_room(
    alloc: Global,
    subs: &[Sub],
    name: &[u8],
    number: u32,
) -> Result<(Vec<Job>, Vec<RequestAnswer>), Fail>
    ensures subs { IfOk result (λ debits. map sub_of_job debits.0.items ≡ subs.now) }
    ensures requests { IfOk result (λ debits. list_all has_request debits.0.items ≡ true) }
    ensures empty { IfOk result (λ debits. debits.1.items ≡ []) }
    ensures room { IfOk result (λ debits. length debits.0.items ≤ vec_capacity debits.1) }
{
    let room = Vec::with_capacity(alloc, subs.len())?;
    match debits(alloc, subs, name, number) {
        Ok(jobs) => Ok((jobs, room)),
        Err(fail) => {
            drop(room);
            Err(fail)
        }
    }
}

/// The jobs of these debits.
fn debits(alloc: Global, subs: &[Sub], name: &[u8], number: u32) -> Result<Vec<Job>, Fail>
    ensures subs { IfOk result (λ jobs. map sub_of_job jobs.items ≡ subs.now) }
    ensures requests { IfOk result (λ jobs. list_all has_request jobs.items ≡ true) }
    ensures count { IfOk result (λ jobs. length jobs.items ≡ length subs.now) }
{
    let mut jobs = Vec::with_capacity(alloc, subs.len())?;
    for sub in subs {
        let Some(job) = event_job(alloc, *sub, Action::DirectDebiting, name, number) else {
            drop(jobs);
            return Err("a job".into());
        };
        jobs.push_reserved(job);
    }
    Ok(jobs)
}
