//! Callers, each with its seat.

use crate::jobs::{after, event_job, opening};
use dcc_act::{Action, Kind, Sub};
use dcc_octets::OctetString;
use dcc_running::{Job, Seat, Shards};
use dcc_shard::{ExpiryAnswer, RequestAnswer, TopUpAnswer};
use dcc_store::Records;
use std::alloc::Global;
use std::marker::Brand;
use std::mem::replace;
use std::sync::Wait;
use std::test::Fail;

/// A caller for a subscriber.
#[derive(Drop)]
pub struct Caller {
    pub sub: Sub,
    /// The name of its session.
    pub name: &'static [u8],
    /// The number of its seats.
    pub number: usize,
    pub seat: Seat,
}

impl Caller {
    /// A caller for the end user of this E.164 number, with a seat of this number of these shards.
    ///
    /// Errors: the number is none, or want of memory.
    pub fn new<R: Records>(
        alloc: Global,
        shards: &Shards<R, Brand>,
        data: &[u8],
        name: &'static [u8],
        number: usize,
    ) -> Result<Caller, Fail> {
        Ok(Caller {
            sub: Sub::new(0, data).ok_or("a subscriber")?,
            name,
            number,
            seat: shards.seat(alloc, number)?,
        })
    }

    /// Hands out its seat, and takes another. The only error is want of memory.
    pub fn stand_up<R: Records>(
        &mut self,
        alloc: Global,
        shards: &Shards<R, Brand>,
    ) -> Result<Seat, Fail> {
        Ok(replace(&mut self.seat, shards.seat(alloc, self.number)?))
    }

    /// Submits a job of a debit or an opening. Other jobs get no answer.
    fn submit<W: Wait, R: Records>(
        &mut self,
        rt: &W,
        alloc: Global,
        shards: &Shards<R, Brand>,
        job: Job,
    ) -> RequestAnswer {
        if !matches!(job.act.kind, Kind::Event(_) | Kind::Initial { .. }) {
            return RequestAnswer::Silent;
        }
        shards.submit(rt, alloc, &mut self.seat, job)
    }

    /// Makes the debit of this number: its answer, and whether its act is fresh. None if it is busy, unknown or has no answer.
    pub fn debit<W: Wait, R: Records>(
        &mut self,
        rt: &W,
        alloc: Global,
        shards: &Shards<R, Brand>,
        number: u32,
    ) -> Option<(OctetString, bool)> {
        let job = event_job(alloc, self.sub, Action::DirectDebiting, self.name, number)?;
        done(self.submit(rt, alloc, shards, job))
    }

    /// Makes the refund of this number: the Result-Code of its answer. None as of [`Caller::debit`], or if the session's name has other than 15 octets.
    pub fn refund<W: Wait, R: Records>(
        &mut self,
        rt: &W,
        alloc: Global,
        shards: &Shards<R, Brand>,
        number: u32,
    ) -> Option<[u8; 4]> {
        let job = event_job(alloc, self.sub, Action::RefundAccount, self.name, number)?;
        let (octets, _fresh) = done(self.submit(rt, alloc, shards, job))?;
        octets.as_slice().get(52..56)?.try_into().ok()
    }

    /// Opens its session: whether the act is fresh. None as of [`Caller::debit`].
    pub fn open<W: Wait, R: Records>(
        &mut self,
        rt: &W,
        alloc: Global,
        shards: &Shards<R, Brand>,
    ) -> Option<bool> {
        let job = opening(alloc, self.sub, self.name)?;
        let (_octets, fresh) = done(self.submit(rt, alloc, shards, job))?;
        Some(fresh)
    }

    /// Makes a top-up by a ticket, of an amount in minor units. None if there is no moment.
    pub fn top_up<W: Wait, R: Records>(
        &mut self,
        rt: &W,
        alloc: Global,
        shards: &Shards<R, Brand>,
        ticket: u64,
        amount: u64,
    ) -> Option<TopUpAnswer> {
        let moment = after(0)?;
        Some(shards.top_up(rt, alloc, &mut self.seat, self.sub, moment, ticket, amount))
    }

    /// Ends the due sessions, so many seconds after the debits. None if there is no moment.
    pub fn expire<W: Wait, R: Records>(
        &mut self,
        rt: &W,
        alloc: Global,
        shards: &Shards<R, Brand>,
        seconds: u32,
    ) -> Option<ExpiryAnswer> {
        let moment = after(seconds)?;
        Some(shards.expire(rt, alloc, &mut self.seat, self.sub, moment))
    }
}

/// The octets of an answer to an act that the books have, and whether it is fresh.
fn done(answer: RequestAnswer) -> Option<(OctetString, bool)> {
    match answer {
        RequestAnswer::Done {
            octets,
            place: _,
            fresh,
        } => Some((octets, fresh)),
        RequestAnswer::Unknown { octets: _ }
        | RequestAnswer::Busy { octets: _ }
        | RequestAnswer::Silent => None,
    }
}
