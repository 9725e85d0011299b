//! Debit requests read, and their answers written.

ghost use Rattle.std.specs.Prelude.{◌≤◌, length};
ghost use Rattle.std.specs.List.{sum_by};
ghost use Rattle.dcc_avp.specs.Spelling.{padded_len};

use crate::checksum::{START, marked, summed};
use crate::debit::Debit;
use crate::fault::{Fault, Measured};
use crate::outcomes::debited;
use crate::rounds::timed;
use dcc_act::Outcome;
use dcc_answer::Proxies;
use dcc_avp::{Avp, read_list};
use dcc_ccr::read_ccr;
use dcc_credit::write_cca;
use dcc_message::{DiameterIdentity, Header, Identity, read_header};
use dcc_tariff::Terms;
use std::alloc::Global;
use std::time::CpuClock;

/// What an answer is written of: who answers, and what.
type Reply = (Identity, Outcome);

/// The terms of the answer.
const TERMS: Terms = Terms {
    validity: 600,
    hold: 1200,
    currency: 978,
    exponent: -2,
};

/// Measures reading the list alone, reading the request, writing its answer, and both in turn.
pub(crate) fn measure<R: AllocGlobal + Print + Eprint + CpuClock>(
    rt: &R,
    count: u32,
) -> Measured<()> {
    match reply(rt.alloc()) {
        Some(reply) => measure_of(rt, &reply, count),
        None => Err(Fault::Memory),
    }
}

/// The same with this answer.
fn measure_of<R: AllocGlobal + Print + Eprint + CpuClock>(
    rt: &R,
    reply: &Reply,
    count: u32,
) -> Measured<()> {
    let alloc = rt.alloc();
    let items = u64::from(count);
    let listed = timed(rt, "codec list", items, || list_all(alloc, count))?;
    let read = timed(rt, "codec read", items, || read_all(alloc, count))?;
    let written = timed(rt, "codec write", items, || write_all(alloc, reply, count))?;
    let both = timed(rt, "codec both", items, || answer_all(alloc, reply, count))?;
    let mark = listed ^ read ^ written ^ both;
    let sum = sum_of_answers(alloc, reply, count)?;
    match println!(rt; "codec {count} answers {sum:016x} mark {mark:016x}") {
        Ok(()) => Ok(()),
        Err(_) => Err(Fault::Output),
    }
}

/// Reads the lists of requests.
fn list_all(alloc: Global, count: u32) -> Measured<u64> {
    let mut debit = Debit::new()?;
    let mut mark = 0u64;
    for i in 0..count {
        debit.set(i);
        mark = mark.rotate_left(5) ^ listed(alloc, debit.as_slice())?;
    }
    Ok(mark)
}

/// The identifier of a request beside the number of its AVPs.
fn listed(alloc: Global, octets: &[u8]) -> Measured<u64>
    requires { 20 ≤ length octets.now }
{
    let Ok(header) = read_header(octets) else {
        return Err(Fault::Sample);
    };
    let Ok(avps) = read_list(alloc, &octets[20..]) else {
        return Err(Fault::Sample);
    };
    Ok(u64::from(header.hop) ^ avps.len() as u64)
}

/// Reads requests.
fn read_all(alloc: Global, count: u32) -> Measured<u64> {
    let mut debit = Debit::new()?;
    let mut mark = 0u64;
    for i in 0..count {
        debit.set(i);
        let (header, proxies) = read(alloc, debit.as_slice())?;
        mark = mark.rotate_left(5) ^ u64::from(header.hop) ^ proxies.as_slice().len() as u64;
    }
    Ok(mark)
}

/// Writes answers.
fn write_all(alloc: Global, reply: &Reply, count: u32) -> Measured<u64> {
    let Ok(mut header) = read_header(Debit::new()?.as_slice()) else {
        return Err(Fault::Sample);
    };
    let proxies = Proxies::none(alloc);
    let mut mark = 0;
    for i in 0..count {
        header.hop = i;
        header.end_to_end = i;
        mark = marked(mark, &written(alloc, reply, &header, &proxies)?, i);
    }
    Ok(mark)
}

/// Reads requests, and writes their answers.
fn answer_all(alloc: Global, reply: &Reply, count: u32) -> Measured<u64> {
    let mut debit = Debit::new()?;
    let mut mark = 0;
    for i in 0..count {
        debit.set(i);
        mark = marked(mark, &answer(alloc, reply, debit.as_slice())?, i);
    }
    Ok(mark)
}

/// The checksum of the answers.
fn sum_of_answers(alloc: Global, reply: &Reply, count: u32) -> Measured<u64> {
    let mut debit = Debit::new()?;
    let mut sum = START;
    for i in 0..count {
        debit.set(i);
        sum = summed(sum, &answer(alloc, reply, debit.as_slice())?);
    }
    Ok(sum)
}

/// Reads a request, and writes its answer.
fn answer(alloc: Global, reply: &Reply, octets: &[u8]) -> Measured<Vec<u8>>
    requires least { 20 ≤ length octets.now }
    requires most { length octets.now ≤ 65_000 }
{
    let (header, proxies) = read(alloc, octets)?;
    written(alloc, reply, &header, &proxies)
}

/// Reads a request whole: its header, its list, what it asks for, and its proxies.
fn read(alloc: Global, octets: &[u8]) -> Measured<(Header, Proxies)>
    requires least { 20 ≤ length octets.now }
    requires most { length octets.now ≤ 65_000 }
{
    let Ok(header) = read_header(octets) else {
        return Err(Fault::Sample);
    };
    let Ok(avps) = read_list(alloc, &octets[20..]) else {
        return Err(Fault::Sample);
    };
    if !is_request(alloc, &avps) {
        return Err(Fault::Sample);
    }
    match Proxies::of(alloc, &avps) {
        Ok(proxies) => Ok((header, proxies)),
        Err(_) => Err(Fault::Memory),
    }
}

/// Reads what a request asks for, its groups too.
fn is_request(alloc: Global, avps: &[Avp<'_>]) -> bool
    requires { sum_by padded_len avps.now ≤ 65_003 }
{
    read_ccr(alloc, avps).is_ok()
}

fn written(alloc: Global, reply: &Reply, header: &Header, proxies: &Proxies) -> Measured<Vec<u8>> {
    let (identity, outcome) = reply;
    match write_cca(alloc, identity, &TERMS, header, proxies, outcome) {
        Ok(answer) => Ok(answer),
        Err(_) => Err(Fault::Memory),
    }
}

/// The answer to a debit of 1,001 octets; none without memory.
fn reply(alloc: Global) -> Option<Reply> {
    let identity = Identity {
        host: name(alloc, b"ocs.example")?,
        realm: name(alloc, b"example")?,
        address: [127, 0, 0, 1],
    };
    Some((identity, debited(alloc)?))
}

/// A server's name.
fn name(alloc: Global, octets: &[u8]) -> Option<DiameterIdentity> {
    DiameterIdentity::from_vec(octets.to_vec(alloc).ok()?)
}
