//! An engine one of whose shards has records that fail once, in the midst of a sweep.

ghost use Rattle.std.specs.Prelude.{◌≡◌, IfOk};

use crate::accounts::subscriber;
use dcc_act::Sub;
use dcc_base::Host;
use dcc_callers::{TERMS, after, are_shards, identity, pair};
use dcc_engine::{Engine, Event, Out};
use dcc_message::Identity;
use dcc_octets::OctetString;
use dcc_samples::{ANSWER, BUSY, DEBIT};
use dcc_shard::{Shard, Shards};
use dcc_store::{MemoryRecords, Records};
use dcc_tariff::{Plan, Terms};
use dcc_test_stores::OnceRecords;
use std::alloc::Global;
use std::hash::RandomState;
use std::process::Abort;
use std::random::RandomSource;
use std::test::Fail;

/// An engine of two shards, over these records.
fn engine_over<S: RandomSource + AllocGlobal, R: Records + Drop>(
    rt: &S,
    first: R,
    second: R,
) -> Result<Engine<R>, Fail> {
    let plan = Plan::rows(rt.alloc())?;
    match shards_over(rt, plan.terms(), first, second) {
        Ok(shards) => Ok(Engine::open(rt.alloc(), plan, shards)?),
        Err(fail) => {
            drop(plan);
            Err(fail)
        }
    }
}

/// Two shards over these records, as one.
fn shards_over<S: RandomSource + AllocGlobal, R: Records + Drop>(
    rt: &S,
    terms: &Terms,
    first: R,
    second: R,
) -> Result<Shards<R>, Fail>
    ensures { IfOk result (λ shards. shards.shard.terms ≡ terms.now) }
{
    let shards = pair(rt, first, second)?;
    match identity(rt.alloc()) {
        Ok(identity) => as_one(terms, identity, shards),
        Err(fail) => {
            drop(shards);
            Err(fail)
        }
    }
}

/// These shards as one, if they may stand so.
fn as_one<R: Records + Drop>(
    terms: &Terms,
    identity: Identity,
    shards: Vec<Shard<R>>,
) -> Result<Shards<R>, Fail>
    ensures { IfOk result (λ shards. shards.shard.terms ≡ terms.now) }
{
    let count = shards.len();
    if count < 1 || count > 8 || !are_shards(terms, &identity, &shards) {
        drop(shards);
        drop(identity);
        return Err("shards".into());
    }
    Ok(Shards::new(terms, identity, shards))
}

/// An engine whose first shard fails at its third append.
fn failing_engine(rt: &(impl RandomSource + AllocGlobal)) -> Result<Engine<OnceRecords>, Fail> {
    let hasher = RandomState::new(rt)?;
    let first = MemoryRecords::new(rt.alloc(), &TERMS, hasher);
    let second = MemoryRecords::new(rt.alloc(), &TERMS, hasher);
    engine_over(rt, OnceRecords::new(first, 3), OnceRecords::new(second, 0))
}

/// An engine over what its records find after a restart.
fn reopened(
    rt: &(impl RandomSource + AllocGlobal),
    engine: Engine<OnceRecords>,
) -> Result<Engine<MemoryRecords>, Fail> {
    let mut shards = engine.into_shards().into_vec();
    let second = healed(&mut shards);
    let first = healed(&mut shards);
    drop(shards);
    match (first, second) {
        (Some(first), Some(second)) => engine_over(rt, first, second),
        (first, second) => {
            drop(first);
            drop(second);
            Err("a shard".into())
        }
    }
}

/// The last shard's records as a restart finds them.
fn healed(shards: &mut Vec<Shard<OnceRecords>>) -> Option<MemoryRecords> {
    Some(shards.pop()?.into_records().healed())
}

/// A subscriber of the first shard, and one of the second.
fn subscribers() -> Result<[Sub; 2], Fail> {
    Ok([subscriber(b"491700000001")?, subscriber(b"491700000002")?])
}

/// The host of this name.
fn host(alloc: Global, name: &[u8]) -> Result<Host, Fail> {
    let octets = OctetString::from_vec(name.to_vec(alloc)?);
    Ok(Host::from_octets(octets).ok_or("a host")?)
}

fn connect(alloc: Global) -> Result<Event, Fail> {
    Ok(Event::Connect {
        peer: 1,
        host: Some(host(alloc, b"gw1.example")?),
    })
}

fn top_up(sub: Sub) -> Result<Event, Fail> {
    Ok(Event::TopUp {
        moment: after(0).ok_or("a moment")?,
        sub,
        ticket: 1,
        amount: 1000,
    })
}

/// A message of the peer, so many seconds after the first.
fn message(seconds: u32, octets: Vec<u8>) -> Result<Event, Fail> {
    Ok(Event::Message {
        peer: 1,
        moment: after(seconds).ok_or("a moment")?,
        octets: OctetString::from_vec(octets),
    })
}

fn put(octets: &mut [u8], place: usize, octet: u8) -> Result<(), Fail> {
    if place >= octets.len() {
        return Err("a place".into());
    }
    octets[place] = octet;
    Ok(())
}

/// The sample's debit, of this subscriber.
fn debit(alloc: Global, sub: Sub) -> Result<Vec<u8>, Fail> {
    let mut octets = hex::decode(alloc, DEBIT)?;
    put(&mut octets, 203, *sub.name().last().ok_or("a name")?)?;
    Ok(octets)
}

/// The initial request of a session, which asks for what the debit does.
fn opening(alloc: Global, sub: Sub) -> Result<Vec<u8>, Fail> {
    let debit = debit(alloc, sub)?;
    let mut octets = Vec::from_slice(alloc, debit.get(..136).ok_or("a request")?)?;
    octets.extend_from_slice(&[0, 0, 0, 1])?;
    octets.extend_from_slice(debit.get(140..152).ok_or("a number")?)?;
    // Behind the Requested-Action, which sessions don't have.
    octets.extend_from_slice(debit.get(164..).ok_or("a subscriber")?)?;
    let length = u8::try_from(octets.len()).map_err(|_| Fail::from("a long request"))?;
    put(&mut octets, 3, length)?;
    // Another session than the debit's.
    put(&mut octets, 42, b'2')?;
    Ok(octets)
}

/// How many seconds after the first messages the sweep comes: no session is held so long.
const DAY: u32 = 86_400;

/// Money and a session of a subscriber.
fn put_opening(alloc: Global, events: &mut Vec<Event>, sub: Sub) -> Result<(), Fail> {
    events.push(top_up(sub)?)?;
    events.push(message(0, opening(alloc, sub)?)?)?;
    Ok(())
}

/// A debit behind the sweep.
fn put_debit(alloc: Global, events: &mut Vec<Event>, sub: Sub) -> Result<(), Fail> {
    events.push(message(DAY, debit(alloc, sub)?)?)?;
    Ok(())
}

/// The sweep.
fn put_sweep(events: &mut Vec<Event>) -> Result<(), Fail> {
    let moment = after(DAY).ok_or("a moment")?;
    events.push(Event::Sweep { moment })?;
    Ok(())
}

/// Money and a session of both, the sweep, the first one's debit twice, and the other's.
fn put_events(alloc: Global, events: &mut Vec<Event>) -> Result<(), Fail> {
    let [first, other] = subscribers()?;
    events.push(connect(alloc)?)?;
    put_opening(alloc, events, first)?;
    put_opening(alloc, events, other)?;
    put_sweep(events)?;
    put_debit(alloc, events, first)?;
    put_debit(alloc, events, first)?;
    put_debit(alloc, events, other)
}

/// Asserts that these outs end with that of a sweep which was refused for this subscriber alone, two busy answers, and an answer to a debit.
fn assert_told(rt: &(impl Abort + AllocGlobal), outs: &[Out], sub: Sub) -> Result<(), Fail> {
    let [.., sweep, busy, again, other] = outs else {
        return Err("outs".into());
    };
    assert!(rt; !sweep.refused_all && sweep.refused.as_slice() == [sub].as_slice());
    assert_octets(rt, busy, BUSY)?;
    assert_octets(rt, again, BUSY)?;
    assert_octets(rt, other, ANSWER)
}

/// Asserts that an event is answered by a sample.
fn assert_octets(rt: &(impl Abort + AllocGlobal), out: &Out, sample: &str) -> Result<(), Fail> {
    let octets = hex::decode(rt.alloc(), sample)?;
    assert_eq!(rt; out.octets.as_slice(), octets.as_slice());
    Ok(())
}

/// How many acts are held for a subscriber.
fn acts_of<R: Records>(engine: &Engine<R>, sub: Sub) -> usize {
    match engine.account(sub) {
        Some(account) => account.acts().len(),
        None => 0,
    }
}

/// Runs all that is put behind these events, and asserts what is reported, and that nothing is held of the first subscriber from the sweep on.
fn run_all<R: Records>(
    rt: &(impl Abort + AllocGlobal),
    engine: &mut Engine<R>,
    events: &mut Vec<Event>,
) -> Result<(), Fail> {
    let [first, other] = subscribers()?;
    put_events(rt.alloc(), events)?;
    let outs = engine.run(rt.alloc(), events)?;
    let told = assert_told(rt, &outs, first);
    drop(outs);
    told?;
    assert_eq!(rt; acts_of(engine, first), 2);
    assert_eq!(rt; acts_of(engine, other), 4);
    Ok(())
}

/// The same with no events before.
fn run_until_stopped<R: Records>(
    rt: &(impl Abort + AllocGlobal),
    engine: &mut Engine<R>,
) -> Result<(), Fail> {
    let mut events = Vec::new(rt.alloc());
    let ran = run_all(rt, engine, &mut events);
    drop(events);
    ran
}

/// Asserts that the last of these outs answers the debit.
fn assert_debited(rt: &(impl Abort + AllocGlobal), outs: &[Out]) -> Result<(), Fail> {
    let [.., last] = outs else {
        return Err("an out".into());
    };
    assert_octets(rt, last, ANSWER)
}

/// Asks for the first subscriber's debit behind these events, and asserts that it is made.
fn run_debit<R: Records>(
    rt: &(impl Abort + AllocGlobal),
    engine: &mut Engine<R>,
    events: &mut Vec<Event>,
) -> Result<(), Fail> {
    let [first, _] = subscribers()?;
    events.push(connect(rt.alloc())?)?;
    put_debit(rt.alloc(), events, first)?;
    let outs = engine.run(rt.alloc(), events)?;
    let told = assert_debited(rt, &outs);
    drop(outs);
    told?;
    assert_eq!(rt; acts_of(engine, first), 3);
    Ok(())
}

/// The same with no events before.
fn run_again<R: Records>(
    rt: &(impl Abort + AllocGlobal),
    engine: &mut Engine<R>,
) -> Result<(), Fail> {
    let mut events = Vec::new(rt.alloc());
    let ran = run_debit(rt, engine, &mut events);
    drop(events);
    ran
}

/// The engine over what is found after a restart.
fn run_and_reopen(
    rt: &(impl Abort + RandomSource + AllocGlobal),
) -> Result<Engine<MemoryRecords>, Fail> {
    let mut engine = failing_engine(rt)?;
    match run_until_stopped(rt, &mut engine) {
        Ok(()) => reopened(rt, engine),
        Err(fail) => {
            drop(engine);
            Err(fail)
        }
    }
}

/// The expiry of the first shard's subscriber isn't appended: it alone is refused, the other shard's session ends, and from there on the first
/// shard is busy and the other answers. Opened again, the first makes the debit.
#[test]
fn an_engine_outlives_an_append_that_fails(rt: HostRuntime) -> Result<(), Fail> {
    let mut again = run_and_reopen(&rt)?;
    let ran = run_again(&rt, &mut again);
    drop(again);
    ran
}
