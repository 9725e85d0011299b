//! Each call once on its happy path, and receipts that are missing, stray or out of order.

ghost use Rattle.std.specs.Prelude.{◌<◌};

use dcc_act::{MAX_AMOUNT, Sub};
use dcc_callers::{Caller, after, in_memory, one};
use dcc_receipts::{Receipt, check_receipts};
use dcc_running::{Books, Seat, Shards, Unclosed};
use dcc_shard::{ExpiryAnswer, TopUpAnswer};
use dcc_store::Records;
use std::alloc::Global;
use std::marker::Brand;
use std::process::Abort;
use std::random::RandomSource;
use std::sync::Wait;
use std::test::Fail;

/// A caller for the subscriber of these tests.
fn caller<R: Records>(alloc: Global, shards: &Shards<R, Brand>) -> Result<Caller, Fail> {
    Caller::new(alloc, shards, b"491700000001", b"gw1.example;1;1", 0)
}

/// A seat alone.
fn alone(alloc: Global, seat: Seat) -> Result<Vec<Seat>, Fail> {
    match Vec::with_capacity(alloc, 1) {
        Ok(mut seats) => {
            seats.push_reserved(seat);
            Ok(seats)
        }
        Err(error) => {
            drop(seat);
            Err(error.into())
        }
    }
}

/// The fault's number, 0 for none of these.
fn close<R: Records + Drop>(alloc: Global, shards: Shards<R, Brand>, seats: Vec<Seat>) -> u8 {
    match shards.close(alloc, seats) {
        Ok(books) => {
            drop(books);
            0
        }
        Err(unclosed) => {
            let number = unclosed.fault.number().unwrap_or(1);
            drop(unclosed);
            number
        }
    }
}

/// A top-up's ticket and amount, and its answer.
type ToldTopUp = (u64, u64, TopUpAnswer);

const ADDED: TopUpAnswer = TopUpAnswer::Done {
    place: 1,
    fresh: true,
};

const ADDED_BEFORE: TopUpAnswer = TopUpAnswer::Done {
    place: 1,
    fresh: false,
};

/// A top-up, again by the same ticket, and one of nothing.
const THREE_TOP_UPS: &[ToldTopUp] = &[
    (1, 1000, ADDED),
    (1, 5, ADDED_BEFORE),
    (2, 0, TopUpAnswer::BadAmount),
];

/// Tops up, and asserts the answer of each top-up.
fn top_up_each<W: Wait + Abort + AllocGlobal, R: Records>(
    rt: &W,
    shards: &Shards<R, Brand>,
    caller: &mut Caller,
    top_ups: &[ToldTopUp],
) {
    for (ticket, amount, wanted) in top_ups {
        let told = caller.top_up(rt, rt.alloc(), shards, *ticket, *amount);
        assert_eq!(rt; told, Some(*wanted));
    }
}

/// Ends a session, which is held for 1,200 seconds.
fn end_session<W: Wait + Abort + AllocGlobal, R: Records>(
    rt: &W,
    shards: &Shards<R, Brand>,
    caller: &mut Caller,
) {
    assert_eq!(rt; caller.open(rt, rt.alloc(), shards), Some(true));
    let closed = ExpiryAnswer::Closed {
        sessions: 1,
        place: 3,
    };
    let ended = caller.expire(rt, rt.alloc(), shards, 1199);
    assert_eq!(rt; ended, Some(ExpiryAnswer::Nothing));
    let ended = caller.expire(rt, rt.alloc(), shards, 1200);
    assert_eq!(rt; ended, Some(closed));
}

/// The number of the fault that receipts have beside no acts, 0 for none.
fn check(receipts: &[Receipt]) -> u8 {
    match check_receipts(&[], receipts) {
        Ok(()) => 0,
        Err(fault) => fault.number().unwrap_or(1),
    }
}

/// How many subscribers the first shard has.
fn count<W: Wait, R: Records>(
    rt: &W,
    alloc: Global,
    shards: &Shards<R, Brand>,
) -> Result<usize, Fail>
    requires { 0 < shards.now.count }
{
    Ok(shards.subs(rt, alloc, 0)?.len())
}

/// Makes each call, and asserts how many receipts they give.
fn make_each<W: Wait + Abort + AllocGlobal, R: Records>(
    rt: &W,
    shards: &Shards<R, Brand>,
    caller: &mut Caller,
) -> Result<(), Fail>
    requires { 0 < shards.now.count }
{
    top_up_each(rt, shards, caller, THREE_TOP_UPS);
    end_session(rt, shards, caller);
    assert_eq!(rt; count(rt, rt.alloc(), shards)?, 1);
    assert_eq!(rt; caller.seat.receipts().len(), 4);
    assert_eq!(rt; check(&[]), 0);
    assert_eq!(rt; check(caller.seat.receipts()), 60);
    Ok(())
}

/// Tops up at other shards.
fn top_up_others<W: Wait + Abort + RandomSource + AllocGlobal>(
    rt: &W,
    caller: &mut Caller,
) -> Result<(), Fail> {
    let others = one(rt, in_memory(rt)?)?;
    top_up_each(rt, &others, caller, THREE_TOP_UPS);
    drop(others);
    Ok(())
}

/// Makes the subscriber's debit at other shards, and asserts that it is unknown there after a top-up.
fn ask_others<S: Wait + Abort + RandomSource + AllocGlobal>(
    rt: &S,
    caller: &mut Caller,
) -> Result<(), Fail> {
    let others = one(rt, in_memory(rt)?)?;
    let is_unknown = caller.debit(rt, rt.alloc(), &others, 0).is_none();
    drop(others);
    assert!(rt; is_unknown);
    Ok(())
}

/// All of 10^18 minor units, for which a refund and a top-up are refused, and are so again.
const CEILING: &[ToldTopUp] = &[
    (
        2,
        1,
        TopUpAnswer::Ceiling {
            place: 3,
            fresh: true,
        },
    ),
    (
        2,
        1,
        TopUpAnswer::Ceiling {
            place: 3,
            fresh: false,
        },
    ),
    (3, 0, TopUpAnswer::BadAmount),
    (1, 7, ADDED_BEFORE),
];

/// Tops up to the ceiling. A refund is answered with DIAMETER_UNABLE_TO_COMPLY, 5012.
fn reach_the_ceiling<W: Wait + Abort + AllocGlobal, R: Records>(
    rt: &W,
    shards: &Shards<R, Brand>,
    caller: &mut Caller,
) {
    top_up_each(rt, shards, caller, &[(1, MAX_AMOUNT, ADDED)]);
    let refused = caller.refund(rt, rt.alloc(), shards, 0);
    assert_eq!(rt; refused, Some([0, 0, 0x13, 0x94]));
    top_up_each(rt, shards, caller, CEILING);
    assert_eq!(rt; caller.seat.receipts().len(), 5);
}

/// The end of an audit: its fault, 0 for none, and how many receipts it took out of the seat, and left there.
type Audited = (u8, usize, usize);

/// Audits the seat, and asserts how that ended.
fn audit<W: Wait + Abort + AllocGlobal, R: Records>(
    rt: &W,
    shards: &Shards<R, Brand>,
    caller: &mut Caller,
    wanted: Audited,
) {
    let (number, taken) = match shards.audit(rt, rt.alloc(), &mut caller.seat) {
        Ok(taken) => (0, taken),
        Err(fault) => (fault.number().unwrap_or(1), 0),
    };
    assert_eq!(rt; (number, taken, caller.seat.receipts().len()), wanted);
}

/// Top-ups behind [`make_each`] and an audit: a new one, and the first again.
const TWO_MORE: &[ToldTopUp] = &[
    (
        3,
        10,
        TopUpAnswer::Done {
            place: 4,
            fresh: true,
        },
    ),
    (1, 5, ADDED_BEFORE),
];

/// The last top-up, which isn't audited.
const LAST: &[ToldTopUp] = &[(
    4,
    10,
    TopUpAnswer::Done {
        place: 5,
        fresh: true,
    },
)];

/// Makes calls, and audits their receipts in two stretches. The receipt of the last call stays.
fn audit_twice<W: Wait + Abort + AllocGlobal, R: Records>(
    rt: &W,
    shards: &Shards<R, Brand>,
    caller: &mut Caller,
) -> Result<(), Fail>
    requires { 0 < shards.now.count }
{
    make_each(rt, shards, caller)?;
    audit(rt, shards, caller, (0, 4, 0));
    top_up_each(rt, shards, caller, TWO_MORE);
    audit(rt, shards, caller, (0, 2, 0));
    audit(rt, shards, caller, (0, 0, 0));
    top_up_each(rt, shards, caller, LAST);
    Ok(())
}

/// What was done at the seat with which shards are closed.
#[derive(Clone, Copy)]
enum Seated {
    EachCall,
    TopUpsInOthers,
    /// The last receipt is of an act before one that was reported as unknown.
    UnknownBetween,
    AtTheCeiling,
    Audited,
    AuditedOfOthers,
    AuditedOutOfOrder,
    /// The receipt of the second audit is of an act before those of the first.
    OutOfOrderOverAudits,
    /// Another seat has the receipt of the last act, and audits it later.
    AuditedBesideAnother,
}

/// Ends the caller's session at another seat, in a batch behind a subscriber without acts; then both seats are audited.
fn audit_beside_another<W: Wait + Abort + AllocGlobal, R: Records>(
    rt: &W,
    shards: &Shards<R, Brand>,
    caller: &mut Caller,
) -> Result<(), Fail>
    requires { 0 < shards.now.count }
{
    top_up_each(rt, shards, caller, &[(1, 1000, ADDED)]);
    assert_eq!(rt; caller.open(rt, rt.alloc(), shards), Some(true));
    let nobody = Sub::new(0, b"491700000000").ok_or("a subscriber")?;
    let moment = after(2_000).ok_or("a moment")?;
    let subs = [nobody, caller.sub];
    let mut other = shards.seat(rt.alloc(), 1)?;
    assert!(rt; shards.is_one_batch(&subs));
    if shards.is_one_batch(&subs) {
        let _tally = shards.expire_all(rt, rt.alloc(), &mut other, &subs, moment);
    }
    assert_eq!(rt; other.receipts().len(), 1);
    audit(rt, shards, caller, (0, 2, 0));
    let audited = shards.audit(rt, rt.alloc(), &mut other).unwrap_or(0);
    assert_eq!(rt; audited, 1);
    drop(other);
    Ok(())
}

/// Does so at this caller's seat.
fn act_at<W: Wait + Abort + AllocGlobal + RandomSource, R: Records>(
    rt: &W,
    shards: &Shards<R, Brand>,
    caller: &mut Caller,
    seated: Seated,
) -> Result<(), Fail>
    requires { 0 < shards.now.count }
{
    match seated {
        Seated::EachCall => make_each(rt, shards, caller),
        Seated::TopUpsInOthers => top_up_others(rt, caller),
        Seated::UnknownBetween => {
            top_up_each(rt, shards, caller, THREE_TOP_UPS);
            ask_others(rt, caller)
        }
        Seated::AtTheCeiling => {
            reach_the_ceiling(rt, shards, caller);
            Ok(())
        }
        Seated::Audited => audit_twice(rt, shards, caller),
        Seated::AuditedOfOthers => {
            top_up_others(rt, caller)?;
            audit(rt, shards, caller, (60, 0, 2));
            Ok(())
        }
        Seated::AuditedOutOfOrder => {
            top_up_each(rt, shards, caller, THREE_TOP_UPS);
            ask_others(rt, caller)?;
            audit(rt, shards, caller, (62, 0, 3));
            Ok(())
        }
        Seated::AuditedBesideAnother => audit_beside_another(rt, shards, caller),
        Seated::OutOfOrderOverAudits => {
            top_up_each(rt, shards, caller, THREE_TOP_UPS);
            audit(rt, shards, caller, (0, 2, 0));
            ask_others(rt, caller)?;
            audit(rt, shards, caller, (62, 0, 1));
            Ok(())
        }
    }
}

/// The seat of this caller, at which so was done.
fn seat_by<W: Wait + Abort + AllocGlobal + RandomSource, R: Records>(
    rt: &W,
    shards: &Shards<R, Brand>,
    caller: &mut Caller,
    seated: Seated,
) -> Result<Seat, Fail>
    requires { 0 < shards.now.count }
{
    act_at(rt, shards, caller, seated)?;
    caller.stand_up(rt.alloc(), shards)
}

/// A seat at which so was done.
fn seat_of<W: Wait + Abort + AllocGlobal + RandomSource, R: Records>(
    rt: &W,
    shards: &Shards<R, Brand>,
    seated: Seated,
) -> Result<Seat, Fail>
    requires { 0 < shards.now.count }
{
    let mut caller = caller(rt.alloc(), shards)?;
    let seat = seat_by(rt, shards, &mut caller, seated);
    drop(caller);
    seat
}

/// That seat alone.
fn seats_of<W: Wait + Abort + AllocGlobal + RandomSource, R: Records>(
    rt: &W,
    shards: &Shards<R, Brand>,
    seated: Seated,
) -> Result<Vec<Seat>, Fail>
    requires { 0 < shards.now.count }
{
    let seat = seat_of(rt, shards, seated)?;
    alone(rt.alloc(), seat)
}

/// The fault's number of a close without any seat, 0 for none of these, and the books that it leaves.
fn close_without<R: Records + Drop>(
    alloc: Global,
    shards: Shards<R, Brand>,
) -> (u8, Books<R, Brand>) {
    match shards.close(alloc, Vec::new(alloc)) {
        Ok(books) => (0, books),
        Err(unclosed) => {
            let Unclosed {
                fault,
                books,
                seats,
            } = unclosed;
            drop(seats);
            (fault.number().unwrap_or(1), books)
        }
    }
}

/// The outcome of a close without any seat, and of a close with these seats over what the first left.
fn close_twice<R: Records + Drop>(
    alloc: Global,
    shards: Shards<R, Brand>,
    seats: Vec<Seat>,
) -> (u8, u8) {
    let (number, books) = close_without(alloc, shards);
    (number, close(alloc, books.into_locks(), seats))
}

/// The same if there are seats.
fn close_with<R: Records + Drop>(
    alloc: Global,
    shards: Shards<R, Brand>,
    seats: Result<Vec<Seat>, Fail>,
) -> Result<(u8, u8), Fail> {
    match seats {
        Ok(seats) => Ok(close_twice(alloc, shards, seats)),
        Err(fail) => {
            drop(shards);
            Err(fail)
        }
    }
}

/// The faults with which shards close, 0 for none, without any seat and with the seat at which this was done.
fn faults<W: Wait + Abort + AllocGlobal + RandomSource>(
    rt: &W,
    seated: Seated,
) -> Result<(u8, u8), Fail> {
    let shards = one(rt, in_memory(rt)?)?;
    let seats = seats_of(rt, &shards, seated);
    close_with(rt.alloc(), shards, seats)
}

#[test]
fn each_call_gives_its_receipt(rt: HostRuntime) -> Result<(), Fail> {
    assert_eq!(&rt; faults(&rt, Seated::EachCall)?, (61, 0));
    Ok(())
}

#[test]
fn a_receipt_is_stray(rt: HostRuntime) -> Result<(), Fail> {
    assert_eq!(&rt; faults(&rt, Seated::TopUpsInOthers)?, (0, 60));
    Ok(())
}

#[test]
fn receipts_are_out_of_order(rt: HostRuntime) -> Result<(), Fail> {
    assert_eq!(&rt; faults(&rt, Seated::UnknownBetween)?, (61, 62));
    Ok(())
}

#[test]
fn nothing_is_added_at_the_ceiling(rt: HostRuntime) -> Result<(), Fail> {
    assert_eq!(&rt; faults(&rt, Seated::AtTheCeiling)?, (61, 0));
    Ok(())
}

#[test]
fn receipts_are_audited_in_stretches(rt: HostRuntime) -> Result<(), Fail> {
    assert_eq!(&rt; faults(&rt, Seated::Audited)?, (61, 0));
    Ok(())
}

#[test]
fn an_audit_leaves_what_disagrees(rt: HostRuntime) -> Result<(), Fail> {
    assert_eq!(&rt; faults(&rt, Seated::AuditedOfOthers)?, (0, 60));
    assert_eq!(&rt; faults(&rt, Seated::AuditedOutOfOrder)?.1, 62);
    assert_eq!(&rt; faults(&rt, Seated::OutOfOrderOverAudits)?, (0, 62));
    Ok(())
}

#[test]
fn a_call_of_another_seat_is_waited_for(rt: HostRuntime) -> Result<(), Fail> {
    assert_eq!(&rt; faults(&rt, Seated::AuditedBesideAnother)?, (0, 0));
    Ok(())
}
