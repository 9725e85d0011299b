//! Debits of several subscribers in one batch.

use crate::accounts::{subscriber, top_up_each};
use dcc_act::Sub;
use dcc_callers::{debit_one_by_one, debit_together, in_memory, one};
use dcc_running::{Books, Seat, Shards};
use dcc_shard::RequestAnswer;
use dcc_store::Records;
use dcc_test_stores::OnceRecords;
use std::alloc::Global;
use std::marker::Brand;
use std::process::Abort;
use std::random::RandomSource;
use std::sync::Wait;
use std::test::Fail;

/// The numbers of five subscribers, as short as they may be: the check judges each octet. All but the last have 1,000 minor units.
const NUMBERS: &[&[u8]] = &[b"1", b"2", b"3", b"4", b"5"];

/// The session of their debits, and the number of their request in it.
const REQUEST: (&[u8], u32) = (b"gw1.example;1;1", 0);

/// These five.
fn subscribers(alloc: Global) -> Result<Vec<Sub>, Fail> {
    let mut subs = Vec::with_capacity(alloc, NUMBERS.len())?;
    for number in NUMBERS {
        subs.push(subscriber(number)?)?;
    }
    Ok(subs)
}

/// All of these but the last.
fn payers(subs: &[Sub]) -> Result<&[Sub], Fail> {
    Ok(subs.get(..4).ok_or("subscribers")?)
}

/// The octets of an answer; none if there is no answer.
fn octets(answer: &RequestAnswer) -> &[u8] {
    match answer {
        RequestAnswer::Done { octets, .. } => octets.as_slice(),
        RequestAnswer::Unknown { octets } => octets.as_slice(),
        RequestAnswer::Busy { octets } => octets.as_slice(),
        RequestAnswer::Silent => &[],
    }
}

/// How many of these are answers to acts that were made, to unknown subscribers, and busy.
fn counts(answers: &[RequestAnswer]) -> (u32, u32, u32) {
    let mut counts = (0u32, 0u32, 0u32);
    for answer in answers {
        match answer {
            RequestAnswer::Done { fresh: true, .. } => counts.0 = counts.0.saturating_add(1),
            RequestAnswer::Unknown { .. } => counts.1 = counts.1.saturating_add(1),
            RequestAnswer::Busy { .. } => counts.2 = counts.2.saturating_add(1),
            _ => {}
        }
    }
    counts
}

/// Whether these answers have the same octets, one by one.
fn are_same(ones: &[RequestAnswer], others: &[RequestAnswer]) -> bool {
    if ones.len() != others.len() {
        return false;
    }
    for i in 0..ones.len() {
        if octets(&ones[i]) != octets(&others[i]) {
            return false;
        }
    }
    true
}

/// How many acts these subscribers have.
fn acts_of<R: Records>(books: &Books<R, Brand>, subs: &[Sub]) -> usize {
    let mut count = 0usize;
    for sub in subs {
        if let Some(account) = books.account(*sub) {
            count = count.saturating_add(account.acts().len());
        }
    }
    count
}

/// Closes shards with the receipts of one seat: how many acts these subscribers have then. None if receipts and acts disagree.
fn closed<R: Records + Drop>(
    alloc: Global,
    shards: Shards<R, Brand>,
    seat: Seat,
    subs: &[Sub],
) -> Option<usize> {
    let Ok(mut seats) = Vec::with_capacity(alloc, 1) else {
        drop(shards);
        drop(seat);
        return None;
    };
    seats.push_reserved(seat);
    match shards.close(alloc, seats) {
        Ok(books) => {
            let count = acts_of(&books, subs);
            drop(books);
            Some(count)
        }
        Err(unclosed) => {
            drop(unclosed);
            None
        }
    }
}

/// Debits of these subscribers at once, of whom all but the last have money.
fn debit_with_money<W: Wait, R: Records>(
    rt: &W,
    alloc: Global,
    shards: &Shards<R, Brand>,
    seat: &mut Seat,
    subs: &[Sub],
) -> Result<Vec<RequestAnswer>, Fail> {
    top_up_each(rt, alloc, shards, seat, payers(subs)?)?;
    debit_together(rt, alloc, shards, seat, subs, REQUEST)
}

/// The same at shards that are closed behind them: the answers, and how many acts the subscribers have then.
fn debit_at_once<W: Wait + Abort + AllocGlobal, R: Records + Drop>(
    rt: &W,
    shards: Shards<R, Brand>,
    subs: &[Sub],
) -> Result<(Vec<RequestAnswer>, Option<usize>), Fail> {
    let alloc = rt.alloc();
    let mut seat = match shards.seat(alloc, 0) {
        Ok(seat) => seat,
        Err(error) => {
            drop(shards);
            return Err(error.into());
        }
    };
    match debit_with_money(rt, alloc, &shards, &mut seat, subs) {
        Ok(answers) => Ok((answers, closed(alloc, shards, seat, subs))),
        Err(fail) => {
            drop(shards);
            drop(seat);
            Err(fail)
        }
    }
}

/// If the append of a batch fails, all its acts are told as busy, and none is held.
#[test]
fn a_batch_whose_append_fails(rt: HostRuntime) -> Result<(), Fail> {
    let subs = subscribers(rt.alloc())?;
    let shards = one(&rt, OnceRecords::new(in_memory(&rt)?, 5))?;
    let (answers, acts) = debit_at_once(&rt, shards, &subs)?;
    let told = counts(&answers);
    drop(answers);
    assert_eq!(rt; told.0, 0);
    assert!(rt; told.2 >= 4);
    assert_eq!(rt; acts, Some(4));
    Ok(())
}

/// The answers to the same debits one by one, at other shards.
fn debit_alone<W: Wait + RandomSource + AllocGlobal>(
    rt: &W,
    subs: &[Sub],
) -> Result<Vec<RequestAnswer>, Fail> {
    let shards = one(rt, in_memory(rt)?)?;
    let answers = debit_alone_at(rt, &shards, subs);
    drop(shards);
    answers
}

/// The same at these shards.
fn debit_alone_at<W: Wait + AllocGlobal, R: Records>(
    rt: &W,
    shards: &Shards<R, Brand>,
    subs: &[Sub],
) -> Result<Vec<RequestAnswer>, Fail> {
    let mut seat = shards.seat(rt.alloc(), 0)?;
    let answers = debit_each_with_money(rt, rt.alloc(), shards, &mut seat, subs);
    drop(seat);
    answers
}

/// The same at this seat.
fn debit_each_with_money<W: Wait, R: Records>(
    rt: &W,
    alloc: Global,
    shards: &Shards<R, Brand>,
    seat: &mut Seat,
    subs: &[Sub],
) -> Result<Vec<RequestAnswer>, Fail> {
    top_up_each(rt, alloc, shards, seat, payers(subs)?)?;
    debit_one_by_one(rt, alloc, shards, seat, subs, REQUEST)
}

/// Asserts that these are the answers of four debits that are made, and of an unknown subscriber, and have the octets of the same one by one.
fn check_together<W: Wait + Abort + RandomSource + AllocGlobal>(
    rt: &W,
    subs: &[Sub],
    together: &[RequestAnswer],
) -> Result<(), Fail> {
    let alone = debit_alone(rt, subs)?;
    let (are_same, told) = (are_same(together, &alone), counts(&alone));
    drop(alone);
    assert!(rt; are_same);
    assert_eq!(rt; told, (4, 1, 0));
    assert_eq!(rt; counts(together), (4, 1, 0));
    Ok(())
}

/// Five debits in one batch: four are made, and one is of an unknown subscriber. Each answer has the octets of the same request by itself.
#[test]
fn a_batch_and_one_by_one(rt: HostRuntime) -> Result<(), Fail> {
    let subs = subscribers(rt.alloc())?;
    let shards = one(&rt, in_memory(&rt)?)?;
    let (together, acts) = debit_at_once(&rt, shards, &subs)?;
    let checked = check_together(&rt, &subs, &together);
    drop(together);
    checked?;
    assert_eq!(rt; acts, Some(8));
    Ok(())
}
