//! One shard answers while another's append is held at its gate.

use dcc_callers::{Caller, TERMS, two};
use dcc_running::Shards;
use dcc_shard::{ExpiryAnswer, TopUpAnswer};
use dcc_store::{MemoryRecords, Records};
use dcc_test_stores::{Gate, GateRecords};
use std::alloc::Global;
use std::hash::RandomState;
use std::hint::spin_loop;
use std::marker::Brand;
use std::process::Abort;
use std::random::RandomSource;
use std::sync::Wait;
use std::test::Fail;
use std::thread::{Threads, join};

/// Makes each call of the other shard once an append has come to the gate, and opens the gate behind them. It returns whether each was answered.
fn call_beside<W: Wait, R: Records>(
    rt: &W,
    alloc: Global,
    shards: &Shards<R, Brand>,
    caller: &mut Caller,
    gate: &Gate,
) -> bool {
    for _ in rt.forever() {
        if gate.is_reached() {
            break;
        }
        spin_loop();
    }
    let topped = caller.top_up(rt, alloc, shards, 1, 1000);
    let opened = caller.open(rt, alloc, shards);
    let ended = caller.expire(rt, alloc, shards, 1200);
    gate.open();
    matches!(topped, Some(TopUpAnswer::Done { .. }))
        && matches!(opened, Some(true))
        && matches!(ended, Some(ExpiryAnswer::Closed { .. }))
}

/// Calls of both shards at once, of which the first one's append is held at its gate.
fn call_at_once<W: Wait + Threads + Abort + Sync + AllocGlobal>(
    rt: &W,
    shards: &Shards<GateRecords, Brand>,
    shut: &Gate,
    held: &mut Caller,
    beside: &mut Caller,
) {
    let alloc = rt.alloc();
    let (topped, is_answered) = join(
        rt,
        || held.top_up(rt, alloc, shards, 1, 1000),
        || call_beside(rt, alloc, shards, beside, shut),
    );
    assert!(rt; is_answered);
    assert!(rt;
        matches!(
            topped,
            Some(TopUpAnswer::Done {
                place: 1,
                fresh: true
            })
        )
    );
}

/// The same of two callers.
fn call_both<W: Wait + Threads + Abort + Sync + AllocGlobal>(
    rt: &W,
    shards: &Shards<GateRecords, Brand>,
    shut: &Gate,
) -> Result<(), Fail> {
    let alloc = rt.alloc();
    let mut held = Caller::new(alloc, shards, b"491700000001", b"gw1.example;1;1", 0)?;
    match Caller::new(alloc, shards, b"491700000002", b"gw2.example;1;1", 1) {
        Ok(mut beside) => {
            call_at_once(rt, shards, shut, &mut held, &mut beside);
            drop(beside);
            drop(held);
            Ok(())
        }
        Err(fail) => {
            drop(held);
            Err(fail)
        }
    }
}

/// Two shards, each behind its gate.
fn gated<'a, S: RandomSource + AllocGlobal>(
    rt: &S,
    shut: &'a Gate,
    open: &'a Gate,
) -> Result<Shards<GateRecords<'a>, Brand>, Fail> {
    let hasher = RandomState::new(rt)?;
    let first = MemoryRecords::new(rt.alloc(), &TERMS, hasher);
    let second = MemoryRecords::new(rt.alloc(), &TERMS, hasher);
    two(
        rt,
        GateRecords::new(first, shut),
        GateRecords::new(second, open),
    )
}

/// With one lock round both shards the append waits until it fails, and its call returns so.
#[test]
fn a_shard_answers_beside_an_append(rt: HostRuntime) -> Result<(), Fail> {
    let (shut, open) = (Gate::new(), Gate::new());
    open.open();
    let shards = gated(&rt, &shut, &open)?;
    let called = call_both(&rt, &shards, &shut);
    drop(shards);
    called
}
