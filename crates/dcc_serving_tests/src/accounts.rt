//! Subscribers, and what they have at first.

use dcc_act::Sub;
use dcc_callers::after;
use dcc_running::{Seat, Shards};
use dcc_shard::TopUpAnswer;
use dcc_store::Records;
use std::alloc::Global;
use std::marker::Brand;
use std::sync::Wait;
use std::test::Fail;

/// The subscriber of this number: of two shards the first keeps 0:491700000001, the second 0:491700000002.
pub(crate) fn subscriber(name: &[u8]) -> Result<Sub, Fail> {
    Ok(Sub::new(0, name).ok_or("a subscriber")?)
}

/// Puts 1,000 minor units into each of these subscribers' accounts, at this seat.
pub(crate) fn top_up_each<W: Wait, R: Records>(
    rt: &W,
    alloc: Global,
    shards: &Shards<R, Brand>,
    seat: &mut Seat,
    subs: &[Sub],
) -> Result<(), Fail> {
    let moment = after(0).ok_or("a moment")?;
    for sub in subs {
        match shards.top_up(rt, alloc, seat, *sub, moment, 1, 1000) {
            TopUpAnswer::Done { fresh: true, .. } => {}
            _ => return Err("a top-up".into()),
        }
    }
    Ok(())
}
