//! The record of an act, version 1, which the program reads and never writes.

use crate::acts::{Ask, act};
use dcc_act_codec::write_act_1;
use std::alloc::Global;
use std::test::Fail;

/// The record of a top-up of 1,000 minor units (docs/FORMATS.md).
const TOP_UP: [u8; 26] = [
    1, 1, 0, 0, 0, 0, 0x68, 0x3b, 0x98, 0, 0, 0, 0, 0, 0, 0, 0, 1, 0, 0, 0, 0, 0, 0, 3, 0xe8,
];

/// The record of an act in short.
fn record(alloc: Global, ask: Ask) -> Result<Vec<u8>, Fail> {
    let act = act(alloc, 0, ask)?;
    let written = write_act_1(alloc, &act);
    drop(act);
    Ok(written?)
}

#[test]
fn an_old_record(rt: HostRuntime) -> Result<(), Fail> {
    let record = record(rt.alloc(), Ask::TopUp(1000))?;
    assert_eq!(&rt; record.as_slice(), TOP_UP.as_slice());
    Ok(())
}
