//! Ledgers octet for octet.

use crate::acts::{moment, session};
use dcc_act::{Entry, EntryKind, EntryName, Sub};
use dcc_ledger::{account_line, ledger_text};
use std::alloc::Global;
use std::process::Abort;
use std::test::Fail;

/// 2025-06-01T00:00:00Z.
const JUNE: u64 = 1_748_736_000;

/// The last second of 2099.
const LAST: u64 = 4_102_444_799;

/// Who an entry is of.
#[derive(Clone, Copy)]
enum Name {
    Ticket(u64),
    Session(&'static [u8]),
}

/// An entry in short: its place, seconds, kind, group, units, amount and name.
type Line = (u64, u64, EntryKind, Option<u32>, u64, i64, Name);

fn named(alloc: Global, name: Name) -> Result<EntryName, Fail> {
    match name {
        Name::Ticket(ticket) => Ok(EntryName::Ticket(ticket)),
        Name::Session(octets) => Ok(EntryName::Session(session(alloc, octets)?)),
    }
}

fn entry(alloc: Global, line: &Line) -> Result<Entry, Fail> {
    let (place, seconds, kind, group, units, amount, name) = *line;
    Ok(Entry {
        place,
        moment: moment(seconds)?,
        kind,
        group,
        units,
        amount,
        name: named(alloc, name)?,
    })
}

fn entries(alloc: Global, lines: &[Line]) -> Result<Vec<Entry>, Fail> {
    let mut entries = Vec::new(alloc);
    for line in lines {
        entries.push(entry(alloc, line)?)?;
    }
    Ok(entries)
}

fn subscriber(kind: u8, name: &[u8]) -> Result<Sub, Fail> {
    Ok(Sub::new(kind, name).ok_or("a subscriber")?)
}

/// The ledger of a telephone number with these entries.
fn ledger(alloc: Global, lines: &[Line], reserved: i128, overrun: i128) -> Result<Vec<u8>, Fail> {
    let sub = subscriber(0, b"491700000001")?;
    let entries = entries(alloc, lines)?;
    Ok(ledger_text(alloc, &sub, &entries, reserved, overrun)?)
}

/// Asserts how the ledger is shown.
fn check(
    rt: &(impl Abort + AllocGlobal),
    lines: &[Line],
    reserved: i128,
    overrun: i128,
    shown: &str,
) -> Result<(), Fail> {
    let text = ledger(rt.alloc(), lines, reserved, overrun)?;
    assert_eq!(rt; text.as_slice(), shown.as_bytes());
    Ok(())
}

/// The funds held 500, 505 were charged, and so 5 are owed.
const OVERRUN: &str = "\
account 0:491700000001
       1 2025-06-01T00:00:00Z TOPUP           -             0                 +500                  500 ticket 1
       3 2025-06-01T00:01:00Z CHARGE         10        100500                 -505                   -5 gw1.example;1;1
funds -5 reserved 0 overrun 5
";

const CHARGED: [Line; 2] = [
    (1, JUNE, EntryKind::TopUp, None, 0, 500, Name::Ticket(1)),
    (
        3,
        JUNE + 60,
        EntryKind::Charge,
        Some(10),
        100_500,
        -505,
        Name::Session(b"gw1.example;1;1"),
    ),
];

#[test]
fn ledger_after_an_overrun(rt: HostRuntime) -> Result<(), Fail> {
    check(&rt, &CHARGED, 0, 5, OVERRUN)
}

/// Columns that are just filled, and columns that aren't wide enough.
const WIDEST: &str = "\
account 0:491700000001
99999999 2099-12-31T23:59:59Z TOPUP           -             0 +1000000000000000000  1000000000000000000 ticket 18446744073709551615
100000000 2099-12-31T23:59:59Z DEBIT  4294967295 1000000000000 -1000000000000000000                    0 x
100000001 2099-12-31T23:59:59Z CHARGE 4294967295 1000000000000 -1000000000000000000 -1000000000000000000 x
18446744073709551615 1970-01-01T00:00:00Z REFUND          0 18446744073709551615 -9223372036854775808 -10223372036854775808 x
funds -10223372036854775808 reserved 1000000000000000000 overrun 18446744073709551616
";

/// As much money as there may be.
const MOST: i64 = 1_000_000_000_000_000_000;

const WIDE: [Line; 4] = [
    (
        99_999_999,
        LAST,
        EntryKind::TopUp,
        None,
        0,
        MOST,
        Name::Ticket(u64::MAX),
    ),
    (
        100_000_000,
        LAST,
        EntryKind::Debit,
        Some(u32::MAX),
        1_000_000_000_000,
        -MOST,
        Name::Session(b"x"),
    ),
    (
        100_000_001,
        LAST,
        EntryKind::Charge,
        Some(u32::MAX),
        1_000_000_000_000,
        -MOST,
        Name::Session(b"x"),
    ),
    (
        u64::MAX,
        0,
        EntryKind::Refund,
        Some(0),
        u64::MAX,
        i64::MIN,
        Name::Session(b"x"),
    ),
];

#[test]
fn columns_at_their_greatest_widths(rt: HostRuntime) -> Result<(), Fail> {
    check(&rt, &WIDE, 1_000_000_000_000_000_000, 1 << 64, WIDEST)
}

/// Asserts how the last line shows these funds, this reserved money and this overrun.
fn check_last(
    rt: &(impl Abort + AllocGlobal),
    (funds, reserved, overrun): (i128, i128, i128),
    shown: &str,
) -> Result<(), Fail> {
    let line = account_line(rt.alloc(), funds, reserved, overrun)?;
    assert_eq!(rt; line.as_slice(), shown.as_bytes());
    Ok(())
}

#[test]
fn the_last_line(rt: HostRuntime) -> Result<(), Fail> {
    check_last(&rt, (-5, 7, 2), "funds -5 reserved 7 overrun 2\n")
}
