//! The ledger, line by line.

ghost use Rattle.std.specs.Prelude.{◌≡◌, ◌++◌, IfOk, OnOk};
ghost use Rattle.dcc_ledger.specs.Ledger.{head_line, account_line, ledger_text};

use crate::line::put_entry;
use dcc_act::{Entry, Sub};
use std::alloc::{AllocError, Global};

/// The ledger of a subscriber's account: a line with the subscriber, a line for each entry in the order of `entries`, and a line with
/// the standing of the account. Every line ends in a line feed, the last line too.
///
/// The caller passes all entries of the account, from the first on, so the funds after the last entry are the account's. The reserved
/// money (the funds less the free money) and the overrun are in minor units, as an account returns them. Every number can be shown. A sum
/// of amounts fits `i128` for any number of entries.
///
/// The only error is want of memory.
pub fn ledger_text(
    alloc: Global,
    sub: &Sub,
    entries: &[Entry],
    reserved: i128,
    overrun: i128,
) -> Result<Vec<u8>, AllocError>
    ensures { IfOk result (λ text. text.items ≡ ledger_text sub.now entries.now reserved overrun) }
{
    let mut text = Vec::new(alloc);
    put_head(&mut text, alloc, sub)?;
    let mut funds: i128 = 0;
    for entry in entries {
        funds += i128::from(entry.amount);
        put_entry(&mut text, alloc, entry, funds)?;
    }
    put_account(&mut text, alloc, funds, reserved, overrun)?;
    Ok(text)
}

/// The standing of an account, as the last line of its ledger: its funds, the reserved money and the overrun, in minor units. The line
/// ends in a line feed. The only error is want of memory.
pub fn account_line(
    alloc: Global,
    funds: i128,
    reserved: i128,
    overrun: i128,
) -> Result<Vec<u8>, AllocError>
    ensures { IfOk result (λ line. line.items ≡ account_line funds reserved overrun) }
{
    let mut line = Vec::new(alloc);
    put_account(&mut line, alloc, funds, reserved, overrun)?;
    Ok(line)
}

/// Appends the line with the subscriber.
fn put_head(text: &mut Vec<u8>, alloc: Global, sub: &Sub) -> Result<(), AllocError>
    ensures { OnOk result (text.new.items ≡ text.old.items ++ head_line sub.now) }
{
    let kind = sub.kind();
    let whose = format!(in alloc; "account {kind}:")?;
    text.extend_from_slice(whose.as_bytes())?;
    text.extend_from_slice(sub.name())?;
    text.extend_from_slice(b"\n")
}

/// Appends the line with the standing of the account.
fn put_account(
    text: &mut Vec<u8>,
    alloc: Global,
    funds: i128,
    reserved: i128,
    overrun: i128,
) -> Result<(), AllocError>
    ensures { OnOk result (text.new.items ≡ text.old.items ++ account_line funds reserved overrun) }
{
    let line = format!(in alloc; "funds {funds} reserved {reserved} overrun {overrun}\n")?;
    text.extend_from_slice(line.as_bytes())
}
