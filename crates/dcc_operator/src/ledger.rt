//! The page of a subscriber.

ghost use Rattle.std.specs.Prelude.{◌≡◌, ◌≢◌, ◌⊎◌, [], IfOk, IfErr, OnOk};
ghost use Rattle.std.specs.Io.KnownBytes.{Keeps, Appends};
ghost use Rattle.dcc_shard.specs.Shards.{held};
ghost use Rattle.dcc_operator.specs.Ledgers.{balance_text, page_of, unknown_line};
ghost use Rattle.dcc_operator.specs.Texts.{IsBegun};
ghost use Rattle.dcc_operator.specs.declared.fault.OperatorFault.TheVariants.{Memory, Output};

use crate::fault::OperatorFault;
use crate::page::Page;
use dcc_account::Account;
use dcc_act::Sub;
use dcc_ledger::ledger_text;
use dcc_shard::Shard;
use dcc_store::Records;
use dcc_streams::write_all;
use std::alloc::{AllocError, Global};
use std::io::Write;

/// Writes a page of a subscriber; or, where nothing was ever done for it, that its account is unknown.
///
/// Errors: [`OperatorFault::Memory`], and nothing is written; [`OperatorFault::Output`], the writer failed, and a beginning is.
pub fn page_run<R: Records, W: Write>(
    alloc: Global,
    shard: &Shard<R>,
    page: Page,
    sub: Sub,
    output: &mut W,
) -> Result<(), OperatorFault>
    ensures whole { OnOk result (Appends (W.contents output.old) (W.contents output.new) (page_of page shard.now.shard.terms sub (held shard.now.shard sub))) }
    ensures faults { IfErr result (λ fault. (fault ≡ Memory) ⊎ (fault ≡ Output)) }
    ensures silent { IfErr result (λ fault. fault ≢ Output → Keeps (W.contents output.old) (W.contents output.new)) }
    ensures part { IfErr result (λ fault. fault ≡ Output
        → IsBegun (page_of page shard.now.shard.terms sub (held shard.now.shard sub)) (W.contents output.old) (W.contents output.new)) }
{
    let text = page_text(alloc, shard, page, sub)?;
    write_all(output, text.as_slice())?;
    Ok(())
}

/// Writes that the account of a subscriber is unknown: its page where there are no records at all.
///
/// Errors: as of [`page_run`].
pub fn unknown_run<W: Write>(alloc: Global, sub: Sub, output: &mut W) -> Result<(), OperatorFault>
    ensures whole { OnOk result (Appends (W.contents output.old) (W.contents output.new) (unknown_line sub)) }
    ensures faults { IfErr result (λ fault. (fault ≡ Memory) ⊎ (fault ≡ Output)) }
    ensures silent { IfErr result (λ fault. fault ≢ Output → Keeps (W.contents output.old) (W.contents output.new)) }
    ensures part { IfErr result (λ fault. fault ≡ Output → IsBegun (unknown_line sub) (W.contents output.old) (W.contents output.new)) }
{
    let line = unknown(alloc, &sub)?;
    write_all(output, line.as_slice())?;
    Ok(())
}

/// What is written of a subscriber.
fn page_text<R: Records>(
    alloc: Global,
    shard: &Shard<R>,
    page: Page,
    sub: Sub,
) -> Result<Vec<u8>, AllocError>
    ensures { IfOk result (λ text. text.items ≡ page_of page shard.now.shard.terms sub (held shard.now.shard sub)) }
{
    match shard.account(sub) {
        Some(account) => known_text(alloc, account, page, sub),
        None => unknown(alloc, &sub),
    }
}

/// What is written of an account.
fn known_text(alloc: Global, account: &Account, page: Page, sub: Sub) -> Result<Vec<u8>, AllocError>
    requires { account.now.acts ≢ [] }
    ensures { IfOk result (λ text. text.items ≡ page_of page account.now.terms sub account.now.acts) }
{
    let reserved = i128::from(account.reserved());
    match page {
        Page::Ledger => ledger_text(alloc, &sub, account.entries(), reserved, account.overrun()),
        Page::Balance => balance_text(
            alloc,
            account.funds(),
            reserved,
            account.free(),
            account.overrun(),
        ),
    }
}

/// How an account stands, in minor units: a line each for the funds, the reserved money, the free money and the overrun. The only error is
/// want of memory.
pub fn balance_text(
    alloc: Global,
    funds: i128,
    reserved: i128,
    free: i128,
    overrun: i128,
) -> Result<Vec<u8>, AllocError>
    ensures { IfOk result (λ text. text.items ≡ balance_text funds reserved free overrun) }
{
    let lines = format!(in alloc;
        "funds {funds}\nreserved {reserved}\nfree {free}\noverrun {overrun}\n"
    )?;
    Vec::from_slice(alloc, lines.as_bytes())
}

/// That a subscriber has no account.
fn unknown(alloc: Global, sub: &Sub) -> Result<Vec<u8>, AllocError>
    ensures { IfOk result (λ line. line.items ≡ unknown_line sub.now) }
{
    let kind = sub.kind();
    let head = format!(in alloc; "account {kind}:")?;
    let mut line = Vec::from_slice(alloc, head.as_bytes())?;
    line.extend_from_slice(sub.name())?;
    line.extend_from_slice(b" unknown\n")?;
    Ok(line)
}
