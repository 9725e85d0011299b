//! Questions: health, counters, accounts and ledgers.

ghost use Rattle.std.specs.Prelude.{◌≡◌, OnOk, IfOk, length, option_map};
ghost use Rattle.std.specs.List.{AllByRecursion};
ghost use Rattle.http_server.specs.Response.{IsBlank};
ghost use Rattle.dcc_running.specs.Calls.{IsToldStopped};
ghost use Rattle.dcc_port.specs.Answers.{IsAccount, IsHealth, IsLedger, IsMetrics};
ghost use Rattle.dcc_port.specs.Found.{account_found, page_found};
ghost use Rattle.dcc_port.specs.Sheets.{IsSheet, Sheet};

use crate::looks::{AccountLook, PageLook};
use crate::port::{Port, Server};
use crate::sheet::{Kind, put};
use crate::texts::{put_health, put_metrics, put_unknown};
use dcc_act::Sub;
use dcc_running::Naming;
use dcc_store::Records;
use http::StatusCode;
use http_server::Response;
use std::alloc::{AllocError, Global};
use std::sync::Wait;

/// Writes whether no shard has stopped. It waits for each shard's lock in turn. The only error is want of memory.
pub(crate) fn health<W: Wait, R: Records, J: Naming>(
    rt: &W,
    alloc: Global,
    port: &Port<'_, R, J>,
    response: &mut Response,
) -> Result<(), AllocError>
    requires { IsBlank response.old }
    ensures { OnOk result ((sheet : Sheet) × IsHealth R.is_stopped port.now.count sheet × IsSheet sheet response.new) }
{
    let told = stopped(rt, alloc, port)?;
    put_health(alloc, response, told.as_slice())
}

/// Writes the server's counters, and whether each shard has stopped. It waits for each shard's lock in turn. The only error is want of memory.
pub(crate) fn metrics<W: Wait, R: Records, J: Naming, S: Server>(
    rt: &W,
    alloc: Global,
    port: &Port<'_, R, J>,
    server: &S,
    response: &mut Response,
) -> Result<(), AllocError>
    requires { IsBlank response.old }
    ensures { OnOk result ((sheet : Sheet) × IsMetrics R.is_stopped S.rules port.now.count server.now sheet × IsSheet sheet response.new) }
{
    let told = stopped(rt, alloc, port)?;
    let page = server.page(alloc)?;
    put_metrics(alloc, response, page, told.as_slice())
}

/// Whether each shard has stopped. The only error is want of memory.
fn stopped<W: Wait, R: Records, J: Naming>(
    rt: &W,
    alloc: Global,
    port: &Port<'_, R, J>,
) -> Result<Vec<bool>, AllocError>
    ensures count { IfOk result (λ told. length told.items ≡ port.now.count) }
    ensures told { IfOk result (λ told. AllByRecursion (IsToldStopped R.is_stopped) told.items) }
{
    let mut told = Vec::new(alloc);
    for shard in 0..port.count {
        told.push(port.shards.is_stopped(rt, shard))?;
    }
    Ok(told)
}

/// Writes the account of a subscriber. It waits for the lock of the subscriber's shard. The only error is want of memory.
pub(crate) fn account<W: Wait, R: Records, J: Naming>(
    rt: &W,
    alloc: Global,
    port: &Port<'_, R, J>,
    sub: Sub,
    response: &mut Response,
) -> Result<(), AllocError>
    requires { IsBlank response.old }
    ensures { OnOk result ((sheet : Sheet) × IsAccount R sub sheet × IsSheet sheet response.new) }
{
    let shard = port.shards.index_of(&sub);
    let look = AccountLook { alloc, sub };
    let text = port.shards.read(rt, shard, look)?;
    put_account(response, text)
}

/// Writes the account of a subscriber, if there is any.
fn put_account(response: &mut Response, text: Option<Vec<u8>>) -> Result<(), AllocError>
    requires { IsBlank response.old }
    ensures { OnOk result (IsSheet (account_found (option_map (λ text. text.items) text)) response.new) }
{
    match text {
        Some(text) => put(response, StatusCode::OK, Kind::Json, text.as_slice()),
        None => put_unknown(response),
    }
}

/// Writes the ledger of a subscriber. It waits for the lock of the subscriber's shard. The only error is want of memory.
pub(crate) fn ledger<W: Wait, R: Records, J: Naming>(
    rt: &W,
    alloc: Global,
    port: &Port<'_, R, J>,
    sub: Sub,
    response: &mut Response,
) -> Result<(), AllocError>
    requires { IsBlank response.old }
    ensures { OnOk result ((sheet : Sheet) × IsLedger R sub sheet × IsSheet sheet response.new) }
{
    let shard = port.shards.index_of(&sub);
    let look = PageLook { alloc, sub };
    let page = port.shards.read(rt, shard, look)?;
    put_page(response, page)
}

/// Writes the ledger of a subscriber, if there is any.
fn put_page(response: &mut Response, page: Option<Vec<u8>>) -> Result<(), AllocError>
    requires { IsBlank response.old }
    ensures { OnOk result (IsSheet (page_found (option_map (λ text. text.items) page)) response.new) }
{
    match page {
        Some(page) => put(response, StatusCode::OK, Kind::Plain, page.as_slice()),
        None => put_unknown(response),
    }
}
