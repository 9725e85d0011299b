//! Findings.

ghost use Rattle.std.specs.Prelude.{◌≡◌, IfOk, option_and_then};
ghost use Rattle.serde_json.specs.View.{view};
ghost use Rattle.dcc_client.specs.Findings.{account_in, data_of, finding_of, first_line, ledger_in, money_in, told_in, unknown_in};
ghost use Rattle.dcc_client.specs.Words.{word_of};
ghost use Rattle.dcc_client.specs.declared.call.Call.TheVariants as Call;

use crate::body::{data_of, has_text, number_in};
use crate::call::Call;
use crate::money::Money;
use crate::request::name_of;
use dcc_act::Sub;
use serde_json::Value;
use std::alloc::{AllocError, Global};

/// The words in which a server tells what became of a top-up.
#[derive(Clone, Copy, Debug, PartialEq, Eq)]
pub enum Told {
    /// The top-up was added, now or when its ticket came first.
    Done,
    /// The top-up wasn't added, since it would have lifted the funds above their ceiling.
    Ceiling,
    /// Nothing was added: memory was short, or the records failed.
    Refused,
    /// The amount is outside its limits.
    Bad,
}

/// The finding of a call.
#[derive(Clone, Copy, Debug, PartialEq, Eq)]
pub enum Finding {
    /// What became of a top-up.
    Told(Told),
    /// The money of an account.
    Account(Money),
    /// A ledger, which is the body of the response.
    Ledger,
    /// The subscriber has no acts.
    Unknown,
}

/// The answer to a call.
#[derive(Debug, Drop)]
pub struct Answer {
    pub finding: Finding,
    /// The body of the response.
    pub body: Vec<u8>,
}

/// The finding of a response with this status and this body. None if they are none of the call's answers. The only error is want of memory.
pub(crate) fn finding_of(
    alloc: Global,
    call: &Call,
    status: u16,
    body: &[u8],
) -> Result<Option<Finding>, AllocError>
    ensures { IfOk result (λ finding. finding ≡ finding_of call.now status body.now) }
{
    match call {
        Call::Account(sub) => account_of(alloc, sub, status, body),
        Call::Ledger(sub) => ledger_of(alloc, sub, status, body),
        Call::TopUp { .. } => told_of(alloc, status, body),
    }
}

/// The finding of an account. The only error is want of memory.
fn account_of(
    alloc: Global,
    sub: &Sub,
    status: u16,
    body: &[u8],
) -> Result<Option<Finding>, AllocError>
    ensures { IfOk result (λ finding. finding ≡ finding_of (Call.Account sub.now) status body.now) }
{
    let name = name_of(alloc, sub)?;
    let Some(value) = data_of(alloc, body)? else {
        return Ok(None);
    };
    let finding = account_in(name.as_slice(), status, &value);
    // By a call: a value that is let go in place is proved part by part.
    drop(value);
    Ok(finding)
}

/// The finding of a ledger. The only error is want of memory.
fn ledger_of(
    alloc: Global,
    sub: &Sub,
    status: u16,
    body: &[u8],
) -> Result<Option<Finding>, AllocError>
    ensures { IfOk result (λ finding. finding ≡ finding_of (Call.Ledger sub.now) status body.now) }
{
    if status == 200 {
        return page_of(alloc, sub, body);
    }
    let Some(value) = data_of(alloc, body)? else {
        return Ok(None);
    };
    let finding = unknown_in(status, &value);
    drop(value);
    Ok(finding)
}

/// The finding of a ledger's page. The only error is want of memory.
fn page_of(alloc: Global, sub: &Sub, body: &[u8]) -> Result<Option<Finding>, AllocError>
    ensures { IfOk result (λ finding. finding ≡ ledger_in sub.now body.now) }
{
    let line = first_line(alloc, sub)?;
    if body.starts_with(line.as_slice()) {
        Ok(Some(Finding::Ledger))
    } else {
        Ok(None)
    }
}

/// The first line of a subscriber's ledger. The only error is want of memory.
fn first_line(alloc: Global, sub: &Sub) -> Result<Vec<u8>, AllocError>
    ensures { IfOk result (λ line. line.items ≡ first_line sub.now) }
{
    let name = name_of(alloc, sub)?;
    let mut line = Vec::from_slice(alloc, b"account ")?;
    line.extend_from_slice(name.as_slice())?;
    line.extend_from_slice(b"\n")?;
    Ok(line)
}

/// The finding of a top-up. The only error is want of memory.
fn told_of(alloc: Global, status: u16, body: &[u8]) -> Result<Option<Finding>, AllocError>
    ensures { IfOk result (λ finding. finding ≡ option_and_then (told_in status) (data_of body.now)) }
{
    let Some(value) = data_of(alloc, body)? else {
        return Ok(None);
    };
    let finding = told_in(status, &value);
    drop(value);
    Ok(finding)
}

/// What a body tells of a top-up.
#[tactic(auto, unfolding(crate::specs::Findings::told_in))]
fn told_in(status: u16, value: &Value) -> Option<Finding>
    ensures { result ≡ told_in status (view value.now) }
{
    if status == 200 && has_text(value, "told", b"done") {
        Some(Finding::Told(Told::Done))
    } else if status == 200 && has_text(value, "told", b"ceiling") {
        Some(Finding::Told(Told::Ceiling))
    } else if status == 400 && has_text(value, "told", b"bad") {
        Some(Finding::Told(Told::Bad))
    } else if status == 503 && has_text(value, "told", b"refused") {
        Some(Finding::Told(Told::Refused))
    } else {
        None
    }
}

/// The account of the subscriber with this name.
fn account_in(name: &[u8], status: u16, value: &Value) -> Option<Finding>
    ensures { result ≡ account_in name.now status (view value.now) }
{
    if status != 200 {
        return unknown_in(status, value);
    }
    if !has_text(value, "subscriber", name) {
        return None;
    }
    Some(Finding::Account(money_in(value)?))
}

/// The money of an account.
fn money_in(value: &Value) -> Option<Money>
    ensures { result ≡ money_in (view value.now) }
{
    Some(Money {
        funds: number_in(value, "funds")?,
        reserved: number_in(value, "reserved")?,
        free: number_in(value, "free")?,
        overrun: number_in(value, "overrun")?,
    })
}

/// Whether a body says that its subscriber is unknown.
fn unknown_in(status: u16, value: &Value) -> Option<Finding>
    ensures { result ≡ unknown_in status (view value.now) }
{
    if status == 404 && has_text(value, "error", b"unknown subscriber") {
        Some(Finding::Unknown)
    } else {
        None
    }
}

impl Told {
    /// The word that is printed.
    pub fn word(&self) -> &'static str
        ensures { result.now ≡ word_of self.now }
    {
        match self {
            Told::Done => "done",
            Told::Ceiling => "ceiling",
            Told::Refused => "refused",
            Told::Bad => "bad",
        }
    }
}
