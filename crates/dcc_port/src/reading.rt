//! The call of a request.

ghost use Rattle.std.specs.Prelude.{◌≡◌, ◌==◌, length, map, if◌then◌else◌, IfOk};
ghost use Rattle.std.specs.List.{list_all};
ghost use Rattle.serde_json.specs.View.{view};
ghost use Rattle.dcc_port.specs.Requests.{call_for};
ghost use Rattle.dcc_port.specs.Lines.{asks_of};
ghost use Rattle.dcc_port.specs.Calls.{ask_in, ask_of, backup_of, by, call_of, folder_in, folder_of, if_folder, is_absolute, is_ascii, is_folder, is_of_subs, is_printed, member_in, member_name, name_of, named, of_sub, page_call, parts_call, sent_call, sub_call, top_up_of, top_ups_of};

use crate::call::{BodySlip, Call, Flaw, Member, Verb};
use crate::foreign::{foreign_flaw, is_foreign};
use crate::lines::{read_asks, slip_in};
use bytes::Bytes;
use dcc_act::Sub;
use dcc_octets::OctetString;
use dcc_words::{parts, sub};
use http::Request;
use percent_encoding::percent_decode;
use serde_json::Value;
use std::alloc::{AllocError, Global};

/// The most octets of the path of a folder.
const MOST_PATH: usize = 1_024;

/// The call of a request. The only error is want of memory.
pub(crate) fn call_for(alloc: Global, request: &Request<Bytes>) -> Result<Call, AllocError>
    ensures { IfOk result (λ call. call ≡ call_for request.now) }
{
    if is_foreign(request.headers()) {
        return Ok(Call::Flawed(foreign_flaw(request.headers())));
    }
    let method = request.method().as_str().as_bytes();
    let path = request.uri().path().as_bytes();
    call_of(alloc, method, path, request.body().as_slice())
}

/// The call of a request with this method, path and body. The only error is want of memory.
#[tactic(auto, unfolding(crate::specs::Calls::call_of))]
fn call_of(alloc: Global, method: &[u8], path: &[u8], body: &[u8]) -> Result<Call, AllocError>
    ensures { IfOk result (λ call. call ≡ call_of method.now path.now body.now) }
{
    let words = parts(alloc, path, b'/')?;
    parts_call(alloc, method, words.as_slice(), body)
}

/// The call of a path in parts.
#[tactic(auto, unfolding(crate::specs::Calls::parts_call))]
fn parts_call(
    alloc: Global,
    method: &[u8],
    words: &[&[u8]],
    body: &[u8],
) -> Result<Call, AllocError>
    ensures { IfOk result (λ call. call ≡ parts_call method.now (map (λ word. word.now) words.now) body.now) }
{
    match words {
        [root, page] => root_call(alloc, method, root, page, body),
        [root, subs, who] => account_call(alloc, method, is_of_subs(root, subs), who),
        [root, subs, who, page] => {
            if is_of_subs(root, subs) {
                sub_call(alloc, method, who, page, body)
            } else {
                Ok(Call::Flawed(Flaw::Path))
            }
        }
        _ => Ok(Call::Flawed(Flaw::Path)),
    }
}

/// The call of a path of two parts.
fn root_call(
    alloc: Global,
    method: &[u8],
    root: &[u8],
    page: &[u8],
    body: &[u8],
) -> Result<Call, AllocError>
    ensures { IfOk result (λ call. call
        ≡ (if length root.now == 0 then page_call method.now page.now body.now else Call.Flawed Flaw.Path)) }
{
    if root.is_empty() {
        page_call(alloc, method, page, body)
    } else {
        Ok(Call::Flawed(Flaw::Path))
    }
}

/// Whether a path begins in this way.
fn is_of_subs(root: &[u8], subs: &[u8]) -> bool
    ensures { result ≡ is_of_subs root.now subs.now }
{
    root.is_empty() && subs == b"subscribers".as_slice()
}

/// The call of a subscriber's account.
fn account_call(
    alloc: Global,
    method: &[u8],
    is_of_subs: bool,
    who: &[u8],
) -> Result<Call, AllocError>
    ensures { IfOk result (λ call. call
        ≡ (if is_of_subs then by Verb.Get method.now (of_sub Call.Account (named who.now)) else Call.Flawed Flaw.Path)) }
{
    if !is_of_subs {
        return Ok(Call::Flawed(Flaw::Path));
    }
    let call = match named(alloc, who)? {
        Some(sub) => Call::Account(sub),
        None => Call::Flawed(Flaw::Subscriber),
    };
    Ok(by(Verb::Get, method, call))
}

/// The call of a subscriber's page.
#[tactic(auto, unfolding(crate::specs::Calls::sub_call))]
fn sub_call(
    alloc: Global,
    method: &[u8],
    who: &[u8],
    page: &[u8],
    body: &[u8],
) -> Result<Call, AllocError>
    ensures { IfOk result (λ call. call ≡ sub_call method.now who.now page.now body.now) }
{
    if page == b"ledger".as_slice() {
        let call = match named(alloc, who)? {
            Some(sub) => Call::Ledger(sub),
            None => Call::Flawed(Flaw::Subscriber),
        };
        Ok(by(Verb::Get, method, call))
    } else if page == b"topups".as_slice() {
        let call = match named(alloc, who)? {
            Some(sub) => top_up_call(alloc, sub, body)?,
            None => Call::Flawed(Flaw::Subscriber),
        };
        Ok(by(Verb::Post, method, call))
    } else {
        Ok(Call::Flawed(Flaw::Path))
    }
}

/// The call of a top-up by its body.
fn top_up_call(alloc: Global, sub: Sub, body: &[u8]) -> Result<Call, AllocError>
    ensures { IfOk result (λ call. call ≡ top_up_of (ask_of body.now) sub) }
{
    match ask_of(alloc, body)? {
        Ok((ticket, amount)) => Ok(Call::TopUp {
            sub,
            ticket,
            amount,
        }),
        Err(slip) => Ok(Call::Flawed(Flaw::Body(slip))),
    }
}

/// The call of a page. The only error is want of memory.
#[tactic(auto, unfolding(crate::specs::Calls::page_call))]
fn page_call(alloc: Global, method: &[u8], page: &[u8], body: &[u8]) -> Result<Call, AllocError>
    ensures { IfOk result (λ call. call ≡ page_call method.now page.now body.now) }
{
    if page == b"health".as_slice() {
        Ok(by(Verb::Get, method, Call::Health))
    } else if page == b"metrics".as_slice() {
        Ok(by(Verb::Get, method, Call::Metrics))
    } else if page == b"sweep".as_slice() {
        Ok(by(Verb::Post, method, Call::Sweep))
    } else if page == b"stop".as_slice() {
        Ok(by(Verb::Post, method, Call::Stop))
    } else {
        sent_call(alloc, method, page, body)
    }
}

/// The call of a page to which a body is sent. The only error is want of memory.
#[tactic(auto, unfolding(crate::specs::Calls::sent_call))]
fn sent_call(alloc: Global, method: &[u8], page: &[u8], body: &[u8]) -> Result<Call, AllocError>
    ensures { IfOk result (λ call. call ≡ sent_call method.now page.now body.now) }
{
    if page == b"topups".as_slice() {
        Ok(by(Verb::Post, method, top_ups_call(alloc, body)?))
    } else if page == b"backup".as_slice() {
        Ok(by(Verb::Post, method, backup_call(alloc, body)?))
    } else {
        Ok(Call::Flawed(Flaw::Path))
    }
}

/// The call of many top-ups by its body. The only error is want of memory.
fn top_ups_call(alloc: Global, body: &[u8]) -> Result<Call, AllocError>
    ensures { IfOk result (λ call. call ≡ top_ups_of body.now (asks_of body.now)) }
{
    match read_asks(alloc, body)? {
        Ok(asks) => Ok(Call::TopUps(asks)),
        Err(line) => {
            let slip = slip_in(alloc, body, line)?;
            Ok(Call::Flawed(Flaw::Line(line, slip)))
        }
    }
}

/// The call of a backup by its body. The only error is want of memory.
fn backup_call(alloc: Global, body: &[u8]) -> Result<Call, AllocError>
    ensures { IfOk result (λ call. call ≡ backup_of (folder_of body.now)) }
{
    match folder_of(alloc, body)? {
        Some(folder) => Ok(Call::Backup(folder)),
        None => Ok(Call::Flawed(Flaw::Folder)),
    }
}

/// A call by its path's only method.
fn by(verb: Verb, method: &[u8], call: Call) -> Call
    ensures { result ≡ by verb method.now call }
{
    if method == name_of(verb) {
        call
    } else {
        // By a call: a call that is let go in place is proved part by part.
        drop(call);
        Call::Flawed(Flaw::Method(verb))
    }
}

/// The name of a method.
pub(crate) fn name_of(verb: Verb) -> &'static [u8]
    ensures { result.now ≡ name_of verb }
{
    match verb {
        Verb::Get => b"GET",
        Verb::Post => b"POST",
    }
}

/// The subscriber that a part of a path names. The only error is want of memory.
fn named(alloc: Global, part: &[u8]) -> Result<Option<Sub>, AllocError>
    ensures { IfOk result (λ found. found ≡ named part.now) }
{
    let mut word = Vec::new(alloc);
    percent_decode(part).append_to(&mut word)?;
    Ok(sub(word.as_slice()))
}

/// The ticket and the amount of a body, or its first slip. The only error is want of memory.
#[tactic(auto, unfolding(crate::specs::Calls::ask_of))]
fn ask_of(alloc: Global, body: &[u8]) -> Result<Result<(u64, u64), BodySlip>, AllocError>
    ensures { IfOk result (λ ask. ask ≡ ask_of body.now) }
{
    if !is_ascii(body) {
        return Ok(Err(BodySlip::NoJson));
    }
    match Value::from_slice(alloc, body) {
        Ok(value) => {
            let ask = ask_in(&value);
            // By a call: a value that is let go in place is proved part by part.
            drop(value);
            Ok(ask)
        }
        Err(error) => {
            if error.is_memory() {
                Err(AllocError)
            } else {
                Ok(Err(BodySlip::NoJson))
            }
        }
    }
}

fn is_ascii(body: &[u8]) -> bool
    ensures { result ≡ is_ascii body.now }
{
    body.iter().all(|octet| *octet < 128)
}

/// The ticket and the amount of an object in JSON, or its first slip.
fn ask_in(value: &Value) -> Result<(u64, u64), BodySlip>
    ensures { result ≡ ask_in (view value.now) }
{
    let ticket = member_in(value, Member::Ticket)?;
    let amount = member_in(value, Member::Amount)?;
    Ok((ticket, amount))
}

/// The number of a member, or its slip.
fn member_in(value: &Value, member: Member) -> Result<u64, BodySlip>
    ensures { result ≡ member_in member (view value.now) }
{
    match value.get(member_name(member)) {
        Some(found) => match found.as_u64() {
            Some(number) => Ok(number),
            None => Err(BodySlip::NoNumber(member)),
        },
        None => Err(BodySlip::Missing(member)),
    }
}

fn member_name(member: Member) -> &'static str
    ensures { result.now ≡ member_name member }
{
    match member {
        Member::Ticket => "ticket",
        Member::Amount => "amount",
    }
}

/// The folder of a body. The only error is want of memory.
#[tactic(auto, unfolding(crate::specs::Calls::folder_of))]
fn folder_of(alloc: Global, body: &[u8]) -> Result<Option<OctetString>, AllocError>
    ensures { IfOk result (λ folder. folder ≡ folder_of body.now) }
{
    if !is_ascii(body) {
        return Ok(None);
    }
    match Value::from_slice(alloc, body) {
        Ok(value) => {
            let folder = folder_in(alloc, &value);
            // By a call: a value that is let go in place is proved part by part.
            drop(value);
            folder
        }
        Err(error) => {
            if error.is_memory() {
                Err(AllocError)
            } else {
                Ok(None)
            }
        }
    }
}

/// The folder of an object in JSON. The only error is want of memory.
fn folder_in(alloc: Global, value: &Value) -> Result<Option<OctetString>, AllocError>
    ensures { IfOk result (λ folder. folder ≡ folder_in (view value.now)) }
{
    match value.get("folder").and_then(Value::as_str) {
        Some(path) => if_folder(alloc, path.as_bytes()),
        None => Ok(None),
    }
}

/// A copy of a path, if it is the path of a folder. The only error is want of memory.
fn if_folder(alloc: Global, path: &[u8]) -> Result<Option<OctetString>, AllocError>
    ensures { IfOk result (λ folder. folder ≡ if_folder path.now) }
{
    if !is_folder(path) {
        return Ok(None);
    }
    let folder = Vec::from_slice(alloc, path)?;
    Ok(Some(OctetString::from_vec(folder)))
}

/// Whether a path is that of a folder: from the root, and of 1 to 1,024 characters of ASCII.
fn is_folder(path: &[u8]) -> bool
    ensures { result ≡ is_folder path.now }
{
    is_absolute(path) && path.len() <= MOST_PATH && are_printed(path)
}

fn is_absolute(path: &[u8]) -> bool
    ensures { result ≡ is_absolute path.now }
{
    match path {
        [] => false,
        [first, ..] => *first == b'/',
    }
}

fn are_printed(path: &[u8]) -> bool
    ensures { result ≡ list_all is_printed path.now }
{
    path.iter().all(|octet| is_printed(*octet))
}

/// Whether an octet is a character of ASCII and no control character.
fn is_printed(octet: u8) -> bool
    ensures { result ≡ is_printed octet }
{
    32 <= octet && octet <= 126
}
