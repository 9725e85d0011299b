//! Requests.

ghost use Rattle.std.specs.Prelude.{◌≡◌, ◌≢◌, ℕ, IfErr, IfOk, codes, string_bytes};
ghost use Rattle.http1.specs.Framing.{method_kind};
ghost use Rattle.dcc_client.specs.Requests.{ask_text, get_text, method_of, name_of, path_of, post_text, request_of, target_of};
ghost use Rattle.dcc_client.specs.inner.Reading.{IsSent};
ghost use Rattle.dcc_client.specs.declared.fault.CallFault.TheVariants.{Unfit};

use crate::call::Call;
use crate::fault::CallFault;
use dcc_act::Sub;
use http1::{BodySize, Client, Header, Limits};
use percent_encoding::{NON_ALPHANUMERIC, percent_encode};
use std::alloc::{AllocError, Global};

/// The limits of a response: 16 KiB each for its head, for the extensions of its chunks, and for its trailers.
pub(crate) const LIMITS: Limits = Limits {
    max_head_len: 16 * 1024,
    max_extensions_len: 16 * 1024,
    max_trailers_len: 16 * 1024,
};

/// The connection that waits for the response to a call, and the octets of the call's request to this host.
///
/// Errors: [`CallFault::Memory`]; [`CallFault::Host`].
pub(crate) fn request_of(
    alloc: Global,
    host: &str,
    call: &Call,
) -> Result<(Client, Vec<u8>), CallFault>
    ensures text { IfOk result (λ made. made.1.items ≡ request_of host.now call.now) }
    ensures sent { IfOk result (λ made. IsSent (method_kind (method_of call.now)) made.0) }
    ensures faults { IfErr result (λ fault. (status : ℕ) → fault ≢ Unfit status) }
{
    let target = target_of(alloc, call)?;
    match call {
        Call::TopUp {
            sub: _,
            ticket,
            amount,
        } => {
            let content = ask_text(alloc, *ticket, *amount)?;
            post_request(
                alloc,
                host.as_bytes(),
                target.as_bytes(),
                content.as_bytes(),
            )
        }
        _ => get_request(alloc, host.as_bytes(), target.as_bytes()),
    }
}

/// A request that only asks.
#[tactic(auto, unfolding(crate::specs::Requests::get_text))]
fn get_request(alloc: Global, host: &[u8], target: &[u8]) -> Result<(Client, Vec<u8>), CallFault>
    ensures text { IfOk result (λ made. made.1.items ≡ get_text host.now target.now) }
    ensures sent { IfOk result (λ made. IsSent (method_kind (codes "GET")) made.0) }
    ensures faults { IfErr result (λ fault. (status : ℕ) → fault ≢ Unfit status) }
{
    let mut client = Client::new(LIMITS);
    let mut text = Vec::new(alloc);
    let fields = [field(b"host", host), field(b"connection", b"close")];
    client.write_request(&mut text, b"GET", target, &fields, BodySize::Empty)?;
    client.write_end(&mut text, &[])?;
    Ok((client, text))
}

/// A request with content in JSON.
#[tactic(auto, unfolding(crate::specs::Requests::post_text))]
fn post_request(
    alloc: Global,
    host: &[u8],
    target: &[u8],
    content: &[u8],
) -> Result<(Client, Vec<u8>), CallFault>
    ensures text { IfOk result (λ made. made.1.items ≡ post_text host.now target.now content.now) }
    ensures sent { IfOk result (λ made. IsSent (method_kind (codes "POST")) made.0) }
    ensures faults { IfErr result (λ fault. (status : ℕ) → fault ≢ Unfit status) }
{
    let mut client = Client::new(LIMITS);
    let mut text = Vec::new(alloc);
    let fields = [
        field(b"host", host),
        field(b"connection", b"close"),
        field(b"content-type", b"application/json"),
    ];
    let size = BodySize::Known(content.len() as u64);
    client.write_request(&mut text, b"POST", target, &fields, size)?;
    client.write_data(&mut text, content)?;
    client.write_end(&mut text, &[])?;
    Ok((client, text))
}

fn field<'a>(name: &'a [u8], value: &'a [u8]) -> Header<'a>
    ensures name { result.name.now ≡ name.now }
    ensures value { result.value.now ≡ value.now }
{
    Header { name, value }
}

/// The target of a call. The only error is want of memory.
fn target_of(alloc: Global, call: &Call) -> Result<String, AllocError>
    ensures { IfOk result (λ target. string_bytes target ≡ target_of call.now) }
{
    match call {
        Call::Account(sub) => path_of(alloc, sub, ""),
        Call::Ledger(sub) => path_of(alloc, sub, "/ledger"),
        Call::TopUp { sub, .. } => path_of(alloc, sub, "/topups"),
    }
}

/// The path of a page of a subscriber. The only error is want of memory.
fn path_of(alloc: Global, sub: &Sub, page: &str) -> Result<String, AllocError>
    ensures { IfOk result (λ path. string_bytes path ≡ path_of sub.now page.now) }
{
    let name = name_of(alloc, sub)?;
    let mut path = String::new(alloc);
    path.push_str("/subscribers/")?;
    percent_encode(name.as_slice(), NON_ALPHANUMERIC).append_to(&mut path)?;
    path.push_str(page)?;
    Ok(path)
}

/// A subscriber as `TYPE:DATA`. The only error is want of memory.
pub(crate) fn name_of(alloc: Global, sub: &Sub) -> Result<Vec<u8>, AllocError>
    ensures { IfOk result (λ name. name.items ≡ name_of sub.now) }
{
    let kind = sub.kind();
    let head = format!(in alloc; "{kind}:")?;
    let mut name = Vec::from_slice(alloc, head.as_bytes())?;
    name.extend_from_slice(sub.name())?;
    Ok(name)
}

/// The content of a top-up's request. The only error is want of memory.
fn ask_text(alloc: Global, ticket: u64, amount: u64) -> Result<String, AllocError>
    ensures { IfOk result (λ text. string_bytes text ≡ ask_text ticket amount) }
{
    format!(in alloc; "{{\"ticket\":{ticket},\"amount\":{amount}}}")
}
