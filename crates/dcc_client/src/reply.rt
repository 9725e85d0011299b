//! Responses.

ghost use Rattle.std.specs.Prelude.{◌≡◌, ◌≢◌, ◌≤◌, ℕ, [], length, IfErr, IfOk, IfNone, IfSome};
ghost use Rattle.http1.specs.declared.framing.MethodKind.{MethodKind};
ghost use Rattle.dcc_client.specs.inner.Reading.{Heads, IsBody, IsPiece, IsReply, IsSent};
ghost use Rattle.dcc_client.specs.declared.fault.CallFault.TheVariants.{Unfit};

use crate::fault::CallFault;
use http1::{Client, Event, Progress};
use httparse::spans::{EMPTY_HEADER_SPAN, Span};
use std::alloc::Global;

/// A response has at most so many fields in its head, and so many in its trailers.
const FIELDS: usize = 64;

/// A response as the client sees it.
#[derive(Drop)]
pub(crate) struct Reply {
    pub status: u16,
    pub body: Vec<u8>,
}

/// The response with which octets begin. The connection has sent the request.
///
/// Errors: [`CallFault::Cut`]; [`CallFault::Form`]; [`CallFault::Memory`].
pub(crate) fn reply_of(
    alloc: Global,
    client: &mut Client,
    octets: &[u8],
) -> Result<Reply, CallFault>
    ensures reply { IfOk result (λ reply. (method : MethodKind) → IsSent method client.old
        → IsReply method octets.now reply.status reply.body.items) }
    ensures faults { IfErr result (λ fault. (status : ℕ) → fault ≢ Unfit status) }
{
    let (len, status) = head_of(client, octets)?;
    let body = body_of(alloc, client, &octets[len..])?;
    Ok(Reply { status, body })
}

/// The length and the status of the final head with which octets begin.
fn head_of(client: &mut Client, octets: &[u8]) -> Result<(usize, u16), CallFault>
    ensures within { IfOk result (λ head. head.0 ≤ length octets.now) }
    ensures heads { IfOk result (λ head. (method : MethodKind) → IsSent method client.old
        → Heads client.old client.new octets.now head.0 head.1) }
    ensures faults { IfErr result (λ fault. (status : ℕ) → fault ≢ Unfit status) }
{
    let mut spans = [EMPTY_HEADER_SPAN; FIELDS];
    match client.read(octets, &mut spans) {
        Ok(Progress { consumed, event }) => match event {
            Event::Head(head) => Ok((consumed, head.code)),
            Event::NeedMore => Err(CallFault::Cut),
            _ => Err(CallFault::Form),
        },
        Err(_) => Err(CallFault::Form),
    }
}

/// The body with which octets begin.
fn body_of(alloc: Global, client: &mut Client, octets: &[u8]) -> Result<Vec<u8>, CallFault>
    ensures body { IfOk result (λ body. IsBody client.old octets.now body.items) }
    ensures faults { IfErr result (λ fault. (status : ℕ) → fault ≢ Unfit status) }
{
    let mut left = octets;
    let mut body = Vec::new(alloc);
    for _turn in 0..u64::MAX {
        match piece_of(client, left)? {
            Some(piece) => {
                body.extend_from_slice(&left[piece.start..piece.end])?;
                left = &left[piece.end..];
            }
            None => return Ok(body),
        }
    }
    Err(CallFault::Long)
}

/// The piece of a body with which octets begin. None at the body's end.
fn piece_of(client: &mut Client, octets: &[u8]) -> Result<Option<Span>, CallFault>
    ensures ordered { IfOk result (λ piece. IfSome piece (λ span. span.start ≤ span.end)) }
    ensures within { IfOk result (λ piece. IfSome piece (λ span. span.end ≤ length octets.now)) }
    ensures piece { IfOk result (λ piece. IfSome piece (IsPiece client.old client.new octets.now)) }
    ensures end { IfOk result (λ piece. IfNone piece (IsBody client.old octets.now [])) }
    ensures faults { IfErr result (λ fault. (status : ℕ) → fault ≢ Unfit status) }
{
    let mut spans = [EMPTY_HEADER_SPAN; FIELDS];
    match client.read(octets, &mut spans) {
        Ok(Progress { consumed: _, event }) => match event {
            Event::Data(piece) => Ok(Some(piece)),
            Event::End(_) => Ok(None),
            Event::NeedMore => Err(CallFault::Cut),
            _ => Err(CallFault::Form),
        },
        Err(_) => Err(CallFault::Form),
    }
}
