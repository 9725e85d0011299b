//! A call, from its request to its finding.

ghost use Rattle.std.specs.Prelude.{◌≡◌, ◌≢◌, ℕ, List, IfOk, IfErr, IfSome, OnOk};
ghost use Rattle.std.specs.Io.KnownBytes.{Appends};
ghost use Rattle.http1.specs.Framing.{method_kind};
ghost use Rattle.dcc_client.specs.Requests.{method_of, request_of};
ghost use Rattle.dcc_client.specs.Answers.{IsAnswered, IsUnfit};
ghost use Rattle.dcc_client.specs.inner.Reading.{IsReply};
ghost use Rattle.dcc_client.specs.declared.fault.CallFault.TheVariants.{Unfit};

use crate::call::Call;
use crate::fault::CallFault;
use crate::finding::{Answer, finding_of};
use crate::reading::answer_of;
use crate::reply::{Reply, reply_of};
use crate::request::request_of;
use std::alloc::Global;
use std::io::{Read, Write};

/// Sends the request of a call to a server, reads its answer to the end of the connection, and returns the finding.
///
/// The host is the server's address as it stands in the field `host` of the request: an IPv4 address in numbers and a port.
///
/// Errors: each of [`CallFault`]. With [`CallFault::Host`] nothing was sent. With any other but [`CallFault::Memory`] the server may have done the call.
pub fn ask<R: Read, W: Write>(
    alloc: Global,
    host: &str,
    call: &Call,
    input: &mut R,
    output: &mut W,
) -> Result<Answer, CallFault>
    ensures sent { OnOk result (Appends (W.contents output.old) (W.contents output.new) (request_of host.now call.now)) }
    ensures found { IfOk result (λ answer. IfSome (R.remaining input.old) (λ octets. IsAnswered call.now octets answer)) }
    ensures unfit { IfErr result (λ fault. (status : ℕ) → fault ≡ Unfit status
        → IfSome (R.remaining input.old) (λ octets. IsUnfit call.now octets status)) }
{
    let (mut client, text) = request_of(alloc, host, call)?;
    send(output, text.as_slice())?;
    let octets = answer_of(alloc, input)?;
    let reply = reply_of(alloc, &mut client, octets.as_slice())?;
    answer_in(alloc, call, reply)
}

/// Sends a whole text.
///
/// Error: [`CallFault::Sending`], for the writer's reason.
fn send<W: Write>(output: &mut W, text: &[u8]) -> Result<(), CallFault>
    ensures whole { OnOk result (Appends (W.contents output.old) (W.contents output.new) text.now) }
    ensures fault { IfErr result (λ fault. (status : ℕ) → fault ≢ Unfit status) }
{
    match output.write_all(text) {
        Ok(()) => {}
        Err(error) => return Err(CallFault::Sending(error)),
    }
    match output.flush() {
        Ok(()) => Ok(()),
        Err(error) => Err(CallFault::Sending(error)),
    }
}

/// The answer of a response.
fn answer_in(alloc: Global, call: &Call, reply: Reply) -> Result<Answer, CallFault>
    ensures found { IfOk result (λ answer. (octets : List ℕ) → IsReply (method_kind (method_of call.now)) octets reply.status reply.body.items
        → IsAnswered call.now octets answer) }
    ensures unfit { IfErr result (λ fault. (status : ℕ) → fault ≡ Unfit status → (octets : List ℕ)
        → IsReply (method_kind (method_of call.now)) octets reply.status reply.body.items → IsUnfit call.now octets status) }
{
    let Reply { status, body } = reply;
    match finding_of(alloc, call, status, body.as_slice())? {
        Some(finding) => Ok(Answer { finding, body }),
        None => Err(CallFault::Unfit(status)),
    }
}
