//! The answer that reports a protocol error.

ghost use Rattle.std.specs.Prelude.{◌≡◌, ◌≤◌, ◌++◌, ◌==◌, true, length, vec_len, IfOk, OnOk};
ghost use Rattle.std.specs.List.{flat_map};
ghost use Rattle.std.specs.Option.{ForSome};
ghost use Rattle.dcc_octets.specs.Names.{is_short};
ghost use Rattle.dcc_avp.specs.Spelling.{padded};
ghost use Rattle.dcc_answer.specs.Answers.{error_avps, error_octets, busy_octets, IsServer};
ghost use Rattle.dcc_answer.specs.Proxies.{SpellProxies};
ghost use Rattle.dcc_answer.specs.Results.{is_busy};
ghost use Rattle.dcc_answer.specs.Sizes.{Grows};

use crate::answer::{MAX_ANSWER, begin_answer, finish_answer};
use crate::avps::{put, put_u32};
use crate::proxies::Proxies;
use crate::session::Session;
use dcc_avp::codes;
use dcc_message::{HEADER_LENGTH, Header, Identity, command_flags};
use std::alloc::{AllocError, Global};

/// DIAMETER_TOO_BUSY (RFC 6733, section 7.1.3): the request was not served, and nothing changed.
pub const TOO_BUSY: u32 = 3004;

/// Writes the answer that reports a protocol error (RFC 6733, section 7.2). It has E, the request's identifiers and P bit,
/// this Result-Code, the request's Session-Id, if there is any, and its Proxy-Info. The only error is want of memory.
pub fn write_error(
    alloc: Global,
    identity: &Identity,
    code: u32,
    session: Option<Session<'_>>,
    request: &Header,
    proxies: &Proxies,
) -> Result<Vec<u8>, AllocError>
    ensures exact { IfOk result (λ error. error.items ≡ error_octets identity.now code session.entry request.now proxies.now) }
    ensures busy { IfOk result (λ error. is_busy error.items ≡ (code == TOO_BUSY)) }
    ensures some { IfOk result (λ error. HEADER_LENGTH ≤ length error.items) }
    ensures bounded { IfOk result (λ error. length error.items ≤ MAX_ANSWER) }
{
    dcc_avp::read_back();
    error_within(alloc, identity, code, session, request, proxies)
}

/// The answer, and what is known of the names in it.
#[tactic(auto, unfolding(crate::specs::Answers::error_octets))]
fn error_within(
    alloc: Global,
    identity: &Identity,
    code: u32,
    session: Option<Session<'_>>,
    request: &Header,
    proxies: &Proxies,
) -> Result<Vec<u8>, AllocError>
    ensures exact { IfOk result (λ error. error.items ≡ error_octets identity.now code session.entry request.now proxies.now) }
    ensures bounded { IfOk result (λ error. length error.items ≤ MAX_ANSWER) }
    ensures server { OnOk result (IsServer identity.now) }
    ensures short { OnOk result (ForSome session.entry (λ octets. is_short octets ≡ true)) }
    ensures spelled { OnOk result (SpellProxies proxies.now) }
{
    let mut error = begin_answer(alloc)?;
    put_error(&mut error, identity, code, session)?;
    finish_answer(error, request, command_flags::ERROR, proxies)
}

/// Appends the AVPs of the answer.
fn put_error(
    out: &mut Vec<u8>,
    identity: &Identity,
    code: u32,
    session: Option<Session<'_>>,
) -> Result<(), AllocError>
    ensures ok { OnOk result (out.new.items ≡ out.old.items ++ flat_map padded (error_avps identity.now code session.entry)) }
    ensures server { OnOk result (IsServer identity.now) }
    ensures short { OnOk result (ForSome session.entry (λ octets. is_short octets ≡ true)) }
    ensures grows { OnOk result (Grows (vec_len out.old) (vec_len out.new) 900) }
{
    if let Some(session) = session {
        put(out, codes::SESSION_ID, session.as_slice())?;
    }
    put_u32(out, codes::RESULT_CODE, code)?;
    put(out, codes::ORIGIN_HOST, identity.host.as_slice())?;
    put(out, codes::ORIGIN_REALM, identity.realm.as_slice())
}

/// Writes the answer to a request that isn't served now: DIAMETER_TOO_BUSY, a protocol error. The only error is want of memory.
pub fn write_busy(
    alloc: Global,
    identity: &Identity,
    session: Option<Session<'_>>,
    request: &Header,
    proxies: &Proxies,
) -> Result<Vec<u8>, AllocError>
    ensures exact { IfOk result (λ busy. busy.items ≡ busy_octets identity.now session.entry request.now proxies.now) }
    ensures busy { IfOk result (λ busy. is_busy busy.items ≡ true) }
    ensures some { IfOk result (λ busy. HEADER_LENGTH ≤ length busy.items) }
    ensures bounded { IfOk result (λ busy. length busy.items ≤ MAX_ANSWER) }
{
    write_error(alloc, identity, TOO_BUSY, session, request, proxies)
}
