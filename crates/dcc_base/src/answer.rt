//! The answers to requests of the base protocol.

ghost use Rattle.std.specs.Prelude.{◌≡◌, ◌≤◌, ◌==◌, false, [], ◌++◌, length, vec_len, IfOk, OnOk};
ghost use Rattle.std.specs.List.{flat_map, sum_by, AllByRecursion};
ghost use Rattle.dcc_avp.specs.Spelling.{plain, padded, padded_len, HasSpelling};
ghost use Rattle.dcc_avp.specs.declared.codes.TheConstants.{PRODUCT_NAME};
ghost use Rattle.dcc_answer.specs.Sizes.{Grows};
ghost use Rattle.dcc_request.specs.Refusals.{cause_number, failed_in};
ghost use Rattle.dcc_answer.specs.Answers.{answer_with, IsServer};
ghost use Rattle.dcc_answer.specs.Results.{is_busy};
ghost use Rattle.dcc_answer.specs.Failed.{failed_avps};
ghost use Rattle.dcc_answer.specs.Proxies.{SpellProxies};
ghost use Rattle.dcc_base.specs.Answers.{is_capabilities, address_octets, origin_avps, own_capabilities, own_avps, answer_avps, refused_octets};

use dcc_answer::{
    Proxies, Session, TOO_BUSY, begin_answer, busy_by_result, finish_answer, put, put_failed,
    put_u32, read_back, write_error,
};
use dcc_avp::{Avp, codes, write_avp};
use dcc_message::{HEADER_LENGTH, Header, Identity, MAX_LENGTH, applications, commands};
use dcc_request::{Failed, Refused};
use std::alloc::{AllocError, Global};

/// DIAMETER_SUCCESS (RFC 6733, section 7.1.2).
pub const SUCCESS: u32 = 2001;

/// The address family of IPv4, in front of an address (RFC 6733, section 4.3.1).
pub const FAMILY: [u8; 2] = [0, 1];

/// The Vendor-Id of a server that no vendor made.
pub const OWN_VENDOR: u32 = 0;

/// The Product-Name of the server.
pub const PRODUCT: [u8; 3] = *b"dcc";

/// Whether the message is of the capabilities exchange.
pub(crate) fn is_capabilities(header: &Header) -> bool
    ensures { result ≡ is_capabilities header.now }
{
    header.is_command(commands::CAPABILITIES_EXCHANGE, applications::BASE)
}

/// Appends the AVPs with which each answer begins.
fn put_origin(out: &mut Vec<u8>, identity: &Identity, code: u32) -> Result<(), AllocError>
    ensures ok { OnOk result (out.new.items ≡ out.old.items ++ flat_map padded (origin_avps identity.now code)) }
    ensures server { OnOk result (IsServer identity.now) }
    ensures grows { OnOk result (Grows (vec_len out.old) (vec_len out.new) 600) }
{
    put_u32(out, codes::RESULT_CODE, code)?;
    put(out, codes::ORIGIN_HOST, identity.host.as_slice())?;
    put(out, codes::ORIGIN_REALM, identity.realm.as_slice())
}

/// An IPv4 address behind its family.
fn address_octets(address: [u8; 4]) -> [u8; 6]
    ensures value { result ≡ address_octets address }
    ensures four { length address ≡ 4 }
{
    let [high, low] = FAMILY;
    let [a, b, c, d] = address;
    [high, low, a, b, c, d]
}

/// Appends the Product-Name, for which M isn't set.
fn put_product(out: &mut Vec<u8>) -> Result<(), AllocError>
    ensures ok { OnOk result (out.new.items ≡ out.old.items ++ padded (plain PRODUCT_NAME 0 PRODUCT)) }
    ensures grows { OnOk result (Grows (vec_len out.old) (vec_len out.new) 12) }
{
    write_avp(out, &Avp::new(codes::PRODUCT_NAME, 0, &PRODUCT))
}

/// Appends the server's own capabilities.
fn put_capabilities(out: &mut Vec<u8>, identity: &Identity) -> Result<(), AllocError>
    ensures ok { OnOk result (out.new.items ≡ out.old.items ++ flat_map padded (own_capabilities identity.now)) }
    ensures four { OnOk result (length identity.now.address ≡ 4) }
    ensures grows { OnOk result (Grows (vec_len out.old) (vec_len out.new) 100) }
{
    put(
        out,
        codes::HOST_IP_ADDRESS,
        &address_octets(identity.address),
    )?;
    put_u32(out, codes::VENDOR_ID, OWN_VENDOR)?;
    put_product(out)?;
    put_u32(
        out,
        codes::AUTH_APPLICATION_ID,
        applications::CREDIT_CONTROL,
    )
}

/// Appends the server's own capabilities in the exchange of capabilities, and else nothing.
fn put_own(out: &mut Vec<u8>, identity: &Identity, request: &Header) -> Result<(), AllocError>
    ensures ok { OnOk result (out.new.items ≡ out.old.items ++ flat_map padded (own_avps identity.now request.now)) }
    ensures spelled { OnOk result (AllByRecursion HasSpelling (own_avps identity.now request.now)) }
    ensures grows { OnOk result (Grows (vec_len out.old) (vec_len out.new) 100) }
{
    if is_capabilities(request) {
        put_capabilities(out, identity)
    } else {
        Ok(())
    }
}

/// Writes the answer with this Result-Code and these AVPs in its Failed-AVP.
fn write_answer(
    alloc: Global,
    identity: &Identity,
    request: &Header,
    code: u32,
    failed: &Failed<'_>,
    proxies: &Proxies,
) -> Result<Vec<u8>, AllocError>
    requires small { sum_by padded_len (failed_in failed.now) ≤ MAX_LENGTH }
    ensures exact { IfOk result (λ answer. answer.items
        ≡ answer_with request.now 0 (answer_avps identity.now request.now code (failed_in failed.now)) proxies.now) }
    ensures busy { IfOk result (λ answer. is_busy answer.items ≡ (code == TOO_BUSY)) }
    ensures some { IfOk result (λ answer. HEADER_LENGTH ≤ length answer.items) }
{
    busy_by_result();
    read_back();
    answer_within(alloc, identity, request, code, failed, proxies)
}

/// The answer, and what is known of its parts.
fn answer_within(
    alloc: Global,
    identity: &Identity,
    request: &Header,
    code: u32,
    failed: &Failed<'_>,
    proxies: &Proxies,
) -> Result<Vec<u8>, AllocError>
    requires small { sum_by padded_len (failed_in failed.now) ≤ MAX_LENGTH }
    ensures exact { IfOk result (λ answer. answer.items
        ≡ answer_with request.now 0 (answer_avps identity.now request.now code (failed_in failed.now)) proxies.now) }
    ensures server { OnOk result (IsServer identity.now) }
    ensures own { OnOk result (AllByRecursion HasSpelling (own_avps identity.now request.now)) }
    ensures shown { OnOk result (AllByRecursion HasSpelling (failed_avps (failed_in failed.now))) }
    ensures spelled { OnOk result (SpellProxies proxies.now) }
{
    let mut answer = begin_answer(alloc)?;
    put_origin(&mut answer, identity, code)?;
    put_own(&mut answer, identity, request)?;
    put_failed(&mut answer, failed)?;
    finish_answer(answer, request, 0, proxies)
}

/// Writes the answer to an accepted request.
pub(crate) fn write_accepted(
    alloc: Global,
    identity: &Identity,
    request: &Header,
    proxies: &Proxies,
) -> Result<Vec<u8>, AllocError>
    ensures exact { IfOk result (λ answer. answer.items ≡ answer_with request.now 0 (answer_avps identity.now request.now SUCCESS []) proxies.now) }
    ensures busy { IfOk result (λ answer. is_busy answer.items ≡ false) }
    ensures some { IfOk result (λ answer. HEADER_LENGTH ≤ length answer.items) }
{
    write_answer(alloc, identity, request, SUCCESS, &Failed::Nothing, proxies)
}

/// Writes the answer to a refused request.
pub(crate) fn write_refused(
    alloc: Global,
    identity: &Identity,
    request: &Header,
    session: Option<Session<'_>>,
    proxies: &Proxies,
    refused: &Refused<'_>,
) -> Result<Vec<u8>, AllocError>
    requires small { sum_by padded_len refused.now.failed ≤ MAX_LENGTH }
    ensures exact { IfOk result (λ answer. answer.items
        ≡ refused_octets identity.now request.now (record { session = session.entry; proxies = proxies.now }) refused.now) }
    ensures busy { IfOk result (λ answer. is_busy answer.items ≡ false) }
    ensures some { IfOk result (λ answer. HEADER_LENGTH ≤ length answer.items) }
{
    let code = code_of(refused);
    if 3000 <= code && code < 4000 {
        write_error(alloc, identity, code, session, request, proxies)
    } else {
        write_answer(alloc, identity, request, code, refused.failed(), proxies)
    }
}

/// The Result-Code of a refusal. No refusal has that of the busy answer.
fn code_of(refused: &Refused<'_>) -> u32
    ensures value { result ≡ cause_number refused.now.cause }
    ensures other { (result == TOO_BUSY) ≡ false }
{
    refused.cause().number()
}
