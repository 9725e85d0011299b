//! The refusal of a request.

ghost use Rattle.std.specs.Prelude.{◌≡◌, ◌≤◌, ◌++◌, [], Some, true, false, is_some, length, vec_len, option_map, IfOk, OnOk};
ghost use Rattle.std.specs.List.{flat_map, sum_by, AllByRecursion};
ghost use Rattle.std.specs.Option.{option_to_list, ForSome};
ghost use Rattle.dcc_octets.specs.Names.{is_short};
ghost use Rattle.dcc_avp.specs.Spelling.{padded, padded_len, HasSpelling};
ghost use Rattle.dcc_avp.specs.declared.codes.TheConstants.{SESSION_ID};
ghost use Rattle.dcc_request.specs.Layout.{layout_fault};
ghost use Rattle.dcc_answer.specs.Avps.{sent};
ghost use Rattle.dcc_answer.specs.Answers.{IsServer};
ghost use Rattle.dcc_answer.specs.Failed.{failed_avps};
ghost use Rattle.dcc_answer.specs.Proxies.{SpellProxies};
ghost use Rattle.dcc_answer.specs.Results.{is_busy};
ghost use Rattle.dcc_answer.specs.Sizes.{Grows};
ghost use Rattle.dcc_credit.specs.Refusals.{Taken, number_of, taken_from, nothing, taken, taken_of, number_avps, origin_avps, refusal_avps, refusal_octets, unread_octets, unfound_octets};

use crate::session::lend_session;
use dcc_act::{Act, Kind, RequestKey};
use dcc_answer::{
    MAX_ANSWER, Proxies, Session, begin_answer, busy_by_result, finish_answer, put, put_failed,
    put_u32, session_id,
};
use dcc_avp::{Avp, AvpFault, codes};
use dcc_message::{HEADER_LENGTH, Header, Identity, MAX_LENGTH, applications};
use dcc_request::table::{TERMINATION_TYPE, UPDATE_TYPE};
use dcc_request::{Refused, first, missing, shown_within, unread};
use std::alloc::{AllocError, Global};
use std::marker::Model;

/// The values that a refusal copies from its request beside the proxies. Contracts see it as `Taken`.
#[derive(Drop)]
struct TakenOver<'a> {
    session: Option<Session<'a>>,
    request_type: Option<u32>,
    number: Option<u32>,
}

impl<'a> Model for TakenOver<'a> {
    ghost use Rattle.dcc_credit.specs.Refusals.{Taken};

    ghost Value = { Taken };

    ghost view = { λ t. record { session = t.session; type = t.request_type; number = t.number } };
}

/// Writes the refusal of a request whose list was read: its Result-Code and, if it shows any AVPs, its Failed-AVP (RFC
/// 6733, sections 7.1.5 and 7.5), under the request's identifiers and P bit, with its Proxy-Info at the end. It copies the
/// first Session-Id if that has 1 to 255 octets, and the first CC-Request-Type and the first CC-Request-Number if each has
/// four. The shown AVPs have at most 65,532 octets. The answer is not the busy one. The only error is want of memory.
pub fn write_refusal(
    alloc: Global,
    identity: &Identity,
    request: &Header,
    avps: &[Avp<'_>],
    proxies: &Proxies,
    refused: &Refused<'_>,
) -> Result<Vec<u8>, AllocError>
    requires { sum_by padded_len refused.now.failed ≤ MAX_LENGTH }
    ensures exact { IfOk result (λ answer. answer.items
        ≡ refusal_octets identity.now request.now (taken_from avps.now) proxies.now refused.now) }
    ensures not_busy { IfOk result (λ answer. is_busy answer.items ≡ false) }
    ensures some { IfOk result (λ answer. HEADER_LENGTH ≤ length answer.items) }
    ensures bounded { IfOk result (λ answer. length answer.items ≤ MAX_ANSWER) }
{
    busy_by_result();
    refusal_within(
        alloc,
        identity,
        request,
        &taken_from(avps),
        proxies,
        refused,
    )
}

/// Writes the refusal of a request whose list can't be read, by the fault of its layout: DIAMETER_INVALID_AVP_LENGTH (5014,
/// RFC 6733, section 7.1.5) with the AVP that stands for the broken one. It copies nothing from the list, so a client that
/// matches answers by their Session-Id finds none. The fault has to be of the layout: each error of reading a list is,
/// except want of memory. The only error is want of memory.
pub fn write_unread(
    alloc: Global,
    identity: &Identity,
    request: &Header,
    fault: &AvpFault,
) -> Result<Vec<u8>, AllocError>
    requires { is_some (layout_fault fault.now) ≡ true }
    ensures exact { IfOk result (λ answer. option_map (unread_octets identity.now request.now) (layout_fault fault.now) ≡ Some answer.items) }
    ensures not_busy { IfOk result (λ answer. is_busy answer.items ≡ false) }
    ensures some { IfOk result (λ answer. HEADER_LENGTH ≤ length answer.items) }
    ensures bounded { IfOk result (λ answer. length answer.items ≤ MAX_ANSWER) }
{
    busy_by_result();
    shown_within();
    let Some(refused) = unread(fault) else {
        unreachable!()
    };
    let proxies = Proxies::none(alloc);
    refusal_within(alloc, identity, request, &nothing(), &proxies, &refused)
}

/// Writes the refusal of an update or a termination that names nobody and whose subscriber was not found, by its act:
/// DIAMETER_MISSING_AVP (5005, RFC 6733, section 7.1.5) with an empty Subscription-Id. It copies the session, the type and the number, as
/// the refusal of the request's list would. For any other act it copies nothing. The only error is want of memory.
#[tactic(auto, unfolding(crate::specs::Refusals::unfound_octets))]
pub fn write_unfound(
    alloc: Global,
    identity: &Identity,
    request: &Header,
    act: &Act,
    proxies: &Proxies,
) -> Result<Vec<u8>, AllocError>
    ensures exact { IfOk result (λ answer. answer.items ≡ unfound_octets identity.now request.now act.now proxies.now) }
    ensures not_busy { IfOk result (λ answer. is_busy answer.items ≡ false) }
    ensures some { IfOk result (λ answer. HEADER_LENGTH ≤ length answer.items) }
    ensures bounded { IfOk result (λ answer. length answer.items ≤ MAX_ANSWER) }
{
    busy_by_result();
    shown_within();
    let refused = missing(codes::SUBSCRIPTION_ID);
    refusal_within(
        alloc,
        identity,
        request,
        &taken_of(&act.kind),
        proxies,
        &refused,
    )
}

/// The refusal, and what is known of its parts.
#[tactic(auto, unfolding(crate::specs::Refusals::refusal_octets))]
fn refusal_within(
    alloc: Global,
    identity: &Identity,
    request: &Header,
    taken: &TakenOver<'_>,
    proxies: &Proxies,
    refused: &Refused<'_>,
) -> Result<Vec<u8>, AllocError>
    requires { sum_by padded_len refused.now.failed ≤ MAX_LENGTH }
    ensures exact { IfOk result (λ answer. answer.items ≡ refusal_octets identity.now request.now taken.now proxies.now refused.now) }
    ensures bounded { IfOk result (λ answer. length answer.items ≤ MAX_ANSWER) }
    ensures server { OnOk result (IsServer identity.now) }
    ensures short { OnOk result (ForSome taken.now.session (λ octets. is_short octets ≡ true)) }
    ensures failed { OnOk result (AllByRecursion HasSpelling (failed_avps refused.now.failed)) }
    ensures spelled { OnOk result (SpellProxies proxies.now) }
{
    let mut answer = begin_answer(alloc)?;
    put_refusal(&mut answer, identity, taken, refused)?;
    finish_answer(answer, request, 0, proxies)
}

/// Appends the AVPs of a refusal.
#[tactic(auto, unfolding(crate::specs::Refusals::refusal_avps))]
fn put_refusal(
    out: &mut Vec<u8>,
    identity: &Identity,
    taken: &TakenOver<'_>,
    refused: &Refused<'_>,
) -> Result<(), AllocError>
    requires { sum_by padded_len refused.now.failed ≤ MAX_LENGTH }
    ensures ok { OnOk result (out.new.items ≡ out.old.items ++ flat_map padded (refusal_avps identity.now taken.now refused.now)) }
    ensures server { OnOk result (IsServer identity.now) }
    ensures short { OnOk result (ForSome taken.now.session (λ octets. is_short octets ≡ true)) }
    ensures failed { OnOk result (AllByRecursion HasSpelling (failed_avps refused.now.failed)) }
    ensures grows { OnOk result (Grows (vec_len out.old) (vec_len out.new) 70_000) }
{
    put_session(out, &taken.session)?;
    put_origin(out, identity, refused.cause().number())?;
    put_number(out, codes::CC_REQUEST_TYPE, taken.request_type)?;
    put_number(out, codes::CC_REQUEST_NUMBER, taken.number)?;
    put_failed(out, refused.failed())
}

/// Appends the Session-Id, if there is any.
fn put_session(out: &mut Vec<u8>, session: &Option<Session<'_>>) -> Result<(), AllocError>
    ensures ok { OnOk result (out.new.items
        ≡ out.old.items ++ flat_map padded (option_to_list (option_map (sent SESSION_ID) session.now))) }
    ensures short { OnOk result (ForSome session.now (λ octets. is_short octets ≡ true)) }
    ensures grows { OnOk result (Grows (vec_len out.old) (vec_len out.new) 300) }
{
    match session {
        Some(session) => put(out, codes::SESSION_ID, session.as_slice()),
        None => Ok(()),
    }
}

/// Appends the Result-Code, the names of the server, and the application.
fn put_origin(out: &mut Vec<u8>, identity: &Identity, code: u32) -> Result<(), AllocError>
    ensures ok { OnOk result (out.new.items ≡ out.old.items ++ flat_map padded (origin_avps identity.now code)) }
    ensures server { OnOk result (IsServer identity.now) }
    ensures grows { OnOk result (Grows (vec_len out.old) (vec_len out.new) 600) }
{
    put_u32(out, codes::RESULT_CODE, code)?;
    put(out, codes::ORIGIN_HOST, identity.host.as_slice())?;
    put(out, codes::ORIGIN_REALM, identity.realm.as_slice())?;
    put_u32(
        out,
        codes::AUTH_APPLICATION_ID,
        applications::CREDIT_CONTROL,
    )
}

/// Appends a number, if there is any.
fn put_number(out: &mut Vec<u8>, code: u32, number: Option<u32>) -> Result<(), AllocError>
    ensures ok { OnOk result (out.new.items ≡ out.old.items ++ flat_map padded (number_avps code number)) }
    ensures grows { OnOk result (Grows (vec_len out.old) (vec_len out.new) 15) }
{
    match number {
        Some(number) => put_u32(out, code, number),
        None => Ok(()),
    }
}

/// The values that a refusal copies from a list.
#[tactic(auto, unfolding(crate::specs::Refusals::taken_from))]
fn taken_from<'a>(avps: &[Avp<'a>]) -> TakenOver<'a>
    ensures { result ≡ taken_from avps.now }
{
    TakenOver {
        session: session_id(avps),
        request_type: number_of(codes::CC_REQUEST_TYPE, avps),
        number: number_of(codes::CC_REQUEST_NUMBER, avps),
    }
}

/// The values that a refusal copies from an update or a termination, by its act.
fn taken_of(kind: &Kind) -> TakenOver<'_>
    ensures { result ≡ taken_of kind.now }
{
    match kind {
        Kind::Update(request) => taken(UPDATE_TYPE, &request.key),
        Kind::Termination(request) => taken(TERMINATION_TYPE, &request.key),
        Kind::TopUp(_) | Kind::Initial { .. } | Kind::Event(_) | Kind::Expiry => nothing(),
    }
}

/// The values of a list that can't be read: none.
fn nothing<'a>() -> TakenOver<'a>
    ensures { result ≡ nothing }
{
    TakenOver {
        session: None,
        request_type: None,
        number: None,
    }
}

/// The values of a request of this type and key: all.
fn taken(request_type: u32, key: &RequestKey) -> TakenOver<'_>
    ensures { result ≡ taken request_type key.now }
{
    TakenOver {
        session: Some(lend_session(&key.sid)),
        request_type: Some(request_type),
        number: Some(key.number),
    }
}

/// The number of the first AVP of a code, if it has four octets.
fn number_of(code: u32, avps: &[Avp<'_>]) -> Option<u32>
    ensures { result ≡ number_of code avps.now }
{
    let avp = first(avps, code)?;
    avp.as_u32().ok()
}
