//! The answer to a request.

ghost use Rattle.std.specs.Prelude.{◌≡◌, ◌≤◌, ◌++◌, true, false, length, vec_len, IfOk, OnOk};
ghost use Rattle.std.specs.List.{flat_map};
ghost use Rattle.dcc_octets.specs.Names.{is_short};
ghost use Rattle.dcc_avp.specs.Spelling.{padded};
ghost use Rattle.dcc_act.specs.Answers.{AreAnswers};
ghost use Rattle.dcc_answer.specs.Answers.{IsServer};
ghost use Rattle.dcc_answer.specs.Proxies.{SpellProxies};
ghost use Rattle.dcc_answer.specs.Results.{is_busy};
ghost use Rattle.dcc_answer.specs.Sizes.{Grows};
ghost use Rattle.dcc_credit.specs.Answers.{head_avps, told_avps, answer_avps, answer_octets};
ghost use Rattle.dcc_credit.specs.inner.Limits.{IsAnswerable};

use crate::services::{put_finals, put_services, put_validities};
use crate::told::{put_balance, put_cost};
use dcc_act::{Answer, Outcome, RequestKey, RequestType};
use dcc_answer::{
    MAX_ANSWER, MAX_OWN, Proxies, begin_answer, busy_by_result, finish_answer, put, put_u32,
};
use dcc_avp::codes;
use dcc_message::{HEADER_LENGTH, Header, Identity, applications};
use dcc_tariff::Terms;
use std::alloc::{AllocError, Global};

/// DIAMETER_USER_UNKNOWN (RFC 8506, section 9.2): there is no account.
pub const USER_UNKNOWN: u32 = 5030;

/// Writes the answer of an outcome to a request, under the request's identifiers and P bit, with its Proxy-Info at the
/// end. The answer is not the busy one. The only error is want of memory.
pub fn write_cca(
    alloc: Global,
    identity: &Identity,
    terms: &Terms,
    request: &Header,
    proxies: &Proxies,
    outcome: &Outcome,
) -> Result<Vec<u8>, AllocError>
    ensures exact { IfOk result (λ answer. answer.items ≡ answer_octets identity.now terms.now request.now proxies.now outcome.now) }
    ensures not_busy { IfOk result (λ answer. is_busy answer.items ≡ false) }
    ensures some { IfOk result (λ answer. HEADER_LENGTH ≤ length answer.items) }
    ensures bounded { IfOk result (λ answer. length answer.items ≤ MAX_ANSWER) }
{
    dcc_avp::read_back();
    busy_by_result();
    answer_within(alloc, identity, terms, request, proxies, outcome)
}

/// The answer of an outcome, and what is known of its parts.
#[tactic(auto, unfolding(crate::specs::Answers::answer_octets))]
fn answer_within(
    alloc: Global,
    identity: &Identity,
    terms: &Terms,
    request: &Header,
    proxies: &Proxies,
    outcome: &Outcome,
) -> Result<Vec<u8>, AllocError>
    ensures exact { IfOk result (λ answer. answer.items ≡ answer_octets identity.now terms.now request.now proxies.now outcome.now) }
    ensures bounded { IfOk result (λ answer. length answer.items ≤ MAX_ANSWER) }
    ensures limits { OnOk result (IsAnswerable identity.now outcome.now) }
    ensures spelled { OnOk result (SpellProxies proxies.now) }
{
    let mut answer = begin_answer(alloc)?;
    put_answer(&mut answer, identity, terms, outcome)?;
    finish_answer(answer, request, 0, proxies)
}

/// Appends the AVPs of an answer.
#[tactic(auto, unfolding(crate::specs::Answers::answer_avps))]
fn put_answer(
    out: &mut Vec<u8>,
    identity: &Identity,
    terms: &Terms,
    outcome: &Outcome,
) -> Result<(), AllocError>
    ensures ok { OnOk result (out.new.items ≡ out.old.items ++ flat_map padded (answer_avps identity.now terms.now outcome.now)) }
    ensures limits { OnOk result (IsAnswerable identity.now outcome.now) }
    ensures grows { OnOk result (Grows (vec_len out.old) (vec_len out.new) MAX_OWN) }
{
    match outcome {
        Outcome::Unknown { request, key } => put_head(out, identity, *request, key, USER_UNKNOWN),
        Outcome::Answered(answer) => {
            put_head(
                out,
                identity,
                answer.request,
                &answer.key,
                answer.result.number(),
            )?;
            put_told(out, terms, answer)
        }
        Outcome::Added | Outcome::Ceiling | Outcome::Expired { .. } => Ok(()),
    }
}

/// Appends the AVPs of an answer behind its beginning.
fn put_told(out: &mut Vec<u8>, terms: &Terms, answer: &Answer) -> Result<(), AllocError>
    ensures ok { OnOk result (out.new.items ≡ out.old.items ++ flat_map padded (told_avps terms.now answer.now)) }
    ensures limits { AreAnswers answer.now.services }
    ensures grows { OnOk result (Grows (vec_len out.old) (vec_len out.new) 92_000) }
{
    put_services(out, answer.request, terms, &answer.services)?;
    put_cost(out, terms, answer.cost)?;
    put_finals(out, &answer.services)?;
    put_balance(out, answer.balance)?;
    put_validities(out, answer.request, terms, &answer.services)
}

/// Appends the AVPs with which each answer to a request begins.
fn put_head(
    out: &mut Vec<u8>,
    identity: &Identity,
    request: RequestType,
    key: &RequestKey,
    code: u32,
) -> Result<(), AllocError>
    ensures ok { OnOk result (out.new.items ≡ out.old.items ++ flat_map padded (head_avps identity.now request key.now code)) }
    ensures server { OnOk result (IsServer identity.now) }
    ensures session { OnOk result (is_short key.now.sid ≡ true) }
    ensures grows { OnOk result (Grows (vec_len out.old) (vec_len out.new) 900) }
{
    put(out, codes::SESSION_ID, key.sid.as_slice())?;
    put_u32(out, codes::RESULT_CODE, code)?;
    put(out, codes::ORIGIN_HOST, identity.host.as_slice())?;
    put(out, codes::ORIGIN_REALM, identity.realm.as_slice())?;
    put_u32(
        out,
        codes::AUTH_APPLICATION_ID,
        applications::CREDIT_CONTROL,
    )?;
    put_u32(out, codes::CC_REQUEST_TYPE, request.number())?;
    put_u32(out, codes::CC_REQUEST_NUMBER, key.number)
}
