//! A request, a top-up, or an expiry: it is judged, answered and made; or it is refused, and the held acts stay as they were.

ghost use Rattle.std.specs.Prelude.{◌≡◌, ◌≤◌, true, false, Some, length, option_map, is_some, IfOk, OnOk, OnErr};
ghost use Rattle.dcc_message.specs.declared.length.TheConstants.{HEADER_LENGTH};
ghost use Rattle.dcc_answer.specs.Results.{is_busy};
ghost use Rattle.dcc_credit.specs.Answers.{answer_octets};
ghost use Rattle.dcc_model.specs.Keys.{ticket, is_expiry};
ghost use Rattle.dcc_shard.specs.Shards.{held_in};
ghost use Rattle.dcc_shard.specs.Answers.{answer_at, answer_after, session_of_act, octets_of, IsRefusedBy, IsToldApart, is_judged};
ghost use Rattle.dcc_shard.specs.Answers.{told, told_after, is_judged_top_up, ended, ended_after, is_judged_expiry};
ghost use Rattle.dcc_shard.specs.Stored.{IsKept};
ghost use Rattle.dcc_shard.specs.inner.Books.{IsStepOfBooks};

use crate::answers::{ExpiryAnswer, RequestAnswer, TopUpAnswer};
use crate::kept::KeptBooks;
use dcc_account::Step;
use dcc_act::{Act, Kind, Outcome, SessionId, Sub};
use dcc_answer::{MAX_ANSWER, Proxies, write_busy};
use dcc_credit::{lend_session, write_cca};
use dcc_message::{Header, Identity};
use dcc_model::{acts_come_to_their_own, places_hold};
use dcc_octets::OctetString;
use dcc_store::{Records, StoreFault};
use dcc_tariff::Terms;
use std::alloc::{AllocError, Global};

/// The parts of an answer beside its outcome and the terms: the identity of the server, the header of the request, and the proxies
/// through which the answer goes back.
#[derive(Drop)]
pub(crate) struct Envelope<'a> {
    pub(crate) identity: &'a Identity,
    pub(crate) header: &'a Header,
    pub(crate) proxies: &'a Proxies,
}

/// The session of a request's act.
pub(crate) fn session_of_act(act: &Act) -> Option<&SessionId>
    ensures { option_map (λ session. session.now) result ≡ session_of_act act.now }
{
    match &act.kind {
        Kind::TopUp(_) | Kind::Expiry => None,
        Kind::Initial { request, .. } | Kind::Update(request) | Kind::Termination(request) => {
            Some(&request.key.sid)
        }
        Kind::Event(event) => Some(&event.key.sid),
    }
}

/// A copy of a session, if there is one.
pub(crate) fn copied(session: Option<&SessionId>) -> Result<Option<SessionId>, AllocError>
    ensures { IfOk result (λ copy. copy ≡ option_map (λ session. session.now) session.entry) }
{
    match session {
        Some(session) => Ok(Some(session.copy()?)),
        None => Ok(None),
    }
}

/// Answers a request by the outcome of its act, and makes the act.
pub(crate) fn answer<R: Records>(
    kept: &mut KeptBooks<R>,
    alloc: Global,
    envelope: &Envelope<'_>,
    sub: Sub,
    act: Act,
) -> Result<RequestAnswer, StoreFault>
    ensures answer { IfOk result (λ answer. answer ≡ answer_after envelope.now.identity.now kept.old.books.terms envelope.now.header.now
        envelope.now.proxies.now (held_in kept.old.books.rows sub) act) }
    ensures judged { IfOk result (λ answer. is_judged answer ≡ true) }
    ensures apart { IfOk result IsToldApart }
    ensures bounded { IfOk result (λ answer. length (octets_of answer) ≤ MAX_ANSWER) }
    ensures step { OnOk result (IsStepOfBooks kept.old.books kept.new.books sub act) }
    ensures going { OnOk result ((R.is_stopped kept.old.records ≡ false) × (R.is_stopped kept.new.records ≡ false)) }
    ensures kept { IsKept kept.old.books.terms (held_in kept.old.books.rows) sub act
        (R.may_leave kept.old.records) (R.may_leave kept.new.records) (R.is_stopped kept.old.records) (R.is_stopped kept.new.records)
        (R.faults kept.old.records) (R.faults kept.new.records) }
    ensures err { OnErr result (kept.new.books.rows ≡ kept.old.books.rows) }
    ensures terms { kept.new.books.terms ≡ kept.old.books.terms }
{
    kept.acts_are_kept();
    let ready = kept.prepare(alloc, &sub, act, 1)?;
    match write_answer(alloc, envelope, kept.books().terms(), ready.step()) {
        Ok(answer) => {
            kept.commit(sub, ready)?;
            Ok(answer)
        }
        Err(_) => {
            // By a call: a step that is let go in place is proved part by part.
            drop(ready);
            Err(StoreFault::Memory)
        }
    }
}

/// The answer by the step of a request. The only error is want of memory.
pub(crate) fn write_answer(
    alloc: Global,
    envelope: &Envelope<'_>,
    terms: &Terms,
    step: &Step,
) -> Result<RequestAnswer, AllocError>
    ensures value { IfOk result (λ answer. answer ≡ answer_at (answer_octets envelope.now.identity.now terms.now envelope.now.header.now
        envelope.now.proxies.now step.now.outcome) step.now.place step.now.is_new) }
    ensures judged { IfOk result (λ answer. is_judged answer ≡ true) }
    ensures apart { IfOk result IsToldApart }
    ensures bounded { IfOk result (λ answer. length (octets_of answer) ≤ MAX_ANSWER) }
{
    let octets = write_cca(
        alloc,
        envelope.identity,
        terms,
        envelope.header,
        envelope.proxies,
        step.outcome(),
    )?;
    Ok(answer_with(step, OctetString::from_vec(octets)))
}

/// The answer of these octets, by the place of a step's act.
fn answer_with(step: &Step, octets: OctetString) -> RequestAnswer
    ensures value { result ≡ answer_at octets step.now.place step.now.is_new }
    ensures judged { is_judged result ≡ true }
    ensures apart { is_busy octets ≡ false → HEADER_LENGTH ≤ length octets → IsToldApart result }
    ensures octets { octets_of result ≡ octets }
{
    answer_placed(octets, step.place(), step.is_new())
}

/// The answer of these octets, by the place of their act, and by whether the act is new. Without a place the subscriber is unknown.
fn answer_placed(octets: OctetString, place: Option<u64>, fresh: bool) -> RequestAnswer
    ensures value { result ≡ answer_at octets place fresh }
    ensures judged { is_judged result ≡ true }
    ensures apart { is_busy octets ≡ false → HEADER_LENGTH ≤ length octets → IsToldApart result }
    ensures octets { octets_of result ≡ octets }
{
    match place {
        Some(place) => RequestAnswer::Done {
            octets,
            place,
            fresh,
        },
        None => RequestAnswer::Unknown { octets },
    }
}

/// The busy answer; no answer if memory is short for it too.
pub(crate) fn busy(
    alloc: Global,
    envelope: &Envelope<'_>,
    session: Option<&SessionId>,
) -> RequestAnswer
    ensures busy { IsRefusedBy envelope.now.identity.now envelope.now.header.now envelope.now.proxies.now
        (option_map (λ session. session.now) session.entry) result }
    ensures judged { is_judged result ≡ false }
    ensures apart { IsToldApart result }
    ensures bounded { length (octets_of result) ≤ MAX_ANSWER }
{
    let busy = write_busy(
        alloc,
        envelope.identity,
        session.map(|sid| lend_session(sid)),
        envelope.header,
        envelope.proxies,
    );
    match busy {
        Ok(octets) => RequestAnswer::Busy {
            octets: OctetString::from_vec(octets),
        },
        Err(_) => RequestAnswer::Silent,
    }
}

/// Makes a top-up, and returns its answer.
pub(crate) fn tell<R: Records>(
    kept: &mut KeptBooks<R>,
    alloc: Global,
    sub: Sub,
    act: Act,
) -> Result<TopUpAnswer, StoreFault>
    requires top_up { is_some (ticket act.kind) ≡ true }
    ensures answer { IfOk result (λ answer. Some answer ≡ told_after kept.old.books.terms (held_in kept.old.books.rows sub) act) }
    ensures judged { IfOk result (λ answer. is_judged_top_up answer ≡ true) }
    ensures step { OnOk result (IsStepOfBooks kept.old.books kept.new.books sub act) }
    ensures going { OnOk result ((R.is_stopped kept.old.records ≡ false) × (R.is_stopped kept.new.records ≡ false)) }
    ensures kept { IsKept kept.old.books.terms (held_in kept.old.books.rows) sub act
        (R.may_leave kept.old.records) (R.may_leave kept.new.records) (R.is_stopped kept.old.records) (R.is_stopped kept.new.records)
        (R.faults kept.old.records) (R.faults kept.new.records) }
    ensures err { OnErr result (kept.new.books.rows ≡ kept.old.books.rows) }
    ensures terms { kept.new.books.terms ≡ kept.old.books.terms }
{
    kept.acts_are_kept();
    let ready = kept.prepare(alloc, &sub, act, 1)?;
    acts_come_to_their_own();
    places_hold();
    let answer = told_by(ready.step()).unwrap();
    kept.commit(sub, ready)?;
    Ok(answer)
}

/// The answer to a top-up by its step; none if the step is not a top-up's.
pub(crate) fn told_by(step: &Step) -> Option<TopUpAnswer>
    ensures { result ≡ told step.now.outcome step.now.place step.now.is_new }
{
    let place = step.place()?;
    let fresh = step.is_new();
    match step.outcome() {
        Outcome::Added => Some(TopUpAnswer::Done { place, fresh }),
        Outcome::Ceiling => Some(TopUpAnswer::Ceiling { place, fresh }),
        _ => None,
    }
}

/// Makes an expiry if it ends a session, and returns its answer.
pub(crate) fn end<R: Records>(
    kept: &mut KeptBooks<R>,
    alloc: Global,
    sub: Sub,
    act: Act,
) -> Result<ExpiryAnswer, StoreFault>
    requires expiry { is_expiry act.kind ≡ true }
    ensures answer { IfOk result (λ answer. Some answer ≡ ended_after kept.old.books.terms (held_in kept.old.books.rows sub) act) }
    ensures judged { IfOk result (λ answer. is_judged_expiry answer ≡ true) }
    ensures step { OnOk result (IsStepOfBooks kept.old.books kept.new.books sub act) }
    ensures going { OnOk result ((R.is_stopped kept.old.records ≡ false) × (R.is_stopped kept.new.records ≡ false)) }
    ensures kept { IsKept kept.old.books.terms (held_in kept.old.books.rows) sub act
        (R.may_leave kept.old.records) (R.may_leave kept.new.records) (R.is_stopped kept.old.records) (R.is_stopped kept.new.records)
        (R.faults kept.old.records) (R.faults kept.new.records) }
    ensures err { OnErr result (kept.new.books.rows ≡ kept.old.books.rows) }
    ensures terms { kept.new.books.terms ≡ kept.old.books.terms }
{
    kept.acts_are_kept();
    let ready = kept.prepare(alloc, &sub, act, 1)?;
    acts_come_to_their_own();
    let answer = ended_by(ready.step()).unwrap();
    kept.commit(sub, ready)?;
    Ok(answer)
}

/// The answer to an expiry by its step; none if the step is not an expiry's.
pub(crate) fn ended_by(step: &Step) -> Option<ExpiryAnswer>
    ensures { result ≡ ended step.now.outcome step.now.place }
{
    let Outcome::Expired { sessions } = step.outcome() else {
        return None;
    };
    match step.place() {
        Some(place) => Some(ExpiryAnswer::Closed {
            sessions: *sessions,
            place,
        }),
        None => Some(ExpiryAnswer::Nothing),
    }
}
