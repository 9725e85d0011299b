//! Sessions: whether a session is open, its deadline, and its grants. Each function looks back over the acts that were
//! made, in order.

ghost use Rattle.std.specs.Prelude.{◌≡◌, ◌∷◌, ◌+◌, ◌≤◌, length, reverse, find, option_map, filter, filter_map, ◌++◌, IfOk};
ghost use Rattle.std.specs.List.{list_any};
ghost use Rattle.std.specs.Option.{option_copied};
ghost use Rattle.dcc_act.specs.Answers.{answer_key};
ghost use Rattle.dcc_act.specs.ServiceKeys.{same_service};
ghost use Rattle.dcc_tariff.specs.declared.limits.TheConstants.{LAST_SECOND, MAX_HOLD};
ghost use Rattle.dcc_model.specs.Results.{answers_of};
ghost use Rattle.dcc_model.specs.Sessions.{opens_by, updates_by, terminates_by, accepted_by, opens, opens_from, updates, terminates, deadline, ends, is_open, was_opened, was_opened_in, open_sessions, session_of, names, made, last_grant, live, named, looked_at, live_of, made_by, goes_on, lives};
ghost use Rattle.dcc_model.specs.Outcomes.{expired};
ghost use Rattle.dcc_model.specs.inner.Lookback.{opened_one, opened_expired, asks_for, reports_of};

use crate::done::Done;
use crate::keys::is_expiry;
use crate::results::{has_succeeded, is_refused};
use dcc_act::{Grant, Kind, Moment, Outcome, Service, ServiceAnswer, ServiceKey, SessionId};
use dcc_octets::Host;
use dcc_tariff::Terms;
use std::alloc::{AllocError, Global};
use std::marker::Model;

/// The session that an act opened.
fn opened(done: &Done) -> Option<&SessionId>
    ensures { option_map (λ sid. sid.now) result ≡ opens_by done.now.act.kind done.now.outcome }
{
    match &done.act.kind {
        Kind::Initial { request, .. } if has_succeeded(&done.outcome) => Some(&request.key.sid),
        _ => None,
    }
}

/// The session of an accepted update.
fn updated(done: &Done) -> Option<&SessionId>
    ensures { option_map (λ sid. sid.now) result ≡ updates_by done.now.act.kind done.now.outcome }
{
    match &done.act.kind {
        Kind::Update(request) if !is_refused(&done.outcome) => Some(&request.key.sid),
        _ => None,
    }
}

/// The session of an accepted termination.
fn terminated(done: &Done) -> Option<&SessionId>
    ensures { option_map (λ sid. sid.now) result ≡ terminates_by done.now.act.kind done.now.outcome }
{
    match &done.act.kind {
        Kind::Termination(request) if !is_refused(&done.outcome) => Some(&request.key.sid),
        _ => None,
    }
}

/// Whether an act opened a session.
fn opens(done: &Done, sid: &SessionId) -> bool
    ensures { result ≡ opens done.now sid.now }
{
    match opened(done) {
        Some(other) => *other == *sid,
        None => false,
    }
}

/// Whether an act opened a session from a host.
fn opens_from(done: &Done, host: &Host, sid: &SessionId) -> bool
    ensures { result ≡ opens_from done.now host.now sid.now }
{
    match &done.act.kind {
        Kind::Initial {
            host: Some(own),
            ..
        } => opens(done, sid) && *own == *host,
        _ => false,
    }
}

/// Whether an act updated a session.
fn updates(done: &Done, sid: &SessionId) -> bool
    ensures { result ≡ updates done.now sid.now }
{
    match updated(done) {
        Some(other) => *other == *sid,
        None => false,
    }
}

/// Whether an act terminated a session.
fn terminates(done: &Done, sid: &SessionId) -> bool
    ensures { result ≡ terminates done.now sid.now }
{
    match terminated(done) {
        Some(other) => *other == *sid,
        None => false,
    }
}

/// The deadline of a session: the plan's hold after the moment of the last act that opened or updated it.
pub(crate) fn deadline(terms: &Terms, past: &[Done], sid: &SessionId) -> u64
    ensures value { result ≡ deadline terms.now (reverse past.now) sid.now }
    ensures bound { result ≤ LAST_SECOND + MAX_HOLD }
{
    let mut deadline = 0;
    for done in past {
        if opens(done, sid) || updates(done, sid) {
            deadline = done.act.moment.seconds() + u64::from(terms.hold);
        }
    }
    deadline
}

/// Whether an act ended a session: a termination, an update that didn't succeed, or an expiry at its deadline or past it.
fn ends(terms: &Terms, past: &[Done], done: &Done, sid: &SessionId) -> bool
    ensures { result ≡ ends terms.now (reverse past.now) done.now sid.now }
{
    terminates(done, sid)
        || (updates(done, sid) && !has_succeeded(&done.outcome))
        || (is_expiry(&done.act.kind) && deadline(terms, past, sid) <= done.act.moment.seconds())
}

/// Whether a session is open: an act opened it, and no act since ended it.
pub(crate) fn is_open(terms: &Terms, past: &[Done], sid: &SessionId) -> bool
    ensures { result ≡ is_open terms.now (reverse past.now) sid.now }
{
    let mut is_open = false;
    for (i, done) in past.iter().enumerate() {
        is_open = opens(done, sid) || (is_open && !ends(terms, &past[..i], done, sid));
    }
    is_open
}

/// Whether any of these acts opened the session. The session may be open or ended.
pub fn was_opened(past: &[Done], sid: &SessionId) -> bool
    ensures { result ≡ was_opened (reverse past.now) sid.now }
{
    past.iter().rev().any(|done| opens(done, sid))
}

/// Whether any of these acts opened the session from a host. The session may be open or ended.
pub(crate) fn was_opened_in(past: &[Done], host: &Host, sid: &SessionId) -> bool
    ensures { result ≡ was_opened_in (reverse past.now) host.now sid.now }
{
    past.iter().rev().any(|done| opens_from(done, host, sid))
}

/// The number of open sessions.
pub(crate) fn count_open(terms: &Terms, past: &[Done]) -> usize
    ensures { result ≡ length (open_sessions terms.now (reverse past.now)) }
{
    let mut count = 0;
    for done in past {
        if opened_one(terms, past, done) {
            count += 1;
        }
    }
    count
}

/// Whether an act opened a session that is open.
fn opened_one(terms: &Terms, past: &[Done], done: &Done) -> bool
    ensures { result ≡ opened_one terms.now (reverse past.now) done.now }
{
    match opened(done) {
        Some(sid) => is_open(terms, past, sid),
        None => false,
    }
}

/// The number of sessions that an expiry at this moment ends.
pub(crate) fn expired(terms: &Terms, past: &[Done], moment: Moment) -> u64
    ensures { result ≡ expired terms.now (reverse past.now) moment }
{
    let mut count = 0;
    for done in past {
        if opened_expired(terms, past, done, moment) {
            count += 1;
        }
    }
    count
}

/// Whether an act opened a session that is open and due at this moment.
fn opened_expired(terms: &Terms, past: &[Done], done: &Done, moment: Moment) -> bool
    ensures { result ≡ opened_expired terms.now (reverse past.now) moment done.now }
{
    match opened(done) {
        Some(sid) => is_open(terms, past, sid) && deadline(terms, past, sid) <= moment.seconds(),
        None => false,
    }
}

/// The session that an act opened, updated or terminated.
fn session_of(done: &Done) -> Option<&SessionId>
    ensures { option_map (λ sid. sid.now) result ≡ session_of done.now }
{
    opened(done).or(accepted(done))
}

/// The session of an accepted update or termination.
pub(crate) fn accepted(done: &Done) -> Option<&SessionId>
    ensures { option_map (λ sid. sid.now) result ≡ accepted_by done.now.act.kind done.now.outcome }
{
    updated(done).or(terminated(done))
}

/// Whether an act names a service of this key, in whatever session.
#[tactic(auto, using(crate::proofs::Services::asked_any, crate::proofs::Services::used_any))]
fn names_service(kind: &Kind, key: ServiceKey) -> bool
    ensures { result ≡ list_any (same_service key) (named (looked_at kind.now)) }
{
    match kind {
        Kind::Initial { request, .. } => asks_for(request.services.as_slice(), key),
        Kind::Update(request) => names_any(request.services.as_slice(), key),
        Kind::Termination(request) => reports_of(request.services.as_slice(), key),
        Kind::TopUp(_) | Kind::Event(_) | Kind::Expiry => false,
    }
}

/// Whether any of these services has this key, and asks for units or reports some.
#[tactic(auto, using(crate::proofs::Services::named_any))]
pub fn names_any(services: &[Service], key: ServiceKey) -> bool
    ensures { result ≡ list_any (same_service key) (named services.now) }
{
    asks_for(services, key) || reports_of(services, key)
}

/// Whether any of these services has this key, and asks for units.
fn asks_for(services: &[Service], key: ServiceKey) -> bool
    ensures { result ≡ list_any (asks_for key) services.now }
{
    services.iter().any(|service| service.asked.is_some() && key.is_same(service.key()))
}

/// Whether any of these services has this key, and reports units.
fn reports_of(services: &[Service], key: ServiceKey) -> bool
    ensures { result ≡ list_any (reports_of key) services.now }
{
    services.iter().any(|service| service.used.is_some() && key.is_same(service.key()))
}

/// Whether an act names a service of a session.
fn names(done: &Done, sid: &SessionId, key: ServiceKey) -> bool
    ensures { result ≡ names done.now sid.now key }
{
    match session_of(done) {
        Some(other) => *other == *sid && names_service(&done.act.kind, key),
        None => false,
    }
}

/// The grant that an act made to a service.
fn made(done: &Done, key: ServiceKey) -> Option<Grant>
    ensures { result ≡ made done.now key }
{
    let Outcome::Answered(answer) = &done.outcome else {
        return None;
    };
    match answer_for(answer.services.as_slice(), key) {
        Some(answer) => answer.grant,
        None => None,
    }
}

/// The first answer for a service of this key.
fn answer_for(answers: &[ServiceAnswer], key: ServiceKey) -> Option<&ServiceAnswer>
    ensures { option_copied result ≡ find (λ answer. same_service (answer_key answer) key) answers.now }
{
    answers.iter().find(|answer| answer.key().is_same(key))
}

/// The grant that the last act which named the service made to it. No act before the opening of the session counts.
fn last_grant(past: &[Done], sid: &SessionId, key: ServiceKey) -> Option<Grant>
    ensures { result ≡ last_grant (reverse past.now) sid.now key }
{
    let mut grant = None;
    for done in past {
        if names(done, sid, key) {
            grant = made(done, key);
        } else if opens(done, sid) {
            grant = None;
        }
    }
    grant
}

/// A service's grant, which is live while its session is open.
pub(crate) fn live(terms: &Terms, past: &[Done], sid: &SessionId, key: ServiceKey) -> Option<Grant>
    ensures { result ≡ live terms.now (reverse past.now) sid.now key }
{
    if is_open(terms, past, sid) {
        last_grant(past, sid, key)
    } else {
        None
    }
}

/// A live grant, with its session and its service.
#[derive(Debug, Drop)]
pub(crate) struct Holding {
    pub(crate) sid: SessionId,
    pub(crate) key: ServiceKey,
    pub(crate) grant: Grant,
}

impl Model for Holding {
    ghost use Rattle.dcc_model.specs.Sessions.{Live};

    ghost Value = { Live };

    ghost view = { λ h. record { sid = h.sid; key = h.key; grant = h.grant } };
}

/// All live grants: those that the last act made, and the earlier ones that go on. The only error is want of memory.
pub(crate) fn lives(alloc: Global, terms: &Terms, past: &[Done]) -> Result<Vec<Holding>, AllocError>
    ensures { IfOk result (λ held. held.items ≡ lives terms.now (reverse past.now)) }
{
    let mut held = Vec::new(alloc);
    for (i, done) in past.iter().enumerate() {
        let made = made_by(alloc, done)?;
        held = with_others(terms, &past[..i], done, made, held)?;
    }
    Ok(held)
}

/// All live grants after these acts and one more. The only error is want of memory.
pub(crate) fn lives_with(
    alloc: Global,
    terms: &Terms,
    past: &[Done],
    done: &Done,
) -> Result<Vec<Holding>, AllocError>
    ensures { IfOk result (λ held. held.items ≡ lives terms.now (done.now ∷ reverse past.now)) }
{
    let made = made_by(alloc, done)?;
    let before = lives(alloc, terms, past)?;
    with_others(terms, past, done, made, before)
}

/// The grants that an act made in its session.
fn made_by(alloc: Global, done: &Done) -> Result<Vec<Holding>, AllocError>
    ensures { IfOk result (λ made. made.items ≡ made_by done.now) }
{
    match session_of(done) {
        None => Ok(Vec::new(alloc)),
        Some(sid) => made_to(alloc, sid, answers_of(&done.outcome)),
    }
}

/// The answers of an outcome to services.
pub fn answers_of(outcome: &Outcome) -> &[ServiceAnswer]
    ensures { result.now ≡ answers_of outcome.now }
{
    match outcome {
        Outcome::Answered(answer) => answer.services.as_slice(),
        _ => &[],
    }
}

/// The grants that answers made to the services of a session.
fn made_to(
    alloc: Global,
    sid: &SessionId,
    answers: &[ServiceAnswer],
) -> Result<Vec<Holding>, AllocError>
    ensures { IfOk result (λ made. made.items ≡ filter_map (live_of sid.now) answers.now) }
{
    let mut made = Vec::new(alloc);
    for answer in answers {
        if let Some(grant) = answer.grant {
            made.push(Holding {
                sid: sid.copy()?,
                key: answer.key(),
                grant,
            })?;
        }
    }
    Ok(made)
}

/// Whether a grant goes on: an act neither ends its session nor names its service.
fn goes_on(terms: &Terms, past: &[Done], done: &Done, held: &Holding) -> bool
    ensures { result ≡ goes_on terms.now (reverse past.now) done.now held.now }
{
    !(ends(terms, past, done, &held.sid) || names(done, &held.sid, held.key))
}

/// The grants that an act made, and the others that go on.
fn with_others(
    terms: &Terms,
    past: &[Done],
    done: &Done,
    mut made: Vec<Holding>,
    mut others: Vec<Holding>,
) -> Result<Vec<Holding>, AllocError>
    ensures { IfOk result (λ held. held.items ≡ made.items ++ filter (goes_on terms.now (reverse past.now) done.now) others.items) }
{
    others.retain(|held| goes_on(terms, past, done, held));
    made.append(&mut others)?;
    Ok(made)
}
