//! The outcome of a request of a session.

ghost use Rattle.std.specs.Prelude.{◌≡◌, ◌≤◌, neg_ℤ, ◌≤ℤ◌, length, find, sum_by, option_map, IfOk};
ghost use Rattle.dcc_act.specs.Services.{ServiceView};
ghost use Rattle.dcc_act.specs.declared.limits.TheConstants.{MAX_SERVICES, MAX_IDS};
ghost use Rattle.dcc_state.specs.OpenSessions.{session_in, own_in, own_by};
ghost use Rattle.dcc_state.specs.inner.Grants.{served_in};
ghost use Rattle.dcc_state.specs.inner.Judged.{is_open_in, begun_in, reported_in};

use crate::facts::Facts;
use crate::granting::answers;
use crate::grants::charges;
use crate::limits::FARTHEST;
use crate::open_session::OpenSession;
use dcc_act::{
    Kind, Looks, Outcome, RequestKey, RequestType, ResultCode, Service, SessionId, SessionLimit,
};
use dcc_model::{CEILING, answered, bare, is_below_floor};
use dcc_session::Held;
use std::alloc::{AllocError, Global};

/// The session of this name among these.
fn session<'a>(sessions: &'a [OpenSession], sid: &SessionId) -> Option<&'a OpenSession>
    ensures { option_map (λ session. session.now) result ≡ session_in sessions.now sid.now }
{
    sessions.iter().find(|session| session.sid == *sid)
}

/// Whether the session of this name is open.
fn is_open(sessions: &[OpenSession], sid: &SessionId) -> bool
    ensures { result ≡ is_open_in sessions.now sid.now }
{
    session(sessions, sid).is_some()
}

/// Whether the session of this name is open. Its own grants are tested first: a session with live grants is open, so that
/// only a session without grants is searched in the list.
fn is_open_with(sessions: &[OpenSession], own: &[Held], sid: &SessionId) -> bool
    requires own { own.now ≡ own_in sessions.now sid.now }
    ensures { result ≡ is_open_in sessions.now sid.now }
{
    !own.is_empty() || is_open(sessions, sid)
}

/// The grants of the session of this name. Each is one look.
fn own<'a>(sessions: &'a [OpenSession], sid: &SessionId, looks: &mut Looks) -> &'a [Held]
    requires { looks.old ≡ 0 }
    ensures value { result.now ≡ own_in sessions.now sid.now }
    ensures looks { looks.new ≡ length (own_in sessions.now sid.now) }
{
    match session(sessions, sid) {
        Some(session) => session.grants(looks),
        None => &[],
    }
}

/// The grants of the session of a request. Each is one look.
pub(crate) fn own_of<'a>(sessions: &'a [OpenSession], kind: &Kind, looks: &mut Looks) -> &'a [Held]
    requires { looks.old ≡ 0 }
    ensures value { result.now ≡ own_by sessions.now kind.now }
    ensures looks { looks.new ≡ length (own_by sessions.now kind.now) }
{
    match kind {
        Kind::Initial { request, .. } | Kind::Update(request) | Kind::Termination(request) => {
            own(sessions, &request.key.sid, looks)
        }
        Kind::TopUp(_) | Kind::Event(_) | Kind::Expiry => &[],
    }
}

/// The outcome of an initial request: a session opens once, and only while fewer are open than the request's limit.
pub(crate) fn begun(
    alloc: Global,
    facts: &Facts,
    sessions: &[OpenSession],
    own: &[Held],
    key: &RequestKey,
    limit: SessionLimit,
    services: &[Service],
) -> Result<Outcome, AllocError>
    requires few { length services.now ≤ MAX_SERVICES }
    requires few_ids { sum_by (λ (service : ServiceView). length service.ids) services.now ≤ MAX_IDS }
    requires free_low { neg_ℤ FARTHEST ≤ℤ facts.now.standing.free }
    requires free_high { facts.now.standing.free ≤ℤ CEILING }
    requires own { own.now ≡ own_in sessions.now key.now.sid }
    ensures { IfOk result (λ outcome. outcome ≡ begun_in facts.now sessions.now key.now limit services.now) }
{
    if facts.was_opened {
        bare(alloc, RequestType::Initial, key, ResultCode::UnableToComply)
    } else if sessions.len() >= limit.sessions() {
        bare(
            alloc,
            RequestType::Initial,
            key,
            ResultCode::ResourcesExceeded,
        )
    } else {
        let free = facts.standing.free;
        served(alloc, free, own, RequestType::Initial, key, services)
    }
}

/// The outcome of an update or a termination: its session has to be open, and the floor has to bear its charges.
pub(crate) fn reported(
    alloc: Global,
    facts: &Facts,
    sessions: &[OpenSession],
    own: &[Held],
    request: RequestType,
    key: &RequestKey,
    services: &[Service],
) -> Result<Outcome, AllocError>
    requires few { length services.now ≤ MAX_SERVICES }
    requires few_ids { sum_by (λ (service : ServiceView). length service.ids) services.now ≤ MAX_IDS }
    requires funds_low { neg_ℤ CEILING ≤ℤ facts.now.standing.funds }
    requires free_low { neg_ℤ FARTHEST ≤ℤ facts.now.standing.free }
    requires free_high { facts.now.standing.free ≤ℤ CEILING }
    requires own { own.now ≡ own_in sessions.now key.now.sid }
    ensures { IfOk result (λ outcome. outcome ≡ reported_in facts.now sessions.now request key.now services.now) }
{
    if !is_open_with(sessions, own, &key.sid) {
        return bare(alloc, request, key, ResultCode::UnknownSession);
    }
    let charged = charges(own, services);
    if is_below_floor(facts.standing.funds - charged) {
        bare(alloc, request, key, ResultCode::UnableToComply)
    } else {
        let free = facts.standing.free;
        served(alloc, free, own, request, key, services)
    }
}

/// The answer to a request whose services are served at so much free money.
fn served(
    alloc: Global,
    free: i128,
    own: &[Held],
    request: RequestType,
    key: &RequestKey,
    services: &[Service],
) -> Result<Outcome, AllocError>
    requires few { length services.now ≤ MAX_SERVICES }
    requires few_ids { sum_by (λ (service : ServiceView). length service.ids) services.now ≤ MAX_IDS }
    requires free_low { neg_ℤ FARTHEST ≤ℤ free }
    requires free_high { free ≤ℤ CEILING }
    ensures { IfOk result (λ outcome. outcome ≡ served_in free own.now request key.now services.now) }
{
    let answers = answers(alloc, free, own, services)?;
    answered(request, key, answers)
}
