//! From a request to the act that it asks for.

ghost use Rattle.std.specs.Prelude.{◌≡◌, ◌≤◌, true, Some, IsSome, is_some, is_none, length, map, option_map, IfOk};
ghost use Rattle.std.specs.Option.{ForSome};
ghost use Rattle.dcc_tariff.specs.declared.tariff.UnitKind.TheVariants.{Time as Seconds};
ghost use Rattle.dcc_act.specs.declared.act.Kind.TheVariants as kind;
ghost use Rattle.dcc_ccr.specs.declared.request_type.RequestType.TheVariants.{Event};
ghost use Rattle.dcc_ccr.specs.Services.{FitsSeconds};
ghost use Rattle.dcc_credit.specs.Acts.{amount_in, or_instead, quantum_in, session_asks, event_asks, asked_in, service_of, key_of, session_of, event_of, act_of};

use dcc_act::{
    Act, Action, Kind, MAX_IDS, MAX_SECONDS, Moment, OneTimeEvent, RequestKey, Service, ServiceIds,
    Services, SessionId, SessionLimit, SessionRequest,
};
use dcc_ccr::{Amounts, Request, RequestType};
use dcc_octets::Host;
use dcc_tariff::{MAX_UNITS, Plan, UnitKind};
use std::alloc::{AllocError, Global};

/// The act that a request from a peer of this host asks for at a moment (RFC 8506, sections 5 and 6). An initial request keeps the
/// host, and the limit of 1,024 sessions ([`SessionLimit::Many`]).
///
/// Each service is charged by its Rating-Group, or by the plan's default if none was sent. The group gives the unit in which the
/// request's amounts are counted, and the tariff, if the group has any at the moment. A group that the plan doesn't have gives
/// neither unit nor tariff, and then the amounts are 0.
///
/// A service of a session asks for units if it has a Requested-Service-Unit; an amount of 0 stands for the plan's
/// quantum, or for 2^32 - 1 seconds if a quantum of seconds is greater. An event always asks for units; no amount, or
/// 0, stands for 1. The only error is want of memory.
#[tactic(auto, unfolding(crate::specs::Acts::act_of))]
pub fn to_act(
    alloc: Global,
    plan: &Plan,
    request: &Request<'_>,
    host: &Host,
    moment: Moment,
) -> Result<Act, AllocError>
    ensures { IfOk result (λ act. act ≡ act_of plan.now host.now request.now moment) }
{
    let kind = match request.request_type() {
        RequestType::Initial => Kind::Initial {
            request: session_of(alloc, plan, request, moment)?,
            limit: SessionLimit::Many,
            host: Some(host.copy()?),
        },
        RequestType::Update => Kind::Update(session_of(alloc, plan, request, moment)?),
        RequestType::Termination => Kind::Termination(session_of(alloc, plan, request, moment)?),
        RequestType::Event(action) => {
            Kind::Event(event_of(alloc, plan, request, moment, action)?)
        }
    };
    Ok(Act { moment, kind })
}

/// A request of a session.
fn session_of(
    alloc: Global,
    plan: &Plan,
    request: &Request<'_>,
    moment: Moment,
) -> Result<SessionRequest, AllocError>
    ensures { IfOk result (λ session. session ≡ session_of plan.now moment request.now) }
{
    Ok(SessionRequest {
        key: key_of(alloc, request)?,
        services: services_of(alloc, plan, request, moment)?,
    })
}

/// A one-time event, which has one service.
fn event_of(
    alloc: Global,
    plan: &Plan,
    request: &Request<'_>,
    moment: Moment,
    action: Action,
) -> Result<OneTimeEvent, AllocError>
    requires { request.now.type ≡ Event action }
    ensures { IfOk result (λ event. event ≡ event_of plan.now moment request.now action) }
{
    let [service] = request.services() else {
        unreachable!();
    };
    Ok(OneTimeEvent {
        key: key_of(alloc, request)?,
        action,
        service: service_of(alloc, plan, moment, RequestType::Event(action), service)?,
    })
}

/// The session and the number of a request.
fn key_of(alloc: Global, request: &Request<'_>) -> Result<RequestKey, AllocError>
    ensures { IfOk result (λ key. key ≡ key_of request.now) }
{
    let sid = SessionId::from_slice(alloc, request.session())?;
    Ok(RequestKey {
        sid: sid.unwrap(),
        number: request.number(),
    })
}

/// The services of a request, in their order.
fn services_of(
    alloc: Global,
    plan: &Plan,
    request: &Request<'_>,
    moment: Moment,
) -> Result<Services, AllocError>
    ensures { IfOk result (λ services. services ≡ map (service_of plan.now moment request.now.type) request.now.services) }
{
    let kind = request.request_type();
    let services = request.services();
    let mut made = Vec::with_capacity(alloc, services.len())?;
    for service in services {
        made.push(service_of(alloc, plan, moment, kind, service)?)?;
    }
    Ok(Services::from_vec(made).unwrap())
}

/// A service of a request of this type, with the unit and the tariff that the plan has for its group at a moment.
fn service_of(
    alloc: Global,
    plan: &Plan,
    moment: Moment,
    kind: RequestType,
    service: &dcc_ccr::Service,
) -> Result<Service, AllocError>
    requires { length service.now.ids ≤ MAX_IDS }
    ensures { IfOk result (λ made. made ≡ service_of plan.now moment kind service.now) }
{
    let group = service.group().unwrap_or(plan.default_group());
    let unit = plan.unit(group);
    let ids = service.ids().to_vec(alloc)?;
    Ok(Service {
        group: service.group(),
        ids: ServiceIds::from_vec(ids).unwrap(),
        form: service.form(),
        asked: asked_in(kind, plan, unit, service.asked()),
        used: used_in(unit, service.used()),
        unit,
        tariff: plan.at(group, moment.seconds()).map(|found| found.1),
    })
}

/// The units that a service asks for in a group's unit, in a request of this type.
fn asked_in(
    kind: RequestType,
    plan: &Plan,
    unit: Option<UnitKind>,
    asked: Option<Amounts>,
) -> Option<u64>
    requires { FitsSeconds asked }
    ensures value { result ≡ asked_in kind plan.now unit asked }
    ensures in_range { ForSome result (λ units. units ≤ MAX_UNITS) }
    ensures some { is_some unit ≡ true → ForSome result (λ units. 1 ≤ units) }
    ensures seconds { unit ≡ Some Seconds → ForSome result (λ units. units ≤ MAX_SECONDS) }
    ensures unrated { is_none unit ≡ true → ForSome result (λ units. units ≡ 0) }
{
    if kind.is_event() {
        return Some(event_asks(unit, asked));
    }
    match asked {
        Some(amounts) => Some(session_asks(plan, unit, amounts)),
        None => None,
    }
}

/// The units that a service of a session asks for in a group's unit: 0 stands for the plan's quantum.
fn session_asks(plan: &Plan, unit: Option<UnitKind>, amounts: Amounts) -> u64
    requires { amounts.time ≤ MAX_SECONDS }
    ensures value { result ≡ session_asks plan.now unit amounts }
    ensures in_range { result ≤ MAX_UNITS }
    ensures some { is_some unit ≡ true → 1 ≤ result }
    ensures seconds { unit ≡ Some Seconds → result ≤ MAX_SECONDS }
    ensures unrated { is_none unit ≡ true → result ≡ 0 }
{
    match unit {
        None => 0,
        Some(counted) => or_instead(amount_in(unit, amounts), quantum_in(plan, counted)),
    }
}

/// The amount for which 0 stands in a session: the plan's quantum, in seconds at most 2^32 - 1.
fn quantum_in(plan: &Plan, counted: UnitKind) -> u64
    ensures value { result ≡ quantum_in plan.now counted }
    ensures some { 1 ≤ result }
    ensures in_range { result ≤ MAX_UNITS }
    ensures seconds { counted ≡ Seconds → result ≤ MAX_SECONDS }
{
    match counted {
        UnitKind::Octets | UnitKind::Units => plan.quantum(),
        UnitKind::Time => plan.quantum().min(MAX_SECONDS),
    }
}

/// The units that a one-time event asks for in a group's unit: no amount, or 0, stands for 1.
fn event_asks(unit: Option<UnitKind>, asked: Option<Amounts>) -> u64
    requires { FitsSeconds asked }
    ensures value { result ≡ event_asks unit asked }
    ensures in_range { result ≤ MAX_UNITS }
    ensures some { is_some unit ≡ true → 1 ≤ result }
    ensures seconds { unit ≡ Some Seconds → result ≤ MAX_SECONDS }
    ensures unrated { is_none unit ≡ true → result ≡ 0 }
{
    match (unit, asked) {
        (None, _) => 0,
        (Some(_), None) => 1,
        (Some(_), Some(amounts)) => or_instead(amount_in(unit, amounts), 1),
    }
}

/// An amount asked for, or another in place of 0.
fn or_instead(n: u64, other: u64) -> u64
    ensures { result ≡ or_instead n other }
{
    if n == 0 { other } else { n }
}

/// The units that are reported as used in a group's unit, if any are reported.
fn used_in(unit: Option<UnitKind>, used: Option<Amounts>) -> Option<u64>
    ensures value { result ≡ option_map (amount_in unit) used }
    ensures in_range { ForSome result (λ units. units ≤ MAX_UNITS) }
    ensures unrated { is_none unit ≡ true → ForSome result (λ units. units ≡ 0) }
{
    match used {
        Some(amounts) => Some(amount_in(unit, amounts)),
        None => None,
    }
}

/// The amount in a group's unit, out of the amounts that were sent.
fn amount_in(unit: Option<UnitKind>, amounts: Amounts) -> u64
    ensures value { result ≡ amount_in unit amounts }
    ensures in_range { result ≤ MAX_UNITS }
    ensures unrated { is_none unit ≡ true → result ≡ 0 }
{
    match unit {
        None => 0,
        Some(UnitKind::Octets) => amounts.octets(),
        Some(UnitKind::Time) => amounts.time(),
        Some(UnitKind::Units) => amounts.units(),
    }
}
