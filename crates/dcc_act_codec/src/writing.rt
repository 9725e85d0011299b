//! Writing a record.

ghost use Rattle.std.specs.Prelude.{◌≡◌, ◌++◌, ◌∷◌, [], ◌≤◌, ◌<◌, ◌^◌, length, OnOk, IfOk};
ghost use Rattle.dcc_act.specs.declared.limits.TheConstants.{MAX_IDS, MAX_SERVICES};
ghost use Rattle.dcc_act_codec.specs.Records.{u32_octets, u64_octets, optional, session_octets, key_octets, ids_octets, tariff_octets, service_octets, services_octets, request_octets, limit_octets, host_octets, opening_octets, event_octets, top_up_octets, form_octet, unit_octet, action_octet, kind_octet, kind_octets, record_of};

use dcc_act::{
    Act, Action, Form, Kind, OneTimeEvent, RequestKey, Service, ServiceIds, Services, SessionId,
    SessionLimit, SessionRequest, TopUp,
};
use dcc_octets::Host;
use dcc_tariff::{Tariff, UnitKind};
use std::alloc::{AllocError, Global};

/// The version of a record's format.
pub(crate) const VERSION: u8 = 2;

/// The record of an act, version 2. The only error is want of memory.
#[tactic(auto, unfolding(crate::specs::Records::record_of))]
pub fn write_act(alloc: Global, act: &Act) -> Result<Vec<u8>, AllocError>
    ensures { IfOk result (λ octets. octets.items ≡ record_of act.now) }
{
    let mut out = Vec::new(alloc);
    put_head(&mut out, VERSION, act)?;
    put_kind(&mut out, &act.kind)?;
    Ok(out)
}

/// Appends a version, the octet of the act's kind, and the act's moment.
pub(crate) fn put_head(out: &mut Vec<u8>, version: u8, act: &Act) -> Result<(), AllocError>
    ensures { OnOk result (out.new.items ≡ out.old.items ++ version ∷ kind_octet act.now.kind ∷ u64_octets act.now.moment) }
{
    out.push(version)?;
    out.push(kind_octet(&act.kind))?;
    put_u64(out, act.moment.seconds())
}

/// The octet that stands for a kind.
fn kind_octet(kind: &Kind) -> u8
    ensures { result ≡ kind_octet kind.now }
{
    match kind {
        Kind::TopUp(_) => 1,
        Kind::Initial { .. } => 2,
        Kind::Update(_) => 3,
        Kind::Termination(_) => 4,
        Kind::Event(_) => 5,
        Kind::Expiry => 6,
    }
}

/// Appends the parts of a kind.
pub(crate) fn put_kind(out: &mut Vec<u8>, kind: &Kind) -> Result<(), AllocError>
    ensures { OnOk result (out.new.items ≡ out.old.items ++ kind_octets kind.now) }
{
    match kind {
        Kind::TopUp(top_up) => put_top_up(out, *top_up),
        Kind::Initial {
            request,
            limit,
            host,
        } => put_opening(out, request, *limit, host),
        Kind::Update(request) => put_request(out, request),
        Kind::Termination(request) => put_request(out, request),
        Kind::Event(event) => put_event(out, event),
        Kind::Expiry => Ok(()),
    }
}

/// Appends a top-up.
#[tactic(auto, unfolding(crate::specs::Records::top_up_octets))]
fn put_top_up(out: &mut Vec<u8>, top_up: TopUp) -> Result<(), AllocError>
    ensures { OnOk result (out.new.items ≡ out.old.items ++ top_up_octets top_up) }
{
    put_u64(out, top_up.ticket)?;
    put_u64(out, top_up.amount)
}

/// Appends a request of a session.
#[tactic(auto, unfolding(crate::specs::Records::request_octets))]
pub(crate) fn put_request(out: &mut Vec<u8>, request: &SessionRequest) -> Result<(), AllocError>
    ensures { OnOk result (out.new.items ≡ out.old.items ++ request_octets request.now) }
{
    put_key(out, &request.key)?;
    put_services(out, request.services.as_slice())
}

/// Appends an initial request.
#[tactic(auto, unfolding(crate::specs::Records::opening_octets))]
fn put_opening(
    out: &mut Vec<u8>,
    request: &SessionRequest,
    limit: SessionLimit,
    host: &Option<Host>,
) -> Result<(), AllocError>
    ensures { OnOk result (out.new.items ≡ out.old.items ++ opening_octets request.now limit host.now) }
{
    put_key(out, &request.key)?;
    put_limit(out, limit)?;
    put_host(out, host)?;
    put_services(out, request.services.as_slice())
}

/// Appends the limit of open sessions.
#[tactic(auto, unfolding(crate::specs::Records::limit_octets))]
fn put_limit(out: &mut Vec<u8>, limit: SessionLimit) -> Result<(), AllocError>
    ensures { OnOk result (out.new.items ≡ out.old.items ++ limit_octets limit) }
{
    out.extend_from_slice(&(limit.sessions() as u16).to_be_bytes())
}

/// Appends the name of a host behind its length; the length 0 if there is no host.
#[tactic(auto, unfolding(crate::specs::Records::host_octets))]
fn put_host(out: &mut Vec<u8>, host: &Option<Host>) -> Result<(), AllocError>
    ensures { OnOk result (out.new.items ≡ out.old.items ++ host_octets host.now) }
{
    match host {
        None => Ok(out.push(0)?),
        Some(host) => {
            let name = host.as_slice();
            out.push(name.len() as u8)?;
            out.extend_from_slice(name)
        }
    }
}

/// Appends a one-time event, which has one service.
#[tactic(auto, unfolding(crate::specs::Records::event_octets, crate::specs::Records::services_octets))]
fn put_event(out: &mut Vec<u8>, event: &OneTimeEvent) -> Result<(), AllocError>
    ensures { OnOk result (out.new.items ≡ out.old.items ++ event_octets event.now) }
{
    put_key(out, &event.key)?;
    out.push(action_octet(event.action))?;
    out.push(1)?;
    put_service(out, &event.service)
}

/// Appends a key: a Session-Id, and the number of the request.
#[tactic(auto, unfolding(crate::specs::Records::key_octets))]
fn put_key(out: &mut Vec<u8>, key: &RequestKey) -> Result<(), AllocError>
    ensures { OnOk result (out.new.items ≡ out.old.items ++ key_octets key.now) }
{
    put_session(out, &key.sid)?;
    put_u32(out, key.number)
}

/// Appends a Session-Id behind its length.
#[tactic(auto, unfolding(crate::specs::Records::session_octets))]
fn put_session(out: &mut Vec<u8>, sid: &SessionId) -> Result<(), AllocError>
    ensures { OnOk result (out.new.items ≡ out.old.items ++ session_octets sid.now) }
{
    let octets = sid.as_slice();
    out.push(octets.len() as u8)?;
    out.extend_from_slice(octets)
}

/// Appends services behind their count.
#[tactic(auto, unfolding(crate::specs::Records::services_octets))]
fn put_services(out: &mut Vec<u8>, services: &[Service]) -> Result<(), AllocError>
    requires { length services.now ≤ MAX_SERVICES }
    ensures { OnOk result (out.new.items ≡ out.old.items ++ services_octets services.now) }
{
    out.push(services.len() as u8)?;
    for service in services {
        put_service(out, service)?;
    }
    Ok(())
}

/// Appends a service.
#[tactic(auto, unfolding(crate::specs::Records::service_octets))]
fn put_service(out: &mut Vec<u8>, service: &Service) -> Result<(), AllocError>
    ensures { OnOk result (out.new.items ≡ out.old.items ++ service_octets service.now) }
{
    out.push(form_octet(service.form))?;
    put_optional_u32(out, service.group)?;
    put_ids(out, service.ids.as_slice())?;
    put_optional_u64(out, service.asked)?;
    put_optional_u64(out, service.used)?;
    out.push(unit_octet(service.unit))?;
    put_optional_tariff(out, service.tariff)
}

/// The octet that stands for a form.
fn form_octet(form: Form) -> u8
    ensures { result ≡ form_octet form }
{
    match form {
        Form::Single => 0,
        Form::Multi => 1,
    }
}

/// The octet that stands for the unit that a plan counts; 0 if the plan doesn't have the group.
fn unit_octet(unit: Option<UnitKind>) -> u8
    ensures { result ≡ unit_octet unit }
{
    match unit {
        None => 0,
        Some(UnitKind::Octets) => 1,
        Some(UnitKind::Time) => 2,
        Some(UnitKind::Units) => 3,
    }
}

/// The octet that stands for an action.
fn action_octet(action: Action) -> u8
    ensures { result ≡ action_octet action }
{
    match action {
        Action::DirectDebiting => 0,
        Action::RefundAccount => 1,
        Action::CheckBalance => 2,
        Action::PriceEnquiry => 3,
    }
}

/// Appends identifiers behind their count.
#[tactic(auto, unfolding(crate::specs::Records::ids_octets))]
fn put_ids(out: &mut Vec<u8>, ids: &[u32]) -> Result<(), AllocError>
    requires { length ids.now ≤ MAX_IDS }
    ensures { OnOk result (out.new.items ≡ out.old.items ++ ids_octets ids.now) }
{
    out.extend_from_slice(&(ids.len() as u16).to_be_bytes())?;
    for id in ids {
        put_u32(out, *id)?;
    }
    Ok(())
}

/// Appends a number of four octets that may be absent.
fn put_optional_u32(out: &mut Vec<u8>, number: Option<u32>) -> Result<(), AllocError>
    ensures { OnOk result (out.new.items ≡ out.old.items ++ optional u32_octets number) }
{
    match number {
        None => Ok(out.push(0)?),
        Some(number) => {
            out.push(1)?;
            put_u32(out, number)
        }
    }
}

/// Appends a number of eight octets that may be absent.
fn put_optional_u64(out: &mut Vec<u8>, number: Option<u64>) -> Result<(), AllocError>
    ensures { OnOk result (out.new.items ≡ out.old.items ++ optional u64_octets number) }
{
    match number {
        None => Ok(out.push(0)?),
        Some(number) => {
            out.push(1)?;
            put_u64(out, number)
        }
    }
}

/// Appends a tariff that may be absent.
fn put_optional_tariff(out: &mut Vec<u8>, tariff: Option<Tariff>) -> Result<(), AllocError>
    ensures { OnOk result (out.new.items ≡ out.old.items ++ optional tariff_octets tariff) }
{
    match tariff {
        None => Ok(out.push(0)?),
        Some(tariff) => {
            out.push(1)?;
            put_tariff(out, tariff)
        }
    }
}

/// Appends a tariff.
#[tactic(auto, unfolding(crate::specs::Records::tariff_octets))]
fn put_tariff(out: &mut Vec<u8>, tariff: Tariff) -> Result<(), AllocError>
    ensures { OnOk result (out.new.items ≡ out.old.items ++ tariff_octets tariff) }
{
    put_u32(out, tariff.price)?;
    put_u64(out, tariff.block)
}

/// Appends a number of four octets.
fn put_u32(out: &mut Vec<u8>, number: u32) -> Result<(), AllocError>
    ensures { OnOk result (out.new.items ≡ out.old.items ++ u32_octets number) }
{
    out.extend_from_slice(&number.to_be_bytes())
}

/// Appends a number of eight octets.
fn put_u64(out: &mut Vec<u8>, number: u64) -> Result<(), AllocError>
    ensures { OnOk result (out.new.items ≡ out.old.items ++ u64_octets number) }
{
    out.extend_from_slice(&number.to_be_bytes())
}
