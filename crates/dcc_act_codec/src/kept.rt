//! The limits that every act keeps by its types. Each function does nothing, and has them as its contract.

ghost use Rattle.std.specs.Prelude.{◌≡◌, ◌<◌, ◌^◌, All, IfSome};
ghost use Rattle.dcc_tariff.specs.Terms.{IsTariff};
ghost use Rattle.dcc_act_codec.specs.Limits.{WithinTopUp, WithinKey, WithinService, WithinRequest, WithinHost, WithinOpening, WithinEvent, WithinKind, IsAct};

use dcc_act::{Act, Kind, OneTimeEvent, RequestKey, Service, SessionRequest, TopUp};
use dcc_octets::Host;
use dcc_tariff::Tariff;

/// Every act is within its limits.
pub fn keeps_limits(act: &Act)
    ensures { IsAct act.now }
{
    let _moment = act.moment.seconds();
    kind_keeps_limits(&act.kind);
}

/// The kind of an act is within its limits.
fn kind_keeps_limits(kind: &Kind)
    ensures { WithinKind kind.now }
{
    match kind {
        Kind::TopUp(top_up) => top_up_keeps_limits(top_up),
        Kind::Initial { request, host, .. } => opening_keeps_limits(request, host),
        Kind::Update(request) => request_keeps_limits(request),
        Kind::Termination(request) => request_keeps_limits(request),
        Kind::Event(event) => event_keeps_limits(event),
        Kind::Expiry => {}
    }
}

/// A top-up is within its limits.
fn top_up_keeps_limits(top_up: &TopUp)
    ensures { WithinTopUp top_up.now }
{
    let _ticket = top_up.ticket;
    let _amount = top_up.amount;
}

/// A request of a session is within its limits.
fn request_keeps_limits(request: &SessionRequest)
    ensures { WithinRequest request.now }
{
    key_keeps_limits(&request.key);
    each_keeps_limits(request.services.as_slice());
}

/// An initial request is within its limits.
fn opening_keeps_limits(request: &SessionRequest, host: &Option<Host>)
    ensures { WithinOpening request.now host.now }
{
    request_keeps_limits(request);
    host_keeps_limits(host);
}

/// A host, if it is known, is within its limits.
fn host_keeps_limits(host: &Option<Host>)
    ensures { IfSome host.now WithinHost }
{
    if let Some(host) = host {
        octets_fit(host.as_slice());
    }
}

/// A one-time event is within its limits.
fn event_keeps_limits(event: &OneTimeEvent)
    ensures { WithinEvent event.now }
{
    key_keeps_limits(&event.key);
    service_keeps_limits(&event.service);
}

/// A key is within its limits.
fn key_keeps_limits(key: &RequestKey)
    ensures { WithinKey key.now }
{
    octets_fit(key.sid.as_slice());
    let _number = key.number;
}

/// Each octet is below 2^8.
fn octets_fit(octets: &[u8])
    ensures { All (λ octet. octet < 2 ^ 8) octets.now }
{}

/// Each service is within its limits.
fn each_keeps_limits(services: &[Service])
    ensures { All WithinService services.now }
{
    for service in services {
        service_keeps_limits(service);
    }
}

/// A service is within its limits.
fn service_keeps_limits(service: &Service)
    ensures { WithinService service.now }
{
    group_fits(service.group);
    ids_fit(service.ids.as_slice());
    tariff_keeps_limits(service.tariff);
}

/// A group, if there is one, is of 32 bits.
fn group_fits(group: Option<u32>)
    ensures { IfSome group (λ group. group < 2 ^ 32) }
{}

/// Identifiers are of 32 bits.
fn ids_fit(ids: &[u32])
    ensures { All (λ id. id < 2 ^ 32) ids.now }
{}

/// A tariff, if there is one, is within its limits.
fn tariff_keeps_limits(tariff: Option<Tariff>)
    ensures { IfSome tariff IsTariff }
{
    if let Some(tariff) = tariff {
        let _price = tariff.price;
    }
}
