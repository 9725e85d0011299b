//! Reading a record: one function for each part, in the order of the parts.

ghost use Rattle.std.specs.Prelude.{◌≡◌, ◌≢◌, ◌<◌, ◌^◌, length, IfOk, IfErr};
ghost use Rattle.std.specs.Int.{w32};
ghost use Rattle.dcc_act_codec.specs.Limits.{IsAct};
ghost use Rattle.dcc_act_codec.specs.Records.{record_of};
ghost use Rattle.dcc_act_codec.specs.inner.Readers.{Gives, number_in, many_in, optional_in};
ghost use Rattle.dcc_act_codec.specs.inner.Reading.{top_up_in, string_in, session_in, key_in, form_in, unit_in, action_in, ids_in, tariff_in, is_service, service_in, services_in, request_in, limit_in, host_in, opening_in, event_in, kind_in, head_in, first_act_in, act_in};

use crate::fault::RecordFault;
use crate::fields::{
    behind_fixed, first_octet, first_octets, first_u16, first_u32, first_u64, optional_u32,
    optional_u64,
};
use crate::limits::{limit_from, service_from, tariff_from};
use crate::writing::VERSION;
use dcc_act::{
    Act, Action, Form, Kind, Moment, OneTimeEvent, RequestKey, Service, ServiceIds, Services,
    SessionId, SessionLimit, SessionRequest, TopUp,
};
use dcc_octets::Host;
use dcc_tariff::{Tariff, UnitKind};
use std::alloc::Global;

/// Reads the record of an act, version 2, which is all of the octets.
///
/// Errors: fault 40, the octets are no act's record; [`RecordFault::Memory`], memory was short for the act.
pub fn read_act(alloc: Global, octets: &[u8]) -> Result<Act, RecordFault>
    // The act that was read has these octets as its record.
    ensures found { IfOk result (λ act. octets.now ≡ record_of act) }
    ensures within { IfOk result IsAct }
    // Octets that are rejected are no act's record.
    ensures refused { IfErr result (λ fault. fault ≡ RecordFault.BadRecord → (act : Act) → IsAct act → record_of act ≢ octets.now) }
{
    act_of(alloc, octets)
}

/// The act of all the octets.
fn act_of(alloc: Global, octets: &[u8]) -> Result<Act, RecordFault>
    ensures { Gives (λ act. act) result (act_in octets.now) }
{
    match first_act(alloc, octets) {
        Ok((act, [])) => Ok(act),
        Ok(_) => Err(RecordFault::BadRecord),
        Err(fault) => Err(fault),
    }
}

/// The act in front.
#[tactic(auto, unfolding(crate::specs::inner::Reading::first_act_in, crate::specs::inner::Reading::act_by))]
fn first_act(alloc: Global, octets: &[u8]) -> Result<(Act, &[u8]), RecordFault>
    ensures { Gives (λ x. (x.0, x.1.now)) result (first_act_in octets.now) }
{
    match first_head(VERSION, octets) {
        Ok((octet, moment, rest)) => {
            let (kind, rest) = first_kind(alloc, octet, rest)?;
            Ok((Act { moment, kind }, rest))
        }
        Err(fault) => Err(fault),
    }
}

/// The octet of the kind, and the moment, behind the version in front.
#[tactic(auto, unfolding(crate::specs::inner::Reading::head_in, crate::specs::inner::Reading::moment_in))]
pub(crate) fn first_head(version: u8, octets: &[u8]) -> Result<(u8, Moment, &[u8]), RecordFault>
    ensures { Gives (λ x. ((x.0, x.1), x.2.now)) result (head_in version octets.now) }
{
    let rest = behind_fixed(version, octets)?;
    let (octet, rest) = first_octet(rest)?;
    let (seconds, rest) = first_u64(rest)?;
    match Moment::new(seconds) {
        Some(moment) => Ok((octet, moment, rest)),
        None => Err(RecordFault::BadRecord),
    }
}

/// The kind that an octet stands for, with its parts in front.
#[tactic(auto, unfolding(crate::specs::inner::Reading::kind_in))]
pub(crate) fn first_kind(
    alloc: Global,
    octet: u8,
    octets: &[u8],
) -> Result<(Kind, &[u8]), RecordFault>
    ensures { Gives (λ x. (x.0, x.1.now)) result (kind_in octet octets.now) }
{
    match octet {
        1 => match first_top_up(octets) {
            Ok((top_up, rest)) => Ok((Kind::TopUp(top_up), rest)),
            Err(fault) => Err(fault),
        },
        2 => first_opening(alloc, octets),
        3 => {
            let (request, rest) = first_request(alloc, octets)?;
            Ok((Kind::Update(request), rest))
        }
        4 => {
            let (request, rest) = first_request(alloc, octets)?;
            Ok((Kind::Termination(request), rest))
        }
        5 => {
            let (event, rest) = first_event(alloc, octets)?;
            Ok((Kind::Event(event), rest))
        }
        6 => Ok((Kind::Expiry, octets)),
        _ => Err(RecordFault::BadRecord),
    }
}

/// The top-up in front.
#[tactic(auto, unfolding(crate::specs::inner::Reading::top_up_in))]
fn first_top_up(octets: &[u8]) -> Result<(TopUp, &[u8]), RecordFault>
    ensures { Gives (λ x. (x.0, x.1.now)) result (top_up_in octets.now) }
{
    let (ticket, rest) = first_u64(octets)?;
    let (amount, rest) = first_u64(rest)?;
    match TopUp::new(ticket, amount) {
        Some(top_up) => Ok((top_up, rest)),
        None => Err(RecordFault::BadRecord),
    }
}

/// The request of a session in front.
#[tactic(auto, unfolding(crate::specs::inner::Reading::request_in))]
pub(crate) fn first_request(
    alloc: Global,
    octets: &[u8],
) -> Result<(SessionRequest, &[u8]), RecordFault>
    ensures { Gives (λ x. (x.0, x.1.now)) result (request_in octets.now) }
{
    let (key, rest) = first_key(alloc, octets)?;
    let (services, rest) = first_services(alloc, rest)?;
    Ok((SessionRequest { key, services }, rest))
}

/// The initial request in front.
#[tactic(auto, unfolding(crate::specs::inner::Reading::opening_in))]
fn first_opening(alloc: Global, octets: &[u8]) -> Result<(Kind, &[u8]), RecordFault>
    ensures { Gives (λ x. (x.0, x.1.now)) result (opening_in octets.now) }
{
    let (key, rest) = first_key(alloc, octets)?;
    let (limit, rest) = first_limit(rest)?;
    let (host, rest) = first_host(alloc, rest)?;
    let (services, rest) = first_services(alloc, rest)?;
    let opening = Kind::Initial {
        request: SessionRequest { key, services },
        limit,
        host,
    };
    Ok((opening, rest))
}

/// The limit of open sessions, in front.
#[tactic(auto, unfolding(crate::specs::inner::Reading::limit_in))]
fn first_limit(octets: &[u8]) -> Result<(SessionLimit, &[u8]), RecordFault>
    ensures { Gives (λ x. (x.0, x.1.now)) result (limit_in octets.now) }
{
    let (sessions, rest) = first_u16(octets)?;
    match limit_from(sessions) {
        Some(limit) => Ok((limit, rest)),
        None => Err(RecordFault::BadRecord),
    }
}

/// The host in front, behind the length of its name; none if the length is 0.
#[tactic(auto, unfolding(crate::specs::inner::Reading::host_in))]
fn first_host(alloc: Global, octets: &[u8]) -> Result<(Option<Host>, &[u8]), RecordFault>
    ensures { Gives (λ x. (x.0, x.1.now)) result (host_in octets.now) }
{
    let (name, rest) = first_string(octets)?;
    match name {
        [] => Ok((None, rest)),
        _ => Ok((Some(Host::of(alloc, name)?), rest)),
    }
}

/// The one-time event in front, which has one service.
#[tactic(auto, unfolding(crate::specs::inner::Reading::event_in))]
fn first_event(alloc: Global, octets: &[u8]) -> Result<(OneTimeEvent, &[u8]), RecordFault>
    ensures { Gives (λ x. (x.0, x.1.now)) result (event_in octets.now) }
{
    let (key, rest) = first_key(alloc, octets)?;
    let (action, rest) = first_action(rest)?;
    let rest = behind_fixed(1, rest)?;
    let (service, rest) = first_service(alloc, rest)?;
    if service.asked.is_none() {
        return Err(RecordFault::BadRecord);
    }
    let event = OneTimeEvent {
        key,
        action,
        service,
    };
    Ok((event, rest))
}

/// The key in front: a Session-Id, and the number of the request.
#[tactic(auto, unfolding(crate::specs::inner::Reading::key_in))]
fn first_key(alloc: Global, octets: &[u8]) -> Result<(RequestKey, &[u8]), RecordFault>
    ensures { Gives (λ x. (x.0, x.1.now)) result (key_in octets.now) }
{
    let (sid, rest) = first_session(alloc, octets)?;
    let (number, rest) = first_u32(rest)?;
    Ok((RequestKey { sid, number }, rest))
}

/// The Session-Id in front, behind its length.
#[tactic(auto, unfolding(crate::specs::inner::Reading::session_in))]
fn first_session(alloc: Global, octets: &[u8]) -> Result<(SessionId, &[u8]), RecordFault>
    ensures { Gives (λ x. (x.0, x.1.now)) result (session_in octets.now) }
{
    let (text, rest) = first_string(octets)?;
    match SessionId::from_slice(alloc, text)? {
        Some(sid) => Ok((sid, rest)),
        None => Err(RecordFault::BadRecord),
    }
}

/// The octets in front, behind their count.
#[tactic(auto, unfolding(crate::specs::inner::Reading::string_in))]
fn first_string(octets: &[u8]) -> Result<(&[u8], &[u8]), RecordFault>
    ensures value { Gives (λ x. (x.0.now, x.1.now)) result (string_in octets.now) }
    ensures short { IfOk result (λ x. length x.0.now < 2 ^ 8) }
{
    let (count, rest) = first_octet(octets)?;
    first_octets(rest, count as usize)
}

/// The action of a one-time event, in front.
#[tactic(auto, unfolding(crate::specs::inner::Reading::action_in))]
fn first_action(octets: &[u8]) -> Result<(Action, &[u8]), RecordFault>
    ensures { Gives (λ x. (x.0, x.1.now)) result (action_in octets.now) }
{
    let (octet, rest) = first_octet(octets)?;
    match octet {
        0 => Ok((Action::DirectDebiting, rest)),
        1 => Ok((Action::RefundAccount, rest)),
        2 => Ok((Action::CheckBalance, rest)),
        3 => Ok((Action::PriceEnquiry, rest)),
        _ => Err(RecordFault::BadRecord),
    }
}

/// The services in front, behind their count.
#[tactic(auto, unfolding(crate::specs::inner::Reading::services_in))]
fn first_services(alloc: Global, octets: &[u8]) -> Result<(Services, &[u8]), RecordFault>
    ensures { Gives (λ x. (x.0, x.1.now)) result (services_in octets.now) }
{
    let (count, rest) = first_octet(octets)?;
    let (services, rest) = many_services(alloc, count, rest)?;
    match Services::from_vec(services) {
        Some(services) => Ok((services, rest)),
        None => Err(RecordFault::BadRecord),
    }
}

/// So many services in front.
fn many_services(
    alloc: Global,
    count: u8,
    octets: &[u8],
) -> Result<(Vec<Service>, &[u8]), RecordFault>
    ensures { Gives (λ x. (x.0.items, x.1.now)) result (many_in service_in count octets.now) }
{
    let mut services = Vec::with_capacity(alloc, usize::from(count))?;
    let mut rest = octets;
    for _ in 0..count {
        let (service, behind) = first_service(alloc, rest)?;
        services.push(service)?;
        rest = behind;
    }
    Ok((services, rest))
}

/// The service in front.
#[tactic(auto, unfolding(crate::specs::inner::Reading::service_in))]
fn first_service(alloc: Global, octets: &[u8]) -> Result<(Service, &[u8]), RecordFault>
    ensures { Gives (λ x. (x.0, x.1.now)) result (service_in octets.now) }
{
    let (form, rest) = first_form(octets)?;
    let (group, rest) = optional_u32(rest)?;
    let (ids, rest) = first_ids(alloc, rest)?;
    let (asked, rest) = optional_u64(rest)?;
    let (used, rest) = optional_u64(rest)?;
    let (unit, rest) = first_unit(rest)?;
    match optional_tariff(rest) {
        Ok((tariff, rest)) => match service_from(form, group, ids, asked, used, unit, tariff) {
            Some(service) => Ok((service, rest)),
            None => Err(RecordFault::BadRecord),
        },
        Err(fault) => Err(fault),
    }
}

/// The form of a service in front.
#[tactic(auto, unfolding(crate::specs::inner::Reading::form_in))]
fn first_form(octets: &[u8]) -> Result<(Form, &[u8]), RecordFault>
    ensures { Gives (λ x. (x.0, x.1.now)) result (form_in octets.now) }
{
    let (octet, rest) = first_octet(octets)?;
    match octet {
        0 => Ok((Form::Single, rest)),
        1 => Ok((Form::Multi, rest)),
        _ => Err(RecordFault::BadRecord),
    }
}

/// The unit that the plan counts for a service's group, in front; none if the plan doesn't have the group.
#[tactic(auto, unfolding(crate::specs::inner::Reading::unit_in))]
fn first_unit(octets: &[u8]) -> Result<(Option<UnitKind>, &[u8]), RecordFault>
    ensures { Gives (λ x. (x.0, x.1.now)) result (unit_in octets.now) }
{
    let (octet, rest) = first_octet(octets)?;
    match octet {
        0 => Ok((None, rest)),
        1 => Ok((Some(UnitKind::Octets), rest)),
        2 => Ok((Some(UnitKind::Time), rest)),
        3 => Ok((Some(UnitKind::Units), rest)),
        _ => Err(RecordFault::BadRecord),
    }
}

/// The identifiers in front, behind their count.
#[tactic(auto, unfolding(crate::specs::inner::Reading::ids_in))]
fn first_ids(alloc: Global, octets: &[u8]) -> Result<(ServiceIds, &[u8]), RecordFault>
    ensures { Gives (λ x. (x.0, x.1.now)) result (ids_in octets.now) }
{
    let (count, rest) = first_u16(octets)?;
    let (ids, rest) = many_ids(alloc, count, rest)?;
    match ServiceIds::from_vec(ids) {
        Some(ids) => Ok((ids, rest)),
        None => Err(RecordFault::BadRecord),
    }
}

/// So many identifiers in front.
fn many_ids(alloc: Global, count: u16, octets: &[u8]) -> Result<(Vec<u32>, &[u8]), RecordFault>
    ensures { Gives (λ x. (x.0.items, x.1.now)) result (many_in (number_in w32) count octets.now) }
{
    let mut ids = Vec::new(alloc);
    let mut rest = octets;
    for _ in 0..count {
        let (id, behind) = first_u32(rest)?;
        ids.push(id)?;
        rest = behind;
    }
    Ok((ids, rest))
}

/// A tariff that may be absent, in front.
fn optional_tariff(octets: &[u8]) -> Result<(Option<Tariff>, &[u8]), RecordFault>
    ensures { Gives (λ x. (x.0, x.1.now)) result (optional_in tariff_in octets.now) }
{
    let (flag, rest) = first_octet(octets)?;
    match flag {
        0 => Ok((None, rest)),
        1 => match first_tariff(rest) {
            Ok((tariff, rest)) => Ok((Some(tariff), rest)),
            Err(fault) => Err(fault),
        },
        _ => Err(RecordFault::BadRecord),
    }
}

/// The tariff in front.
#[tactic(auto, unfolding(crate::specs::inner::Reading::tariff_in))]
fn first_tariff(octets: &[u8]) -> Result<(Tariff, &[u8]), RecordFault>
    ensures { Gives (λ x. (x.0, x.1.now)) result (tariff_in octets.now) }
{
    let (price, rest) = first_u32(octets)?;
    let (block, rest) = first_u64(rest)?;
    match tariff_from(price, block) {
        Some(tariff) => Ok((tariff, rest)),
        None => Err(RecordFault::BadRecord),
    }
}
