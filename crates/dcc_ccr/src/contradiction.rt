//! AVPs that can't stand side by side.

ghost use Rattle.std.specs.Prelude.{◌≡◌, [], take, drop, slice_get, option_copied, option_map};
ghost use Rattle.dcc_ccr.specs.Contradictions.{contradicting, multi_at, both_at, units_beside, several_in_event, same_number, same_key, place_of, repeated, same_keys, contradiction};

use crate::request_type::RequestType;
use crate::service::Service;
use dcc_avp::{Avp, codes};
use dcc_request::{Cause, Refused, first};

/// The Multiple-Services-Credit-Control at a place, counted from 0.
fn multi_at<'m, 'a>(avps: &'m [Avp<'a>], i: usize) -> Option<&'m Avp<'a>>
    ensures { option_copied result ≡ multi_at avps.now i }
{
    avps.iter()
        .filter(|avp| avp.has_code(codes::MULTIPLE_SERVICES_CREDIT_CONTROL))
        .nth(i)
}

/// The refusal with both AVPs.
fn contradicting<'a>(first: &Avp<'a>, second: &Avp<'a>) -> Refused<'a>
    ensures { result ≡ contradicting first.now second.now }
{
    Refused::two(Cause::ContradictingAvps, first.copy(), second.copy())
}

/// The refusal with the Multiple-Services-Credit-Control at two places, if both are there.
#[tactic(auto, unfolding(crate::specs::Contradictions::both_at))]
fn both_at<'a>(avps: &[Avp<'a>], first: usize, second: usize) -> Option<Refused<'a>>
    ensures { result ≡ both_at avps.now first second }
{
    Some(contradicting(multi_at(avps, first)?, multi_at(avps, second)?))
}

/// The refusal of units at the level of the message, asked for or else used, beside a Multiple-Services-Credit-Control.
#[tactic(auto, unfolding(crate::specs::Contradictions::units_beside))]
fn units_beside<'a>(avps: &[Avp<'a>]) -> Option<Refused<'a>>
    ensures { result ≡ units_beside avps.now }
{
    let units = first(avps, codes::REQUESTED_SERVICE_UNIT).or(first(
        avps,
        codes::USED_SERVICE_UNIT,
    ))?;
    Some(contradicting(units, multi_at(avps, 0)?))
}

/// The refusal of an event with more than one Multiple-Services-Credit-Control.
fn several_in_event<'a>(kind: RequestType, avps: &[Avp<'a>]) -> Option<Refused<'a>>
    ensures { result ≡ several_in_event kind avps.now }
{
    if kind.is_event() {
        both_at(avps, 0, 1)
    } else {
        None
    }
}

/// Whether both are none, or both the same number.
fn same_number(a: Option<u32>, b: Option<u32>) -> bool
    ensures { result ≡ same_number a b }
{
    match (a, b) {
        (None, None) => true,
        (Some(a), Some(b)) => a == b,
        _ => false,
    }
}

/// Whether the Rating-Group and the first Service-Identifier of two services, each or none, are the same.
fn same_key(a: &Service, b: &Service) -> bool
    ensures { result ≡ same_key a.now b.now }
{
    same_number(a.group(), b.group()) && same_number(first_id(a), first_id(b))
}

/// The first Service-Identifier.
fn first_id(service: &Service) -> Option<u32>
    ensures { result ≡ slice_get service.now.ids 0 }
{
    service.ids().first().copied()
}

/// The place of the first service that has the key of another.
fn place_of(service: &Service, services: &[Service]) -> Option<usize>
    ensures { result ≡ place_of service.now services.now 0 }
{
    let mut place = 0;
    for other in services {
        if same_key(other, service) {
            return Some(place);
        }
        place += 1;
    }
    None
}

/// The places of the first service that has the key of a service before it, and of that service before.
fn repeated(services: &[Service]) -> Option<(usize, usize)>
    ensures { result ≡ repeated [] services.now }
{
    let mut place = 0;
    for service in services {
        if let Some(first) = place_of(service, &services[..place]) {
            return Some((first, place));
        }
        place += 1;
    }
    None
}

/// The refusal of two services with one key: of the pair whose second service comes first.
fn same_keys<'a>(services: &[Service], avps: &[Avp<'a>]) -> Option<Refused<'a>>
    ensures { result ≡ same_keys services.now avps.now }
{
    let (first, second) = repeated(services)?;
    both_at(avps, first, second)
}

/// The first contradiction of a request of this type with these services in Multiple-Services-Credit-Control.
#[tactic(auto, unfolding(crate::specs::Contradictions::contradiction))]
pub(crate) fn contradiction<'a>(
    kind: RequestType,
    services: &[Service],
    avps: &[Avp<'a>],
) -> Option<Refused<'a>>
    ensures { result ≡ contradiction kind services.now avps.now }
{
    match units_beside(avps) {
        Some(refused) => Some(refused),
        None => match several_in_event(kind, avps) {
            Some(refused) => Some(refused),
            None => same_keys(services, avps),
        },
    }
}
