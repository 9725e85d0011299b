//! Whether two acts are equal, field by field.

ghost use Rattle.std.specs.Prelude.{◌≡◌};
ghost use Rattle.std.specs.Cmp.Lexicographic.{pointwise};
ghost use Rattle.dcc_receipts.specs.Acts.{same_act, same_kind, same_request, same_limit, same_host, same_event, same_key, same_service, same_tariffs, same_units, same_unit, same_form, same_action};
ghost use Rattle.dcc_act.specs.ServiceKeys.{same_number};

use dcc_act::{
    Act, Action, Form, Kind, OneTimeEvent, RequestKey, Service, SessionLimit, SessionRequest,
};
use dcc_octets::Host;
use dcc_tariff::{Tariff, UnitKind};

/// Whether two acts are equal: their moments, and all fields of their kinds.
pub(crate) fn same_act(a: &Act, b: &Act) -> bool
    ensures { result ≡ same_act a.now b.now }
{
    a.moment == b.moment && same_kind(&a.kind, &b.kind)
}

fn same_kind(a: &Kind, b: &Kind) -> bool
    ensures { result ≡ same_kind a.now b.now }
{
    match (a, b) {
        (Kind::TopUp(a), Kind::TopUp(b)) => a.ticket == b.ticket && a.amount == b.amount,
        (
            Kind::Initial {
                request: a,
                limit: a_limit,
                host: a_host,
            },
            Kind::Initial {
                request: b,
                limit: b_limit,
                host: b_host,
            },
        ) => same_request(a, b) && same_limit(*a_limit, *b_limit) && same_host(a_host, b_host),
        (Kind::Update(a), Kind::Update(b)) => same_request(a, b),
        (Kind::Termination(a), Kind::Termination(b)) => same_request(a, b),
        (Kind::Event(a), Kind::Event(b)) => same_event(a, b),
        (Kind::Expiry, Kind::Expiry) => true,
        _ => false,
    }
}

fn same_request(a: &SessionRequest, b: &SessionRequest) -> bool
    ensures { result ≡ same_request a.now b.now }
{
    same_key(&a.key, &b.key) && same_services(a.services.as_slice(), b.services.as_slice())
}

fn same_limit(a: SessionLimit, b: SessionLimit) -> bool
    ensures { result ≡ same_limit a b }
{
    matches!(
        (a, b),
        (SessionLimit::Few, SessionLimit::Few) | (SessionLimit::Many, SessionLimit::Many)
    )
}

fn same_host(a: &Option<Host>, b: &Option<Host>) -> bool
    ensures { result ≡ same_host a.now b.now }
{
    match (a, b) {
        (None, None) => true,
        (Some(a), Some(b)) => a.as_slice() == b.as_slice(),
        _ => false,
    }
}

fn same_event(a: &OneTimeEvent, b: &OneTimeEvent) -> bool
    ensures { result ≡ same_event a.now b.now }
{
    same_key(&a.key, &b.key)
        && same_action(a.action, b.action)
        && same_service(&a.service, &b.service)
}

fn same_key(a: &RequestKey, b: &RequestKey) -> bool
    ensures { result ≡ same_key a.now b.now }
{
    a.sid.as_slice() == b.sid.as_slice() && a.number == b.number
}

fn same_services(a: &[Service], b: &[Service]) -> bool
    ensures { result ≡ pointwise same_service a.now b.now }
{
    match (a.split_first(), b.split_first()) {
        (None, None) => true,
        (Some((one, ones)), Some((other, others))) => {
            same_service(one, other) && same_services(ones, others)
        }
        _ => false,
    }
}

fn same_service(a: &Service, b: &Service) -> bool
    ensures { result ≡ same_service a.now b.now }
{
    same_number(a.group.map(u64::from), b.group.map(u64::from))
        && a.ids.as_slice() == b.ids.as_slice()
        && same_form(a.form, b.form)
        && same_number(a.asked, b.asked)
        && same_number(a.used, b.used)
        && same_units(a.unit, b.unit)
        && same_tariffs(a.tariff, b.tariff)
}

fn same_number(a: Option<u64>, b: Option<u64>) -> bool
    ensures { result ≡ same_number a b }
{
    match (a, b) {
        (None, None) => true,
        (Some(a), Some(b)) => a == b,
        _ => false,
    }
}

fn same_form(a: Form, b: Form) -> bool
    ensures { result ≡ same_form a b }
{
    matches!(
        (a, b),
        (Form::Single, Form::Single) | (Form::Multi, Form::Multi)
    )
}

fn same_action(a: Action, b: Action) -> bool
    ensures { result ≡ same_action a b }
{
    matches!(
        (a, b),
        (Action::DirectDebiting, Action::DirectDebiting)
            | (Action::RefundAccount, Action::RefundAccount)
            | (Action::CheckBalance, Action::CheckBalance)
            | (Action::PriceEnquiry, Action::PriceEnquiry)
    )
}

fn same_units(a: Option<UnitKind>, b: Option<UnitKind>) -> bool
    ensures { result ≡ same_units a b }
{
    match (a, b) {
        (None, None) => true,
        (Some(a), Some(b)) => same_unit(a, b),
        _ => false,
    }
}

fn same_unit(a: UnitKind, b: UnitKind) -> bool
    ensures { result ≡ same_unit a b }
{
    matches!(
        (a, b),
        (UnitKind::Octets, UnitKind::Octets)
            | (UnitKind::Time, UnitKind::Time)
            | (UnitKind::Units, UnitKind::Units)
    )
}

fn same_tariffs(a: Option<Tariff>, b: Option<Tariff>) -> bool
    ensures { result ≡ same_tariffs a b }
{
    match (a, b) {
        (None, None) => true,
        (Some(a), Some(b)) => a.price == b.price && a.block == b.block,
        _ => false,
    }
}
