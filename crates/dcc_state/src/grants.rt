//! Charges, in minor units, by the grants that a session holds.

ghost use Rattle.std.specs.Prelude.{◌≡◌, ◌≤◌, ◌*◌, ◌^◌, pos, ◌≤ℤ◌, length, filter, find, sum_by, unwrap_or, IfOk};
ghost use Rattle.std.specs.Option.{ForSome, option_copied};
ghost use Rattle.dcc_act.specs.ServiceKeys.{same_service};
ghost use Rattle.dcc_act.specs.declared.limits.TheConstants.{MAX_SERVICES};
ghost use Rattle.dcc_session.specs.Grants.{live_in, charge_in, charges_in, is_given_back, given_back};

use dcc_act::{Grant, MAX_SERVICES, Service, ServiceKey};
use dcc_model::{charge_by, cost_by, names_any, price};
use dcc_session::Held;
use dcc_tariff::MAX_PRICE;

/// The grant that a service holds.
pub(crate) fn live(own: &[Held], key: ServiceKey) -> Option<Grant>
    ensures { result ≡ live_in own.now key }
{
    match held_for(own, key) {
        Some(held) => Some(held.grant),
        None => None,
    }
}

/// The first of these grants that has the key of this service.
fn held_for(own: &[Held], key: ServiceKey) -> Option<&Held>
    ensures { option_copied result ≡ find (λ held. same_service held.key key) own.now }
{
    own.iter().find(|held| held.key.is_same(key))
}

/// The charge for a service's report, if there is a report and a tariff for it.
pub(crate) fn charge(own: &[Held], service: &Service) -> Option<u64>
    ensures value { result ≡ charge_in own.now service.now }
    ensures bound { ForSome result (λ cost. cost ≤ MAX_PRICE) }
{
    charge_by(live(own, service.key()), service)
}

/// The charge for a service's report, or 0.
fn cost(own: &[Held], service: &Service) -> u64
    ensures value { result ≡ unwrap_or (charge_in own.now service.now) 0 }
    ensures bound { result ≤ MAX_PRICE }
{
    cost_by(live(own, service.key()), service)
}

/// The sum of the charges of a request's reports.
pub(crate) fn charges(own: &[Held], services: &[Service]) -> i128
    requires { length services.now ≤ MAX_SERVICES }
    ensures value { result ≡ pos (charges_in own.now services.now) }
    ensures bound { result ≤ℤ pos (MAX_SERVICES * MAX_PRICE) }
{
    let mut sum = 0;
    for service in services {
        sum += i128::from(cost(own, service));
    }
    sum
}

/// Whether a request gives back a grant.
fn is_given_back(services: &[Service], held: &Held) -> bool
    ensures { result ≡ is_given_back services.now held.now }
{
    names_any(services, held.key)
}

/// The prices of the grants that a request gives back.
pub(crate) fn given_back(own: &[Held], services: &[Service]) -> i128
    ensures value { result ≡ pos (given_back own.now services.now) }
    ensures bound { result ≤ℤ pos (MAX_PRICE * length own.now) }
{
    let mut sum = 0;
    for held in own {
        if is_given_back(services, held) {
            sum += i128::from(price(&held.grant));
        }
    }
    sum
}
