//! Charges, funds, reserved money and free money, in minor units. Each function looks back over the acts that were
//! made, in order.

ghost use Rattle.std.specs.Prelude.{◌≡◌, ◌+◌, ◌*◌, ◌∷◌, ◌^◌, ◌<◌, ◌≤◌, true, pos, neg_ℤ, ◌-ℤ◌, ◌≤ℤ◌, length, reverse, sum_by, unwrap_or, IfOk};
ghost use Rattle.std.specs.Option.{ForSome};
ghost use Rattle.dcc_act.specs.Services.{are_services};
ghost use Rattle.dcc_model.specs.Laws.{services_of};
ghost use Rattle.dcc_model.specs.Money.{charged_event, refunded_event, live_price, charge, charges, overruns, credit, debit, charged, overran, funds_of, overrun_of, held_price, free_of, is_replaced, reserved_beside, made_price, room};
ghost use Rattle.dcc_model.specs.Outcomes.{standing_of};

use crate::decide::{asked_units, price};
use crate::done::Done;
use crate::judgement::Standing;
use crate::pricing::{charge_by, cost_by, made_prices};
use crate::results::has_succeeded;
use crate::sessions::{Holding, accepted, live, lives, lives_with, names_any};
use dcc_act::{
    Action, Grant, Kind, MAX_AMOUNT, MAX_SERVICES, OneTimeEvent, Outcome, Service, ServiceAnswer,
    ServiceKey, SessionId,
};
use dcc_tariff::{MAX_PRICE, Terms};
use std::alloc::{AllocError, Global};

/// The most by which one act may change the funds, in minor units, whatever the floor allows: 32 charges and a debit.
const MOST: u128 = 33_000_000_000_000_000_000;

/// Shows that acts in memory are so few that the sum of their charges fits an `i128`: each takes at least 64 octets.
fn are_few(past: &[Done])
    ensures { length past.now < 2 ^ 58 }
{
    // The call is made for its clause alone: the number of octets that the acts take is below 2^64.
    let _octets = size_of_val(past);
}

/// The charge for a service's report, if there is a report and a tariff for it.
pub(crate) fn charge(
    terms: &Terms,
    past: &[Done],
    sid: &SessionId,
    service: &Service,
) -> Option<u64>
    ensures value { result ≡ charge terms.now (reverse past.now) sid.now service.now }
    ensures bound { ForSome result (λ cost. cost ≤ MAX_PRICE) }
{
    charge_by(live(terms, past, sid, service.key()), service)
}

/// The charge for a service's report, or 0.
fn cost(terms: &Terms, past: &[Done], sid: &SessionId, service: &Service) -> u64
    ensures value { result ≡ unwrap_or (charge terms.now (reverse past.now) sid.now service.now) 0 }
    ensures bound { result ≤ MAX_PRICE }
{
    cost_by(live(terms, past, sid, service.key()), service)
}

/// The sum of the charges of a request's reports.
pub(crate) fn charges(terms: &Terms, past: &[Done], sid: &SessionId, services: &[Service]) -> i128
    requires { length services.now ≤ MAX_SERVICES }
    ensures value { result ≡ pos (charges terms.now (reverse past.now) sid.now services.now) }
    ensures bound { result ≤ℤ pos (MAX_SERVICES * MAX_PRICE) }
{
    let mut sum = 0;
    for service in services {
        sum += i128::from(cost(terms, past, sid, service));
    }
    sum
}

/// The price of a service's live grant.
fn live_price(terms: &Terms, past: &[Done], sid: &SessionId, key: ServiceKey) -> u64
    ensures value { result ≡ live_price terms.now (reverse past.now) sid.now key }
    ensures bound { result ≤ MAX_PRICE }
{
    match live(terms, past, sid, key) {
        Some(grant) => price(&grant),
        None => 0,
    }
}

/// The sum of the parts of the charges beyond the prices of the live grants.
fn overruns(terms: &Terms, past: &[Done], sid: &SessionId, services: &[Service]) -> i128
    requires { length services.now ≤ MAX_SERVICES }
    ensures value { result ≡ pos (overruns terms.now (reverse past.now) sid.now services.now) }
    ensures bound { result ≤ℤ pos (MAX_SERVICES * MAX_PRICE) }
{
    let mut sum = 0;
    for service in services {
        let reserved = live_price(terms, past, sid, service.key());
        sum += i128::from(cost(terms, past, sid, service).saturating_sub(reserved));
    }
    sum
}

/// The units that an event with this outcome charged, if any.
pub(crate) fn charged_units(event: &OneTimeEvent, outcome: &Outcome) -> Option<Grant>
    ensures { result ≡ charged_event event.now outcome.now }
{
    if !has_succeeded(outcome) {
        return None;
    }
    match event.action {
        Action::DirectDebiting => asked_units(&event.service),
        Action::RefundAccount | Action::CheckBalance | Action::PriceEnquiry => None,
    }
}

/// The units that an event with this outcome refunded, if any.
pub(crate) fn refunded_units(event: &OneTimeEvent, outcome: &Outcome) -> Option<Grant>
    ensures { result ≡ refunded_event event.now outcome.now }
{
    if !has_succeeded(outcome) {
        return None;
    }
    match event.action {
        Action::RefundAccount => asked_units(&event.service),
        Action::DirectDebiting | Action::CheckBalance | Action::PriceEnquiry => None,
    }
}

/// The money that an act added to the funds, in minor units.
pub fn credited(kind: &Kind, outcome: &Outcome) -> u64
    ensures value { result ≡ credit kind.now outcome.now }
    ensures bound { result ≤ MAX_AMOUNT }
{
    match kind {
        Kind::TopUp(top_up) => match outcome {
            Outcome::Added => top_up.amount,
            _ => 0,
        },
        Kind::Event(event) => match refunded_units(event, outcome) {
            None => 0,
            Some(grant) => price(&grant),
        },
        _ => 0,
    }
}

/// The money that a direct debit took from the funds, in minor units.
pub fn debited(kind: &Kind, outcome: &Outcome) -> u64
    ensures value { result ≡ debit kind.now outcome.now }
    ensures bound { result ≤ MAX_PRICE }
{
    match kind {
        Kind::Event(event) => match charged_units(event, outcome) {
            None => 0,
            Some(grant) => price(&grant),
        },
        _ => 0,
    }
}

/// The services of a request.
pub(crate) fn services_of(kind: &Kind) -> &[Service]
    ensures value { result.now ≡ services_of kind.now }
    ensures few { length result.now ≤ MAX_SERVICES }
    ensures limits { are_services result.now ≡ true }
{
    match kind {
        Kind::Initial { request, .. } | Kind::Update(request) | Kind::Termination(request) => {
            request.services.as_slice()
        }
        Kind::TopUp(_) | Kind::Event(_) | Kind::Expiry => &[],
    }
}

/// The charge of an accepted update or termination, or 0.
fn charged(terms: &Terms, past: &[Done], done: &Done) -> i128
    ensures value { result ≡ pos (charged terms.now (reverse past.now) done.now) }
    ensures bound { result ≤ℤ pos (MAX_SERVICES * MAX_PRICE) }
{
    match accepted(done) {
        Some(sid) => charges(terms, past, sid, services_of(&done.act.kind)),
        None => 0,
    }
}

/// The part of its charges beyond the prices of the live grants, or 0.
fn overran(terms: &Terms, past: &[Done], done: &Done) -> i128
    ensures value { result ≡ pos (overran terms.now (reverse past.now) done.now) }
    ensures bound { result ≤ℤ pos (MAX_SERVICES * MAX_PRICE) }
{
    match accepted(done) {
        Some(sid) => overruns(terms, past, sid, services_of(&done.act.kind)),
        None => 0,
    }
}

/// An act's change of the funds.
fn change(terms: &Terms, past: &[Done], done: &Done) -> i128
    ensures value { result ≡ pos (credit done.now.act.kind done.now.outcome)
        -ℤ pos (debit done.now.act.kind done.now.outcome + charged terms.now (reverse past.now) done.now) }
    ensures low { neg_ℤ (pos MOST) ≤ℤ result }
    ensures high { result ≤ℤ pos MOST }
{
    let credited = i128::from(credited(&done.act.kind, &done.outcome));
    let debited = i128::from(debited(&done.act.kind, &done.outcome));
    credited - debited - charged(terms, past, done)
}

/// The funds after these acts, as far from 0 as the number of acts allows.
pub(crate) fn funds(terms: &Terms, past: &[Done]) -> i128
    ensures value { result ≡ funds_of terms.now (reverse past.now) }
    ensures low { neg_ℤ (pos (MOST * 2 ^ 58)) ≤ℤ result }
    ensures high { result ≤ℤ pos (MOST * 2 ^ 58) }
{
    are_few(past);
    let mut funds = 0;
    for (i, done) in past.iter().enumerate() {
        funds += change(terms, &past[..i], done);
    }
    funds
}

/// The overrun of all acts.
fn overrun(terms: &Terms, past: &[Done]) -> i128
    ensures value { result ≡ pos (overrun_of terms.now (reverse past.now)) }
    ensures high { result ≤ℤ pos (MOST * 2 ^ 58) }
{
    are_few(past);
    let mut overrun = 0;
    for (i, done) in past.iter().enumerate() {
        overrun += overran(terms, &past[..i], done);
    }
    overrun
}

/// The reserved money: the prices of these grants.
fn reserved(held: &[Holding]) -> i128
    ensures value { result ≡ pos (sum_by held_price held.now) }
    ensures high { result ≤ℤ pos (MAX_PRICE * length held.now) }
{
    let mut reserved = 0;
    for holding in held {
        reserved += i128::from(price(&holding.grant));
    }
    reserved
}

/// The free money. The only error is want of memory.
pub(crate) fn free(alloc: Global, terms: &Terms, past: &[Done]) -> Result<i128, AllocError>
    ensures { IfOk result (λ free. free ≡ free_of terms.now (reverse past.now)) }
{
    let held = lives(alloc, terms, past)?;
    Ok(funds(terms, past) - reserved(&held))
}

/// The money after these acts. The only error is want of memory.
pub(crate) fn standing(alloc: Global, terms: &Terms, past: &[Done]) -> Result<Standing, AllocError>
    ensures { IfOk result (λ standing. standing ≡ standing_of terms.now (reverse past.now)) }
{
    Ok(Standing {
        funds: funds(terms, past),
        free: free(alloc, terms, past)?,
        overrun: overrun(terms, past),
    })
}

/// The money after these acts and one more. The only error is want of memory.
pub(crate) fn standing_with(
    alloc: Global,
    terms: &Terms,
    past: &[Done],
    done: &Done,
) -> Result<Standing, AllocError>
    ensures { IfOk result (λ standing. standing ≡ standing_of terms.now (done.now ∷ reverse past.now)) }
{
    let held = lives_with(alloc, terms, past, done)?;
    let funds = funds(terms, past) + change(terms, past, done);
    Ok(Standing {
        funds,
        free: funds - reserved(&held),
        overrun: overrun(terms, past) + overran(terms, past, done),
    })
}

/// Whether a request of a session replaces a grant.
fn is_replaced(sid: &SessionId, services: &[Service], held: &Holding) -> bool
    ensures { result ≡ is_replaced sid.now services.now held.now }
{
    *sid == held.sid && names_any(services, held.key)
}

/// The prices of the live grants that a request doesn't replace. The only error is want of memory.
fn reserved_beside(
    alloc: Global,
    terms: &Terms,
    past: &[Done],
    sid: &SessionId,
    services: &[Service],
) -> Result<i128, AllocError>
    ensures value { IfOk result (λ sum. sum ≡ pos (reserved_beside terms.now (reverse past.now) sid.now services.now)) }
    ensures high { IfOk result (λ sum. sum ≤ℤ pos (MAX_PRICE * 2 ^ 63)) }
{
    let mut held = lives(alloc, terms, past)?;
    held.retain(|holding| !is_replaced(sid, services, holding));
    Ok(reserved(&held))
}

/// The room of the next service's grant, after the grants that the request made to the services before. The only error
/// is want of memory.
pub(crate) fn room(
    alloc: Global,
    terms: &Terms,
    past: &[Done],
    sid: &SessionId,
    services: &[Service],
    before: &[ServiceAnswer],
) -> Result<i128, AllocError>
    requires services { length services.now ≤ MAX_SERVICES }
    requires before { length before.now ≤ MAX_SERVICES }
    ensures { IfOk result (λ money. money ≡ room terms.now (reverse past.now) sid.now services.now before.now) }
{
    let beside = reserved_beside(alloc, terms, past, sid, services)?;
    let charged = charges(terms, past, sid, services);
    let made = made_prices(before);
    Ok(funds(terms, past) - (charged + beside + made))
}
