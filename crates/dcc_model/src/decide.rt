//! The outcome of an act that is made.

ghost use Rattle.std.specs.Prelude.{◌≡◌, ◌≤◌, IfOk};
ghost use Rattle.dcc_tariff.specs.Prices.{covers};
ghost use Rattle.dcc_model.specs.Money.{asked_units, grant_price};
ghost use Rattle.dcc_model.specs.Outcomes.{is_over, top_up_outcome, result_of, debited, refund_made, checked, enquired, event_result, event_answer, event_outcome};

use dcc_act::{
    Action, Answer, Balance, Grant, MAX_AMOUNT, OneTimeEvent, Outcome, RequestType, ResultCode,
    Service, ServiceAnswer, ServiceAnswers, TopUp,
};
use dcc_tariff::{MAX_PRICE, price_of};
use std::alloc::{AllocError, Global};

/// The most that the funds may be, in minor units; the least is its negative.
pub const CEILING: i128 = MAX_AMOUNT as i128;

/// The outcome of a new top-up at these funds, in minor units.
pub fn decide_top_up(funds: i128, top_up: &TopUp) -> Outcome
    ensures { result ≡ top_up_outcome funds top_up.now }
{
    if is_over(funds, top_up.amount) {
        Outcome::Ceiling
    } else {
        Outcome::Added
    }
}

/// The outcome of a new event at these funds and this free money, both in minor units. The only error is want of memory.
pub fn decide_event(
    alloc: Global,
    funds: i128,
    free: i128,
    event: &OneTimeEvent,
) -> Result<Outcome, AllocError>
    ensures { IfOk result (λ outcome. outcome ≡ event_outcome funds free event.now) }
{
    answer(alloc, event, event_result(funds, free, event))
}

/// The data of an event's answer beside its service.
#[derive(Clone, Copy, Debug)]
struct EventResult {
    result: ResultCode,
    grant: Option<Grant>,
    cost: Option<u64>,
    balance: Option<Balance>,
}

/// A result alone.
fn alone(code: ResultCode) -> EventResult
    ensures { result ≡ result_of code }
{
    EventResult {
        result: code,
        grant: None,
        cost: None,
        balance: None,
    }
}

/// The result of an event.
fn event_result(funds: i128, free: i128, event: &OneTimeEvent) -> EventResult
    ensures { result ≡ event_result funds free event.now.action (asked_units event.now.service) }
{
    let Some(asked) = asked_units(&event.service) else {
        return alone(ResultCode::RatingFailed);
    };
    match event.action {
        Action::DirectDebiting => debited(free, asked),
        Action::RefundAccount => refund_made(funds, &asked),
        Action::CheckBalance => checked(free, &asked),
        Action::PriceEnquiry => enquired(&asked),
    }
}

/// The result of a direct debit.
fn debited(free: i128, asked: Grant) -> EventResult
    ensures { result ≡ debited free asked }
{
    if !is_covered(free, price(&asked)) {
        return alone(ResultCode::CreditLimitReached);
    }
    EventResult {
        result: ResultCode::Success,
        grant: Some(asked),
        cost: None,
        balance: None,
    }
}

/// The result of a refund.
fn refund_made(funds: i128, asked: &Grant) -> EventResult
    ensures { result ≡ refund_made funds asked.now }
{
    if is_over(funds, price(asked)) {
        alone(ResultCode::UnableToComply)
    } else {
        alone(ResultCode::Success)
    }
}

/// The result of a balance check.
fn checked(free: i128, asked: &Grant) -> EventResult
    ensures { result ≡ checked free asked.now }
{
    let balance = if is_covered(free, price(asked)) {
        Balance::EnoughCredit
    } else {
        Balance::NoCredit
    };
    EventResult {
        result: ResultCode::Success,
        grant: None,
        cost: None,
        balance: Some(balance),
    }
}

/// The result of a price enquiry.
fn enquired(asked: &Grant) -> EventResult
    ensures { result ≡ enquired asked.now }
{
    EventResult {
        result: ResultCode::Success,
        grant: None,
        cost: Some(price(asked)),
        balance: None,
    }
}

/// The answer to an event, with its one service.
fn answer(alloc: Global, event: &OneTimeEvent, found: EventResult) -> Result<Outcome, AllocError>
    ensures { IfOk result (λ outcome. outcome ≡ event_answer event.now found) }
{
    let service = &event.service;
    let answer = ServiceAnswer {
        group: service.group,
        ids: service.ids.copy()?,
        form: service.form,
        result: found.result,
        grant: found.grant,
        is_final: false,
    };
    let key = event.key.copy()?;
    let services = ServiceAnswers::from_vec(vec![in alloc; answer]?).unwrap();
    Ok(Outcome::Answered(Answer {
        request: RequestType::Event,
        key,
        result: found.result,
        services,
        cost: found.cost,
        balance: found.balance,
    }))
}

/// The units that a service asks for, at the tariff of its moment, if it asks for any and there is a tariff.
pub(crate) fn asked_units(service: &Service) -> Option<Grant>
    ensures { result ≡ asked_units service.now }
{
    Some(Grant {
        unit: service.unit?,
        units: service.asked?,
        tariff: service.tariff?,
    })
}

/// The charge for granted units, in minor units.
pub fn price(grant: &Grant) -> u64
    ensures value { result ≡ grant_price grant.now }
    ensures bound { result ≤ MAX_PRICE }
{
    price_of(grant.tariff, grant.units)
}

/// Whether so much more would lift the funds above the ceiling.
fn is_over(funds: i128, amount: u64) -> bool
    ensures { result ≡ is_over funds amount }
{
    funds > CEILING - i128::from(amount)
}

/// Whether the free money covers a price: a price of 0 is always covered.
fn is_covered(free: i128, price: u64) -> bool
    ensures { result ≡ covers free price }
{
    price == 0 || i128::from(price) <= free
}
