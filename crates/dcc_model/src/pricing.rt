//! Charges of reports, answers and prices, in minor units, by a service's live grant. The plain program finds this grant by a look back, and an
//! account keeps it.

ghost use Rattle.std.specs.Prelude.{◌≡◌, ◌≤◌, ◌*◌, pos, ◌≤ℤ◌, length, sum_by, unwrap_or, IfOk};
ghost use Rattle.std.specs.Option.{ForSome};
ghost use Rattle.dcc_act.specs.Services.{ServiceView};
ghost use Rattle.dcc_act.specs.declared.limits.TheConstants.{MAX_SERVICES, MAX_IDS};
ghost use Rattle.dcc_act.specs.declared.outcome.ServiceAnswer.{ServiceAnswer};
ghost use Rattle.dcc_model.specs.Money.{tariff_by, charge_by, is_unrated_by, made_price};
ghost use Rattle.dcc_model.specs.Outcomes.{answer_by, answered};

use crate::decide::price;
use crate::granting::{answer_with, asked_answer};
use crate::outcomes::command_result;
use dcc_act::{
    Answer, Grant, MAX_SERVICES, Outcome, RequestKey, RequestType, ResultCode, Service,
    ServiceAnswer, ServiceAnswers,
};
use dcc_tariff::{MAX_PRICE, Tariff, price_of};
use std::alloc::AllocError;

/// The tariff of a service's live grant, or else that of the act's moment.
fn tariff_by(live: Option<Grant>, service: &Service) -> Option<Tariff>
    ensures { result ≡ tariff_by live service.now }
{
    match live {
        Some(grant) => Some(grant.tariff),
        None => service.tariff,
    }
}

/// The charge for a service's report, if there is a report and a tariff for it.
pub fn charge_by(live: Option<Grant>, service: &Service) -> Option<u64>
    ensures value { result ≡ charge_by live service.now }
    ensures bound { ForSome result (λ cost. cost ≤ MAX_PRICE) }
{
    let units = service.used?;
    let tariff = tariff_by(live, service)?;
    Some(price_of(tariff, units))
}

/// The charge for a service's report, or 0.
pub fn cost_by(live: Option<Grant>, service: &Service) -> u64
    ensures value { result ≡ unwrap_or (charge_by live service.now) 0 }
    ensures bound { result ≤ MAX_PRICE }
{
    match charge_by(live, service) {
        Some(cost) => cost,
        None => 0,
    }
}

/// Whether no tariff charges a service's report.
fn is_unrated_by(live: Option<Grant>, service: &Service) -> bool
    ensures { result ≡ is_unrated_by live service.now }
{
    service.used.is_some() && charge_by(live, service).is_none()
}

/// The answer to a service in its room, in minor units. If no tariff charges its report, the result is a failure, and nothing is granted. The only
/// error is want of memory.
pub fn answer_by(
    live: Option<Grant>,
    service: &Service,
    space: i128,
) -> Result<ServiceAnswer, AllocError>
    ensures value { IfOk result (λ answer. answer ≡ answer_by live service.now space) }
    ensures ids { IfOk result (λ answer. answer.ids ≡ service.now.ids) }
{
    if is_unrated_by(live, service) {
        answer_with(service, ResultCode::RatingFailed, None, false)
    } else {
        asked_answer(service, space)
    }
}

/// The price of an answer's grant, or 0.
fn made_price(answer: &ServiceAnswer) -> u64
    ensures value { result ≡ made_price answer.now }
    ensures bound { result ≤ MAX_PRICE }
{
    match &answer.grant {
        Some(grant) => price(grant),
        None => 0,
    }
}

/// The sum of the prices of the answers' grants. The condition: there are at most [`MAX_SERVICES`] answers.
pub fn made_prices(answers: &[ServiceAnswer]) -> i128
    requires { length answers.now ≤ MAX_SERVICES }
    ensures value { result ≡ pos (sum_by made_price answers.now) }
    ensures bound { result ≤ℤ pos (MAX_SERVICES * MAX_PRICE) }
{
    let mut sum = 0;
    for answer in answers {
        sum += i128::from(made_price(answer));
    }
    sum
}

/// The outcome of a request whose services have these answers. The conditions: there are at most [`MAX_SERVICES`] answers, and they have at most
/// [`dcc_act::MAX_IDS`] identifiers. The only error is want of memory.
pub fn answered(
    request: RequestType,
    key: &RequestKey,
    answers: Vec<ServiceAnswer>,
) -> Result<Outcome, AllocError>
    requires few { length answers.items ≤ MAX_SERVICES }
    requires few_ids { sum_by (λ (answer : ServiceAnswer). length answer.ids) answers.items ≤ MAX_IDS }
    ensures { IfOk result (λ outcome. outcome ≡ answered request key.now answers.items) }
{
    let Ok(key) = key.copy() else {
        // By a call: answers that are let go in place are proved part by part.
        drop(answers);
        return Err(AllocError);
    };
    let code = command_result(&answers);
    Ok(Outcome::Answered(Answer {
        request,
        key,
        result: code,
        services: ServiceAnswers::from_vec(answers).unwrap(),
        cost: None,
        balance: None,
    }))
}
