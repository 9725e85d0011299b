//! The outcome of a request of a session.

ghost use Rattle.std.specs.Prelude.{◌≡◌, ◌≤◌, length, reverse, sum_by, IfOk};
ghost use Rattle.dcc_act.specs.Services.{ServiceView};
ghost use Rattle.dcc_act.specs.declared.limits.TheConstants.{MAX_SERVICES, MAX_IDS};
ghost use Rattle.dcc_model.specs.Outcomes.{command_result, served, bare, begun, is_below_floor, reported};

use crate::decide::CEILING;
use crate::done::Done;
use crate::granting::answers;
use crate::money::{charges, funds};
use crate::pricing::answered;
use crate::sessions::{count_open, is_open, was_opened};
use dcc_act::{
    Answer, Form, Outcome, RequestKey, RequestType, ResultCode, Service, ServiceAnswer,
    ServiceAnswers, SessionLimit,
};
use dcc_tariff::Terms;
use std::alloc::{AllocError, Global};

/// The outcome of an initial request: a session opens once, and only while fewer are open than the request's limit.
pub(crate) fn begun(
    alloc: Global,
    terms: &Terms,
    past: &[Done],
    key: &RequestKey,
    limit: SessionLimit,
    services: &[Service],
) -> Result<Outcome, AllocError>
    requires few { length services.now ≤ MAX_SERVICES }
    requires few_ids { sum_by (λ (service : ServiceView). length service.ids) services.now ≤ MAX_IDS }
    ensures { IfOk result (λ outcome. outcome ≡ begun terms.now (reverse past.now) key.now limit services.now) }
{
    if was_opened(past, &key.sid) {
        bare(alloc, RequestType::Initial, key, ResultCode::UnableToComply)
    } else if count_open(terms, past) >= limit.sessions() {
        bare(
            alloc,
            RequestType::Initial,
            key,
            ResultCode::ResourcesExceeded,
        )
    } else {
        served(alloc, terms, past, RequestType::Initial, key, services)
    }
}

/// The outcome of an update or a termination: its session has to be open, and the floor has to bear its charges.
pub(crate) fn reported(
    alloc: Global,
    terms: &Terms,
    past: &[Done],
    request: RequestType,
    key: &RequestKey,
    services: &[Service],
) -> Result<Outcome, AllocError>
    requires few { length services.now ≤ MAX_SERVICES }
    requires few_ids { sum_by (λ (service : ServiceView). length service.ids) services.now ≤ MAX_IDS }
    ensures { IfOk result (λ outcome. outcome ≡ reported terms.now (reverse past.now) request key.now services.now) }
{
    if !is_open(terms, past, &key.sid) {
        return bare(alloc, request, key, ResultCode::UnknownSession);
    }
    let charged = charges(terms, past, &key.sid, services);
    if is_below_floor(funds(terms, past) - charged) {
        bare(alloc, request, key, ResultCode::UnableToComply)
    } else {
        served(alloc, terms, past, request, key, services)
    }
}

/// Whether funds, in minor units, are below the floor. Charges may not leave such funds.
pub fn is_below_floor(funds: i128) -> bool
    ensures { result ≡ is_below_floor funds }
{
    funds < -CEILING
}

/// An answer with its result alone. The only error is want of memory.
pub fn bare(
    alloc: Global,
    request: RequestType,
    key: &RequestKey,
    code: ResultCode,
) -> Result<Outcome, AllocError>
    ensures { IfOk result (λ outcome. outcome ≡ bare request key.now code) }
{
    Ok(Outcome::Answered(Answer {
        request,
        key: key.copy()?,
        result: code,
        services: ServiceAnswers::from_vec(Vec::new(alloc)).unwrap(),
        cost: None,
        balance: None,
    }))
}

/// The answer to a request whose services are served. The only error is want of memory.
fn served(
    alloc: Global,
    terms: &Terms,
    past: &[Done],
    request: RequestType,
    key: &RequestKey,
    services: &[Service],
) -> Result<Outcome, AllocError>
    requires few { length services.now ≤ MAX_SERVICES }
    requires few_ids { sum_by (λ (service : ServiceView). length service.ids) services.now ≤ MAX_IDS }
    ensures { IfOk result (λ outcome. outcome ≡ served terms.now (reverse past.now) request key.now services.now) }
{
    let answers = answers(alloc, terms, past, &key.sid, services)?;
    answered(request, key, answers)
}

/// The command's result: that of a service at the message's level, which is the only service, or else success.
pub fn command_result(answers: &[ServiceAnswer]) -> ResultCode
    ensures { result ≡ command_result answers.now }
{
    match answers {
        [answer] => match answer.form {
            Form::Single => answer.result,
            Form::Multi => ResultCode::Success,
        },
        _ => ResultCode::Success,
    }
}
