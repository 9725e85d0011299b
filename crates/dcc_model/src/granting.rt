//! The answers to the services of a request of a session.

ghost use Rattle.std.specs.Prelude.{◌≡◌, ◌≤◌, [], length, reverse, sum_by, IfOk};
ghost use Rattle.dcc_act.specs.Services.{ServiceView};
ghost use Rattle.dcc_act.specs.declared.limits.TheConstants.{MAX_SERVICES};
ghost use Rattle.dcc_act.specs.declared.outcome.ServiceAnswer.{ServiceAnswer};
ghost use Rattle.dcc_model.specs.Outcomes.{answer_with, granted, granted_within, asked_answer, answer_to, answers};

use crate::decide::asked_units;
use crate::done::Done;
use crate::money::room;
use crate::pricing::answer_by;
use crate::sessions::live;
use dcc_act::{Grant, MAX_SERVICES, ResultCode, Service, ServiceAnswer, SessionId};
use dcc_tariff::{Terms, most_units};
use std::alloc::{AllocError, Global};

/// The answers to these services in order, each in the room that the services before leave.
pub(crate) fn answers(
    alloc: Global,
    terms: &Terms,
    past: &[Done],
    sid: &SessionId,
    services: &[Service],
) -> Result<Vec<ServiceAnswer>, AllocError>
    requires { length services.now ≤ MAX_SERVICES }
    ensures value { IfOk result (λ made. made.items ≡ answers terms.now (reverse past.now) sid.now services.now [] services.now) }
    ensures as_many { IfOk result (λ made. length made.items ≡ length services.now) }
    ensures ids { IfOk result (λ made. sum_by (λ (answer : ServiceAnswer). length answer.ids) made.items
        ≡ sum_by (λ (service : ServiceView). length service.ids) services.now) }
{
    let mut answers = Vec::with_capacity(alloc, services.len())?;
    for service in services {
        let space = room(alloc, terms, past, sid, services, &answers)?;
        answers.push(answer_to(terms, past, sid, service, space)?)?;
    }
    Ok(answers)
}

/// The answer to a service in its room. If no tariff charges its report, the result is a failure, and nothing is granted.
fn answer_to(
    terms: &Terms,
    past: &[Done],
    sid: &SessionId,
    service: &Service,
    space: i128,
) -> Result<ServiceAnswer, AllocError>
    ensures { IfOk result (λ answer. answer ≡ answer_to terms.now (reverse past.now) sid.now service.now space) }
{
    answer_by(live(terms, past, sid, service.key()), service, space)
}

/// The answer to the units that a service asks for, in its room, in minor units. A service that asks for none succeeds. The
/// only error is want of memory.
#[tactic(auto, using(crate::proofs::Answering::asked_ids))]
pub fn asked_answer(service: &Service, space: i128) -> Result<ServiceAnswer, AllocError>
    ensures value { IfOk result (λ answer. answer ≡ asked_answer service.now space) }
    ensures ids { IfOk result (λ answer. answer.ids ≡ service.now.ids) }
{
    if service.asked.is_none() {
        answer_with(service, ResultCode::Success, None, false)
    } else {
        granted_within(service, space, asked_units(service))
    }
}

/// The most of the units that a service asks for that its room covers. Without a tariff there is no price.
fn granted_within(
    service: &Service,
    space: i128,
    asked: Option<Grant>,
) -> Result<ServiceAnswer, AllocError>
    ensures { IfOk result (λ answer. answer ≡ granted_within service.now space asked) }
{
    match asked {
        None => answer_with(service, ResultCode::RatingFailed, None, false),
        Some(asked) => {
            let units = most_units(asked.tariff, asked.units, space);
            granted(service, asked, units)
        }
    }
}

/// So many of the units that are asked for; the grant is final if they are fewer, and there is no grant of 0 units.
fn granted(service: &Service, asked: Grant, units: u64) -> Result<ServiceAnswer, AllocError>
    requires { units ≤ asked.units }
    ensures { IfOk result (λ answer. answer ≡ granted service.now asked units) }
{
    if units == 0 {
        return answer_with(service, ResultCode::CreditLimitReached, None, false);
    }
    let is_final = units < asked.units;
    let grant = Grant {
        unit: asked.unit,
        units,
        tariff: asked.tariff,
    };
    answer_with(service, ResultCode::Success, Some(grant), is_final)
}

/// The answer with a service's own group, identifiers and form. The only error is want of memory.
pub fn answer_with(
    service: &Service,
    code: ResultCode,
    grant: Option<Grant>,
    is_final: bool,
) -> Result<ServiceAnswer, AllocError>
    ensures { IfOk result (λ answer. answer ≡ answer_with service.now code grant is_final) }
{
    Ok(ServiceAnswer {
        group: service.group,
        ids: service.ids.copy()?,
        form: service.form,
        result: code,
        grant,
        is_final,
    })
}
