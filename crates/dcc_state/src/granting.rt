//! The answers to the services of a request of a session.

ghost use Rattle.std.specs.Prelude.{◌≡◌, ◌≤◌, [], neg_ℤ, ◌≤ℤ◌, length, sum_by, IfOk};
ghost use Rattle.dcc_act.specs.Services.{ServiceView};
ghost use Rattle.dcc_act.specs.declared.limits.TheConstants.{MAX_SERVICES};
ghost use Rattle.dcc_act.specs.declared.outcome.ServiceAnswer.{ServiceAnswer};
ghost use Rattle.dcc_state.specs.inner.Grants.{room_in, answer_to_in, answers_in};

use crate::grants::{charges, given_back, live};
use crate::limits::FARTHEST;
use dcc_act::{MAX_SERVICES, Service, ServiceAnswer};
use dcc_model::{CEILING, answer_by, made_prices};
use dcc_session::Held;
use std::alloc::{AllocError, Global};

/// The answers to these services in order, each in the room that the services before leave, at so much free money.
pub(crate) fn answers(
    alloc: Global,
    free: i128,
    own: &[Held],
    services: &[Service],
) -> Result<Vec<ServiceAnswer>, AllocError>
    requires few { length services.now ≤ MAX_SERVICES }
    requires free_low { neg_ℤ FARTHEST ≤ℤ free }
    requires free_high { free ≤ℤ CEILING }
    ensures value { IfOk result (λ made. made.items ≡ answers_in free own.now services.now [] services.now) }
    ensures as_many { IfOk result (λ made. length made.items ≡ length services.now) }
    ensures ids { IfOk result (λ made. sum_by (λ (answer : ServiceAnswer). length answer.ids) made.items
        ≡ sum_by (λ (service : ServiceView). length service.ids) services.now) }
{
    let mut answers = Vec::with_capacity(alloc, services.len())?;
    for service in services {
        let space = room(free, own, services, &answers);
        answers.push(answer_to(own, service, space)?)?;
    }
    Ok(answers)
}

/// The answer to a service in its room.
fn answer_to(own: &[Held], service: &Service, space: i128) -> Result<ServiceAnswer, AllocError>
    ensures value { IfOk result (λ answer. answer ≡ answer_to_in own.now service.now space) }
    ensures ids { IfOk result (λ answer. answer.ids ≡ service.now.ids) }
{
    answer_by(live(own, service.key()), service, space)
}

/// The room of the next service's grant, after the grants that the request made to the services before.
fn room(free: i128, own: &[Held], services: &[Service], before: &[ServiceAnswer]) -> i128
    requires few { length services.now ≤ MAX_SERVICES }
    requires few_before { length before.now ≤ MAX_SERVICES }
    requires free_low { neg_ℤ FARTHEST ≤ℤ free }
    requires free_high { free ≤ℤ CEILING }
    ensures { result ≡ room_in free own.now services.now before.now }
{
    let charged = charges(own, services);
    let made = made_prices(before);
    free + given_back(own, services) - (charged + made)
}
