//! The services of a request.

ghost use Rattle.std.specs.Prelude.{◌≡◌, ◌≤◌, ◌↔◌, true, List, [], length, map, sum_by, IsSome, IfSome, IfOk};
ghost use Rattle.std.specs.List.{list_any, list_all};
ghost use Rattle.dcc_act.specs.Services.{service_key, is_multi, stand_right, are_services};
ghost use Rattle.dcc_act.specs.ServiceKeys.{are_apart, same_service};

use crate::limits::{MAX_IDS, MAX_SERVICES};
use crate::service::{Form, Service};
use crate::service_key::ServiceKey;
use std::alloc::{AllocError, Global};
use std::marker::Model;

/// The services of a request, in its order: at most 32, with at most 5,460 identifiers together, each of a key of its own.
/// A service in single form is the only service.
#[derive(Debug, Drop)]
pub struct Services {
    items: Vec<Service>,
}

impl Model for Services {
    ghost use Rattle.std.specs.Prelude.{◌≡◌, true, List};
    ghost use Rattle.dcc_act.specs.Services.{ServiceView, are_services};

    ghost Value = { List ServiceView };

    ghost view = { λ s. s.items.items };

    ghost invariant = { λ s. are_services s.items.items ≡ true };
}

impl Services {
    /// No services. It takes no memory.
    pub fn new(alloc: Global) -> Services
        ensures { result ≡ [] }
    {
        Services {
            items: Vec::new(alloc),
        }
    }

    /// These services. None if they are past a limit, if two of them have one key, or if a service in single form is not
    /// the only one.
    pub fn from_vec(items: Vec<Service>) -> Option<Services>
        ensures limits { IsSome result ↔ (are_services items.items ≡ true) }
        ensures value { IfSome result (λ services. services ≡ items.items) }
    {
        if !are_services(&items) {
            return None;
        }
        Some(Services { items })
    }

    /// The services, moved out.
    pub fn into_vec(self) -> Vec<Service>
        ensures value { result.items ≡ self }
        ensures limits { are_services self ≡ true }
    {
        self.items
    }

    /// The services.
    pub fn as_slice(&self) -> &[Service]
        ensures value { result.now ≡ self.now }
        ensures limits { are_services self.now ≡ true }
    {
        &self.items
    }

    /// Equal services. The only error is want of memory.
    pub fn copy(&self) -> Result<Services, AllocError>
        ensures { IfOk result (λ copy. copy ≡ self.now) }
    {
        Ok(Services {
            items: copied(*self.items.allocator(), &self.items)?,
        })
    }
}

/// Whether a request may have these services.
fn are_services(services: &[Service]) -> bool
    ensures { result ≡ are_services services.now }
{
    services.len() <= MAX_SERVICES
        && count_ids(services) <= MAX_IDS
        && are_apart(services)
        && stand_right(services)
}

/// How many identifiers the services have together.
fn count_ids(services: &[Service]) -> usize
    requires { length services.now ≤ MAX_SERVICES }
    ensures { result ≡ sum_by (λ service. length service.ids) services.now }
{
    let mut count = 0;
    for service in services {
        count += service.ids.as_slice().len();
    }
    count
}

/// Whether no two services have one key.
#[tactic(auto, using(crate::proofs::ServiceKeys::any_key))]
fn are_apart(services: &[Service]) -> bool
    ensures { result ≡ are_apart (map service_key services.now) }
{
    match services.split_first() {
        None => true,
        Some((service, others)) => !is_among(service.key(), others) && are_apart(others),
    }
}

/// Whether any of the services has this key.
fn is_among(key: ServiceKey, services: &[Service]) -> bool
    ensures { result ≡ list_any (λ other. same_service key (service_key other)) services.now }
{
    services.iter().any(|other| key.is_same(other.key()))
}

/// Whether a service in single form is the only service.
fn stand_right(services: &[Service]) -> bool
    ensures { result ≡ stand_right services.now }
{
    services.len() <= 1 || are_multi(services)
}

/// Whether each service stands in a Multiple-Services-Credit-Control.
fn are_multi(services: &[Service]) -> bool
    ensures { result ≡ list_all (λ service. is_multi service.form) services.now }
{
    services.iter().all(|service| is_multi(service.form))
}

/// Whether a service stands in a Multiple-Services-Credit-Control.
fn is_multi(form: Form) -> bool
    ensures { result ≡ is_multi form }
{
    match form {
        Form::Single => false,
        Form::Multi => true,
    }
}

/// A copy of each service.
fn copied(alloc: Global, services: &[Service]) -> Result<Vec<Service>, AllocError>
    ensures { IfOk result (λ copies. copies.items ≡ services.now) }
{
    let mut copies = Vec::with_capacity(alloc, services.len())?;
    for service in services {
        copies.push(service.copy()?)?;
    }
    Ok(copies)
}
