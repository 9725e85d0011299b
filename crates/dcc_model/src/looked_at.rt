//! The services of a session's request, as the request counts them.

ghost use Rattle.std.specs.Prelude.{◌≡◌, ◌≤◌, true, length, map, sum_by, IfOk};
ghost use Rattle.dcc_act.specs.Services.{ServiceView, are_services};
ghost use Rattle.dcc_act.specs.declared.limits.TheConstants.{MAX_SERVICES, MAX_IDS};
ghost use Rattle.dcc_model.specs.Sessions.{without_report, without_asked, looked_at};

use dcc_act::{Kind, MAX_IDS, MAX_SERVICES, Service};
use std::alloc::{AllocError, Global};

/// The services of an act, as the act counts them: those of an initial request without reports, those of a termination
/// without the units that they ask for. They are within the limits of a request's services. The only error is want of
/// memory.
pub fn services_looked_at(alloc: Global, kind: &Kind) -> Result<Vec<Service>, AllocError>
    ensures value { IfOk result (λ services. services.items ≡ looked_at kind.now) }
    ensures few { IfOk result (λ services. length services.items ≤ MAX_SERVICES) }
    ensures few_ids { IfOk result (λ services. sum_by (λ (service : ServiceView). length service.ids) services.items ≤ MAX_IDS) }
    ensures limits { IfOk result (λ services. are_services services.items ≡ true) }
{
    match kind {
        Kind::Initial { request, .. } => without_reports(alloc, request.services.as_slice()),
        Kind::Update(request) => Ok(request.services.copy()?.into_vec()),
        Kind::Termination(request) => without_wishes(alloc, request.services.as_slice()),
        Kind::TopUp(_) | Kind::Event(_) | Kind::Expiry => Ok(Vec::new(alloc)),
    }
}

/// The services without their reports.
fn without_reports(alloc: Global, services: &[Service]) -> Result<Vec<Service>, AllocError>
    ensures { IfOk result (λ kept. kept.items ≡ map without_report services.now) }
{
    let mut kept = Vec::with_capacity(alloc, services.len())?;
    for service in services {
        kept.push(without_report(service)?)?;
    }
    Ok(kept)
}

/// The services without the units that they ask for.
fn without_wishes(alloc: Global, services: &[Service]) -> Result<Vec<Service>, AllocError>
    ensures { IfOk result (λ kept. kept.items ≡ map without_asked services.now) }
{
    let mut kept = Vec::with_capacity(alloc, services.len())?;
    for service in services {
        kept.push(without_asked(service)?)?;
    }
    Ok(kept)
}

/// A service without its report.
fn without_report(service: &Service) -> Result<Service, AllocError>
    ensures { IfOk result (λ kept. kept ≡ without_report service.now) }
{
    Ok(Service {
        group: service.group,
        ids: service.ids.copy()?,
        form: service.form,
        asked: service.asked,
        used: None,
        unit: service.unit,
        tariff: service.tariff,
    })
}

/// A service without the units that it asks for.
fn without_asked(service: &Service) -> Result<Service, AllocError>
    ensures { IfOk result (λ kept. kept ≡ without_asked service.now) }
{
    Ok(Service {
        group: service.group,
        ids: service.ids.copy()?,
        form: service.form,
        asked: None,
        used: service.used,
        unit: service.unit,
        tariff: service.tariff,
    })
}
