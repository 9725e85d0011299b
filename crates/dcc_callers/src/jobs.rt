//! What gateways ask for: debits, and the opening of a session.

ghost use Rattle.std.specs.Prelude.{◌≡◌, true, is_some, IfSome};
ghost use Rattle.dcc_model.specs.Keys.{request_key};

use dcc_act::{
    Act, Action, Form, Kind, Moment, OneTimeEvent, RequestKey, Service, ServiceIds, Services,
    SessionId, SessionLimit, SessionRequest, Sub,
};
use dcc_answer::Proxies;
use dcc_message::Header;
use dcc_running::Job;
use dcc_tariff::{Tariff, UnitKind};
use std::alloc::Global;

/// The moment so many seconds after 2025-07-01T00:00:00Z. None past the last moment.
pub fn after(seconds: u32) -> Option<Moment> {
    Moment::new(1_751_328_000 + u64::from(seconds))
}

/// 1,000 octets at 5 minor units per 1,000, which cost 5.
fn service(alloc: Global) -> Service
    ensures { is_some result.asked ≡ true }
{
    Service {
        group: None,
        ids: ServiceIds::new(alloc),
        form: Form::Single,
        asked: Some(1000),
        used: None,
        unit: Some(UnitKind::Octets),
        tariff: Some(Tariff {
            price: 5,
            block: 1000,
        }),
    }
}

/// The request of this number in a session.
fn key(alloc: Global, name: &[u8], number: u32) -> Option<RequestKey> {
    let sid = SessionId::from_slice(alloc, name).ok()??;
    Some(RequestKey { sid, number })
}

/// A job of this act, under a header that has its number.
fn job(alloc: Global, sub: Sub, act: Act, number: u32) -> Job
    ensures { (result.sub ≡ sub) × (result.act ≡ act) }
{
    let header = Header {
        length: 20,
        flags: 192,
        code: 272,
        app: 4,
        hop: number,
        end_to_end: number,
    };
    Job {
        sub,
        act,
        header,
        proxies: Proxies::none(alloc),
    }
}

/// The act of a one-time event in a session of this name. None if there is no such name, or memory is short.
fn event(alloc: Global, action: Action, name: &[u8], number: u32) -> Option<Act>
    ensures { IfSome result (λ act. is_some (request_key act.kind) ≡ true) }
{
    let moment = after(0)?;
    let key = key(alloc, name, number)?;
    let kind = Kind::Event(OneTimeEvent {
        key,
        action,
        service: service(alloc),
    });
    Some(Act { moment, kind })
}

/// The job that asks for it.
pub(crate) fn event_job(
    alloc: Global,
    sub: Sub,
    action: Action,
    name: &[u8],
    number: u32,
) -> Option<Job>
    ensures sub { IfSome result (λ job. job.sub ≡ sub) }
    ensures request { IfSome result (λ job. is_some (request_key job.act.kind) ≡ true) }
{
    let act = event(alloc, action, name, number)?;
    Some(job(alloc, sub, act, number))
}

/// The services of a job that opens a session.
fn services(alloc: Global) -> Option<Services> {
    let mut services = Vec::new(alloc);
    services.push(service(alloc)).ok()?;
    Services::from_vec(services)
}

/// The job that opens a session.
pub(crate) fn opening(alloc: Global, sub: Sub, name: &[u8]) -> Option<Job> {
    let moment = after(0)?;
    let key = key(alloc, name, 0)?;
    let services = services(alloc)?;
    let kind = Kind::Initial {
        request: SessionRequest { key, services },
        limit: SessionLimit::Few,
        host: None,
    };
    Some(job(alloc, sub, Act { moment, kind }, 0))
}
