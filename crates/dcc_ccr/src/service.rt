//! The services of a request.

ghost use Rattle.std.specs.Prelude.{◌≡◌, Ok};
ghost use Rattle.dcc_request.specs.Answers.{Gives};
ghost use Rattle.dcc_ccr.specs.Services.{ServiceView, FitsSeconds, service_in, service_of, multi_of, is_there, services_of};

use crate::amounts::{Amounts, asked_in, used_in};
use crate::request_type::RequestType;
use crate::steps::number_of;
use dcc_act::Form;
use dcc_avp::{Avp, codes};
use dcc_request::{Parts, Stop, number, read_each, read_message_list};
use std::alloc::Global;
use std::marker::Model;

/// One service of a request: at the level of the message, or in a Multiple-Services-Credit-Control of its own (RFC 8506,
/// section 8.16).
#[derive(Debug, Drop)]
pub struct Service {
    form: Form,
    group: Option<u32>,
    ids: Vec<u32>,
    asked: Option<Amounts>,
    used: Option<Amounts>,
}

impl Model for Service {
    ghost use Rattle.dcc_ccr.specs.Services.{ServiceView, FitsSeconds};

    ghost Value = { ServiceView };

    ghost view = { λ s. record { form = s.form; group = s.group; ids = s.ids.items; asked = s.asked; used = s.used } };

    ghost invariant = { λ s. FitsSeconds s.asked };
}

impl Service {
    /// The form of the service: at the level of the message, or in a Multiple-Services-Credit-Control.
    pub fn form(&self) -> Form
        ensures { result ≡ self.now.form }
    {
        self.form
    }

    /// The Rating-Group as sent (RFC 8506, section 8.29). A service at the level of the message has none.
    pub fn group(&self) -> Option<u32>
        ensures { result ≡ self.now.group }
    {
        self.group
    }

    /// The Service-Identifiers as sent (RFC 8506, section 8.28).
    pub fn ids(&self) -> &[u32]
        ensures { result.now ≡ self.now.ids }
    {
        &self.ids
    }

    /// The Service-Identifiers, moved out.
    pub fn into_ids(self) -> Vec<u32>
        ensures { result.items ≡ self.ids }
    {
        self.ids
    }

    /// The amounts asked for, if a Requested-Service-Unit is there (RFC 8506, section 8.18); at most 2^32 - 1 seconds.
    pub fn asked(&self) -> Option<Amounts>
        ensures value { result ≡ self.now.asked }
        ensures limit { FitsSeconds self.now.asked }
    {
        self.asked
    }

    /// The amounts used, if a Used-Service-Unit is there: the sum of all of them (RFC 8506, section 8.19).
    pub fn used(&self) -> Option<Amounts>
        ensures { result ≡ self.now.used }
    {
        self.used
    }
}

/// Service-Identifiers; `InvalidAvpLength` with one that hasn't four octets.
#[derive(Drop)]
struct Identifiers;

impl<'a> Parts<'a> for Identifiers {
    ghost use Rattle.dcc_avp.specs.Spelling.{has_code};
    ghost use Rattle.dcc_avp.specs.declared.codes.TheConstants.{SERVICE_IDENTIFIER};
    ghost use Rattle.dcc_request.specs.Values.{number};

    type Part = u32;

    ghost holds = { λ _. has_code SERVICE_IDENTIFIER };

    ghost part_of = { number };

    fn holds(&self, avp: &Avp<'a>) -> bool {
        avp.has_code(codes::SERVICE_IDENTIFIER)
    }

    fn read(&self, _alloc: Global, avp: &Avp<'a>) -> Result<u32, Stop<'a>> {
        Ok(number(avp)?)
    }
}

/// The service of a group in a list: the identifiers, the amounts asked for, and the amounts used.
#[tactic(auto, unfolding(crate::specs::Services::service_in))]
pub(crate) fn service_in<'a>(
    alloc: Global,
    form: Form,
    group: Option<u32>,
    avps: &[Avp<'a>],
) -> Result<Service, Stop<'a>>
    ensures { Gives (λ service. service) result (service_in form group avps.now) }
{
    Ok(Service {
        form,
        group,
        ids: read_each(alloc, &Identifiers, avps)?,
        asked: asked_in(alloc, avps)?,
        used: used_in(alloc, avps)?,
    })
}

/// The service of a Multiple-Services-Credit-Control.
#[tactic(auto, unfolding(crate::specs::Services::service_of))]
fn service_of<'a>(alloc: Global, avp: &Avp<'a>) -> Result<Service, Stop<'a>>
    ensures { Gives (λ service. service) result (service_of avp.now) }
{
    let avps = read_message_list(alloc, avp.value())?;
    let group = number_of(&avps, codes::RATING_GROUP)?;
    service_in(alloc, Form::Multi, group, &avps)
}

/// Services, each in a Multiple-Services-Credit-Control of its own.
#[derive(Drop)]
struct Services;

impl<'a> Parts<'a> for Services {
    ghost use Rattle.dcc_avp.specs.Spelling.{has_code};
    ghost use Rattle.dcc_avp.specs.declared.codes.TheConstants.{MULTIPLE_SERVICES_CREDIT_CONTROL};
    ghost use Rattle.dcc_ccr.specs.Services.{service_of};

    type Part = Service;

    ghost holds = { λ _. has_code MULTIPLE_SERVICES_CREDIT_CONTROL };

    ghost part_of = { service_of };

    fn holds(&self, avp: &Avp<'a>) -> bool {
        avp.has_code(codes::MULTIPLE_SERVICES_CREDIT_CONTROL)
    }

    fn read(&self, alloc: Global, avp: &Avp<'a>) -> Result<Service, Stop<'a>> {
        service_of(alloc, avp)
    }
}

/// The services of all Multiple-Services-Credit-Control, in their order.
#[tactic(auto, unfolding(crate::specs::Services::multi_of))]
pub(crate) fn multi_of<'a>(alloc: Global, avps: &[Avp<'a>]) -> Result<Vec<Service>, Stop<'a>>
    ensures { Gives (λ services. services.items) result (multi_of avps.now) }
{
    read_each(alloc, &Services, avps)
}

/// Whether any part of a service is there.
fn is_there(service: &Service) -> bool
    ensures { result ≡ is_there service.now }
{
    !service.ids.is_empty() || service.asked.is_some() || service.used.is_some()
}

/// The services of a request: those in Multiple-Services-Credit-Control, or else that of the message, if it is there or
/// the request is an event.
pub(crate) fn services_of<'a>(
    kind: RequestType,
    single: Service,
    multi: Vec<Service>,
) -> Result<Vec<Service>, Stop<'a>>
    ensures { Gives (λ services. services.items) result (Ok (services_of kind single multi.items)) }
{
    let mut services = multi;
    if services.is_empty() && (kind.is_event() || is_there(&single)) {
        services.push(single)?;
    }
    Ok(services)
}
