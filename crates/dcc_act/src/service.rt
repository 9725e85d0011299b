//! Services of a request.

ghost use Rattle.std.specs.Prelude.{◌≡◌, IfOk};
ghost use Rattle.dcc_act.specs.Services.{service_key};

use crate::service_ids::ServiceIds;
use crate::service_key::ServiceKey;
use dcc_tariff::{Tariff, UnitKind};
use std::alloc::AllocError;
use std::marker::Model;

/// The form of a service: its place in its request.
#[derive(Clone, Copy, Debug, PartialEq, Eq)]
pub enum Form {
    /// At the level of the message.
    Single,
    /// In a Multiple-Services-Credit-Control of its own (RFC 8506, section 8.16).
    Multi,
}

/// One service of a request. Without a unit its amounts are 0 and have no meaning, and it has no tariff.
#[derive(Debug, PartialEq, Eq, Drop)]
pub struct Service {
    /// The Rating-Group, as sent.
    pub group: Option<u32>,
    /// The Service-Identifiers, as sent.
    pub ids: ServiceIds,
    pub form: Form,
    /// The units asked for: at most 10^12; with a unit at least 1, and of seconds at most 2^32 - 1.
    pub asked: Option<u64>,
    /// The units reported as used: at most 10^12.
    pub used: Option<u64>,
    /// The unit that the plan counts for the group. None if the plan doesn't have the group.
    pub unit: Option<UnitKind>,
    /// The price of the units at the act's moment.
    pub tariff: Option<Tariff>,
}

impl Model for Service {
    ghost use Rattle.dcc_act.specs.Services.{ServiceView, IsService};

    ghost Value = { ServiceView };

    ghost view = { λ s. record {
      group = s.group;
      ids = s.ids;
      form = s.form;
      asked = s.asked;
      used = s.used;
      unit = s.unit;
      tariff = s.tariff;
    } };

    ghost invariant = { λ s. IsService s.asked s.used s.unit s.tariff };

    ghost inverse = { λ v. record {
      group = v.group;
      ids = v.ids;
      form = v.form;
      asked = v.asked;
      used = v.used;
      unit = v.unit;
      tariff = v.tariff;
    } };
}

impl Service {
    /// Its key among the services of its session.
    pub fn key(&self) -> ServiceKey
        ensures { result ≡ service_key self.now }
    {
        ServiceKey {
            group: self.group,
            id: self.ids.as_slice().first().copied(),
        }
    }

    /// An equal service. The only error is want of memory.
    pub fn copy(&self) -> Result<Service, AllocError>
        ensures { IfOk result (λ copy. copy ≡ self.now) }
    {
        Ok(Service {
            group: self.group,
            ids: self.ids.copy()?,
            form: self.form,
            asked: self.asked,
            used: self.used,
            unit: self.unit,
            tariff: self.tariff,
        })
    }
}
