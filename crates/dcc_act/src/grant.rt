//! Grants.

ghost use Rattle.std.specs.Prelude.{◌≡◌, ◌↔◌, IsSome, IfSome};
ghost use Rattle.dcc_act.specs.Grants.{IsGrant};

use crate::limits::MAX_SECONDS;
use dcc_tariff::{MAX_UNITS, Tariff, UnitKind};
use std::marker::Model;

/// Granted units, and their tariff (Granted-Service-Unit, RFC 8506, section 8.17).
#[derive(Clone, Copy, Debug, PartialEq, Eq)]
pub struct Grant {
    pub unit: UnitKind,
    /// The number of units: at most 10^12, and of seconds at most 2^32 - 1.
    pub units: u64,
    pub tariff: Tariff,
}

impl Model for Grant {
    ghost use Rattle.dcc_act.specs.Grants.{GrantView, IsGrant};

    ghost Value = { GrantView };

    ghost view = { λ g. record { unit = g.unit; units = g.units; tariff = g.tariff } };

    ghost invariant = { λ g. IsGrant g.unit g.units };

    ghost inverse = { λ v. record { unit = v.unit; units = v.units; tariff = v.tariff } };
}

impl Grant {
    /// So many units at this tariff. None if they are more than 10^12, or seconds and more than 2^32 - 1.
    pub fn new(unit: UnitKind, units: u64, tariff: Tariff) -> Option<Grant>
        ensures limits { IsSome result ↔ IsGrant unit units }
        ensures value { IfSome result (λ grant. grant ≡ record { unit = unit; units = units; tariff = tariff }) }
    {
        if units > MAX_UNITS || unit == UnitKind::Time && units > MAX_SECONDS {
            return None;
        }
        Some(Grant {
            unit,
            units,
            tariff,
        })
    }
}
