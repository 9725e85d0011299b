//! A plan, as an operator's file has it.

ghost use Rattle.std.specs.Prelude.{◌≡◌, ◌≤◌, ◌^◌, true, Some, IsSome, IfSome, IfOk};
ghost use Rattle.dcc_tariff.specs.Plans.{unit_of, tariff_at};
ghost use Rattle.dcc_octets.specs.Names.{is_name};

use crate::limits::{MAX_SHARDS, MAX_UNITS};
use crate::place::place_of;
use crate::tariff::{Tariff, UnitKind};
use crate::terms::Terms;
use crate::version::{Version, version_at, version_of_group};
use std::alloc::AllocError;
use std::marker::Model;

/// A plan: the server's names and address, its terms, and the tariffs of each rating group.
#[derive(Debug, Drop)]
pub struct Plan {
    pub(crate) host: String,
    pub(crate) realm: String,
    pub(crate) address: [u8; 4],
    pub(crate) shards: u8,
    pub(crate) default_group: u32,
    pub(crate) quantum: u64,
    pub(crate) terms: Terms,
    pub(crate) versions: Vec<Version>,
    /// The places at which look-ups begin.
    pub(crate) places: Vec<u16>,
}

impl Model for Plan {
    ghost use Rattle.std.specs.Prelude.{string_bytes};
    ghost use Rattle.dcc_tariff.specs.Plans.{PlanView};
    ghost use Rattle.dcc_tariff.specs.inner.PlanViews.{shown, IsPlan};

    ghost Value = { PlanView };

    ghost view = { shown };

    ghost invariant = { λ p. IsPlan (shown p) };
}

impl Plan {
    /// The host by which the server names itself, 1 to 255 visible characters of ASCII (Origin-Host, RFC 6733, section 6.3).
    pub fn host(&self) -> &[u8]
        ensures value { result.now ≡ self.now.host }
        ensures limits { is_name result.now ≡ true }
    {
        self.host.as_bytes()
    }

    /// The realm by which the server names itself, within the same limits (Origin-Realm, RFC 6733, section 6.4).
    pub fn realm(&self) -> &[u8]
        ensures value { result.now ≡ self.now.realm }
        ensures limits { is_name result.now ≡ true }
    {
        self.realm.as_bytes()
    }

    /// The server's IPv4 address (Host-IP-Address, RFC 6733, section 5.3.5).
    pub fn address(&self) -> [u8; 4]
        ensures { result ≡ self.now.address }
    {
        self.address
    }

    /// The number of shards among which the subscribers are divided, 1 to 8.
    pub fn shards(&self) -> u8
        ensures value { result ≡ self.now.shards }
        ensures some { 1 ≤ result }
        ensures limit { result ≤ MAX_SHARDS }
    {
        self.shards
    }

    /// The rating group of a service that names none. It has a unit.
    pub fn default_group(&self) -> u32
        ensures value { result ≡ self.now.default_group }
        ensures in_plan { IsSome (unit_of self.now result) }
    {
        self.default_group
    }

    /// The units for which an asked amount of 0 stands in a session, 1 to 10^12. In an event 0 stands for 1.
    pub fn quantum(&self) -> u64
        ensures value { result ≡ self.now.quantum }
        ensures some { 1 ≤ result }
        ensures limit { result ≤ MAX_UNITS }
    {
        self.quantum
    }

    /// The terms by which accounts are judged.
    pub fn terms(&self) -> &Terms
        ensures { result.now ≡ self.now.terms }
    {
        &self.terms
    }

    /// An equal plan. The only error is want of memory.
    pub fn copy(&self) -> Result<Plan, AllocError>
        ensures { IfOk result (λ copy. copy ≡ self.now) }
    {
        Ok(Plan {
            host: self.host.clone()?,
            realm: self.realm.clone()?,
            address: self.address,
            shards: self.shards,
            default_group: self.default_group,
            quantum: self.quantum,
            terms: self.terms,
            versions: self.versions.clone()?,
            places: self.places.clone()?,
        })
    }

    /// The unit of a group, if the plan has the group.
    pub fn unit(&self, group: u32) -> Option<UnitKind>
        ensures { result ≡ unit_of self.now group }
    {
        let version = version_of_group(self.versions.as_slice(), group)?;
        Some(version.unit)
    }

    /// The unit and the tariff of a group at a moment: those of the version with the greatest `from` at or before it.
    pub fn at(&self, group: u32, moment: u64) -> Option<(UnitKind, Tariff)>
        ensures value { result ≡ tariff_at self.now group moment }
        ensures unit { IfSome result (λ found. unit_of self.now group ≡ Some found.0) }
    {
        let place = place_of(&self.places, group);
        let version = version_at(self.versions.as_slice(), place, group, moment)?;
        Some((version.unit, version.tariff))
    }
}
