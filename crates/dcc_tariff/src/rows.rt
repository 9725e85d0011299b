//! The plan of the worked examples.

ghost use Rattle.std.specs.Prelude.{◌≡◌, IfOk};
ghost use Rattle.dcc_tariff.specs.Rows.{rows_plan, version_of};
ghost use Rattle.dcc_tariff.specs.Terms.{IsTariff};

use crate::place::places_of;
use crate::plan::Plan;
use crate::tariff::{Tariff, UnitKind};
use crate::terms::Terms;
use crate::version::Version;
use std::alloc::{AllocError, Global};

/// The beginning of 2020.
const SINCE_2020: u64 = 1_577_836_800;

impl Plan {
    /// The plan of the worked examples, for tests: group 10 counts octets at 5 for each 1,000, group 20 seconds at 2 for each
    /// 60, group 30 units for nothing, all from the beginning of 2020. The only error is want of memory.
    pub fn rows(alloc: Global) -> Result<Plan, AllocError>
        ensures { IfOk result (λ plan. plan ≡ rows_plan) }
    {
        let versions = vec![in alloc;
            version(10, UnitKind::Octets, 5, 1000),
            version(20, UnitKind::Time, 2, 60),
            version(30, UnitKind::Units, 0, 1),
        ]?;
        let places = places_of(alloc, versions.as_slice())?;
        Ok(Plan {
            host: String::from_str(alloc, "ocs.example")?,
            realm: String::from_str(alloc, "example")?,
            address: [127, 0, 0, 1],
            shards: 2,
            default_group: 10,
            quantum: 100_000,
            terms: Terms {
                validity: 600,
                hold: 1200,
                currency: 978,
                exponent: -2,
            },
            versions,
            places,
        })
    }
}

/// A version of a group that holds from the beginning of 2020.
fn version(group: u32, unit: UnitKind, price: u32, block: u64) -> Version
    requires { IsTariff (record { price = price; block = block }) }
    ensures { result ≡ version_of group unit price block }
{
    Version {
        group,
        unit,
        from: SINCE_2020,
        tariff: Tariff { price, block },
    }
}
