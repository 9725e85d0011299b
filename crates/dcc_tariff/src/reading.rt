//! Plans from their texts.

ghost use Rattle.std.specs.Prelude.{◌≡◌};
ghost use Rattle.std.specs.List.{list_any};
ghost use Rattle.toml.specs.View.{table_view};
ghost use Rattle.dcc_tariff.specs.Plans.{is_of};
ghost use Rattle.dcc_tariff.specs.PlanTexts.{plan_of_text, plan_of, terms_of, Gives};

use crate::fault::PlanFault;
use crate::keys::{address_at, identity_at, integer_at, number_at};
use crate::limits::{MAX_HOLD, MAX_SHARDS, MAX_UNITS};
use crate::place::places_of;
use crate::plan::Plan;
use crate::tables::{tables_at, versions_of};
use crate::terms::Terms;
use crate::version::{Version, agree};
use std::alloc::Global;
use toml::Table;

impl Plan {
    /// The plan of a TOML document, or its first fault (20 to 23) in the order of the keys. Keys of other names are
    /// ignored. The only other error is want of memory.
    #[tactic(auto, unfolding(crate::specs::PlanTexts::plan_of_text))]
    pub fn read(alloc: Global, text: &str) -> Result<Plan, PlanFault>
        ensures { Gives result (plan_of_text text.now) }
    {
        match toml::table_from_str(alloc, text) {
            Ok(table) => plan_of(alloc, &table),
            Err(error) => {
                if error.is_memory() {
                    Err(PlanFault::Memory)
                } else {
                    Err(PlanFault::NotToml)
                }
            }
        }
    }
}

#[tactic(auto, unfolding(crate::specs::PlanTexts::plan_of))]
fn plan_of(alloc: Global, table: &Table) -> Result<Plan, PlanFault>
    ensures { Gives result (plan_of (table_view table.now)) }
{
    let host = identity_at(alloc, table, "host")?;
    let realm = identity_at(alloc, table, "realm")?;
    let address = address_at(table, "address")?;
    let shards = number_at(table, "shards", 1, MAX_SHARDS as u64)? as u8;
    let default_group = number_at(table, "default_group", 0, u64::from(u32::MAX))? as u32;
    let quantum = number_at(table, "quantum", 1, MAX_UNITS)?;
    let terms = terms_of(table)?;
    let versions = versions_of(alloc, tables_at(table, "tariff")?.as_slice())?;
    if !agree(versions.as_slice()) || !has_group(versions.as_slice(), default_group) {
        return Err(PlanFault::Range);
    }
    let places = places_of(alloc, versions.as_slice())?;
    Ok(Plan {
        host,
        realm,
        address,
        shards,
        default_group,
        quantum,
        terms,
        versions,
        places,
    })
}

#[tactic(auto, unfolding(crate::specs::PlanTexts::terms_of))]
fn terms_of(table: &Table) -> Result<Terms, PlanFault>
    ensures { result ≡ terms_of (table_view table.now) }
{
    Ok(Terms {
        validity: number_at(table, "validity", 1, MAX_HOLD as u64)? as u32,
        hold: number_at(table, "hold", 1, MAX_HOLD as u64)? as u32,
        currency: number_at(table, "currency", 0, 999)? as u32,
        exponent: integer_at(table, "exponent", -9, 9)? as i32,
    })
}

/// Whether the group has a version.
fn has_group(versions: &[Version], group: u32) -> bool
    ensures { result ≡ list_any (is_of group) versions.now }
{
    versions.iter().any(|version| version.group == group)
}
