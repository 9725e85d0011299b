//! The tariffs of a plan's tables.

ghost use Rattle.std.specs.Prelude.{◌≡◌, ◌≤◌, ◌+◌, true, is_some, [], length, vec_len, IfOk, OnOk};
ghost use Rattle.std.specs.List.{list_all};
ghost use Rattle.toml.specs.Data.{as_array, as_table};
ghost use Rattle.toml.specs.View.{view, items_view, array_view, table_view};
ghost use Rattle.dcc_tariff.specs.Plans.{are_ordered};
ghost use Rattle.dcc_tariff.specs.PlanTexts.{value_at, tables_at, version_of, version_of_value, versions_onto, place, Gives};
ghost use Rattle.dcc_tariff.specs.inner.Seen.{seen_by};
ghost use Rattle.dcc_tariff.specs.PlanTexts.{GivesBy};

use crate::fault::PlanFault;
use crate::keys::{found_at, moment_at, number_at, unit_at};
use crate::limits::{MAX_BLOCK_PRICE, MAX_TABLES, MAX_UNITS};
use crate::tariff::Tariff;
use crate::version::Version;
use std::alloc::{AllocError, Global};
use toml::value::Array;
use toml::{Table, Value};

/// The tables of a key, 1 to 1,000; fault 21 if the key is missing or its value is no list of tables, fault 22 outside
/// these limits.
#[tactic(auto, unfolding(crate::specs::PlanTexts::tables_at))]
pub(crate) fn tables_at<'a>(table: &'a Table, key: &str) -> Result<&'a Array, PlanFault>
    ensures value { seen_by (λ tables. array_view tables.now) result ≡ tables_at key.now (table_view table.now) }
    ensures few { IfOk result (λ tables. vec_len tables.now ≤ MAX_TABLES) }
{
    let tables = array_at(table, key)?;
    if !are_tables(tables.as_slice()) {
        return Err(PlanFault::MissingKey);
    }
    if tables.is_empty() || tables.len() > MAX_TABLES {
        return Err(PlanFault::Range);
    }
    Ok(tables)
}

fn array_at<'a>(table: &'a Table, key: &str) -> Result<&'a Array, PlanFault>
    ensures { seen_by (λ tables. array_view tables.now) result ≡ value_at as_array key.now (table_view table.now) }
{
    match found_at(table, key)?.as_array() {
        Some(array) => Ok(array),
        None => Err(PlanFault::MissingKey),
    }
}

fn are_tables(values: &[Value]) -> bool
    ensures { result ≡ list_all (λ value. is_some (as_table (view value))) values.now }
{
    values.iter().all(|value| value.is_table())
}

/// The versions of the tables, in the order of versions.
pub(crate) fn versions_of(alloc: Global, tables: &[Value]) -> Result<Vec<Version>, PlanFault>
    ensures value { GivesBy (λ v. v.items) result (versions_onto [] (items_view tables.now)) }
    ensures ordered { IfOk result (λ v. are_ordered v.items ≡ true) }
    ensures few { IfOk result (λ v. vec_len v ≡ length tables.now) }
{
    let mut versions = Vec::new(alloc);
    for table in tables {
        let version = version_of_value(table)?;
        put(&mut versions, version)?;
    }
    Ok(versions)
}

/// Puts a version in its place among those that are in order.
fn put(versions: &mut Vec<Version>, version: Version) -> Result<(), AllocError>
    requires { are_ordered versions.old.items ≡ true }
    ensures items { OnOk result (versions.new.items ≡ place version versions.old.items) }
    ensures ordered { OnOk result (are_ordered versions.new.items ≡ true) }
    ensures len { OnOk result (vec_len versions.new ≡ vec_len versions.old + 1) }
{
    let at = versions
        .as_slice()
        .partition_point(|other| other.precedes(&version));
    versions.insert(at, version)?;
    Ok(())
}

fn version_of_value(value: &Value) -> Result<Version, PlanFault>
    ensures { result ≡ version_of_value (view value.now) }
{
    match value.as_table() {
        Some(table) => version_of(table),
        None => Err(PlanFault::MissingKey),
    }
}

/// One version of a group's tariff, or the first fault in the order of its keys.
#[tactic(auto, unfolding(crate::specs::PlanTexts::version_of))]
fn version_of(table: &Table) -> Result<Version, PlanFault>
    ensures { result ≡ version_of (table_view table.now) }
{
    let group = number_at(table, "group", 0, u64::from(u32::MAX))? as u32;
    let unit = unit_at(table, "unit")?;
    let from = moment_at(table, "from")?;
    let price = number_at(table, "price", 0, MAX_BLOCK_PRICE as u64)? as u32;
    let block = number_at(table, "block", 1, MAX_UNITS)?;
    Ok(Version {
        group,
        unit,
        from,
        tariff: Tariff { price, block },
    })
}
