//! The values of a table's keys. Each has its type and is within its limits, or it is a fault.

ghost use Rattle.std.specs.Prelude.{◌≡◌, ◌≤◌, ◌<◌, ◌≤ℤ◌, ◌^◌, true, string_bytes, IfOk};
ghost use Rattle.toml.specs.Data.{as_str};
ghost use Rattle.toml.specs.View.{view, table_view};
ghost use Rattle.dcc_octets.specs.Names.{is_name};
ghost use Rattle.dcc_tariff.specs.PlanTexts.{found_at, value_at, integer_at, number_at, identity_at, address_at, address_of};
ghost use Rattle.dcc_tariff.specs.inner.Seen.{seen_by};
ghost use Rattle.dcc_tariff.specs.PlanTexts.{unit_at, unit_named, moment_at, GivesBy};

use crate::fault::PlanFault;
use crate::moment::moment_of;
use crate::tariff::UnitKind;
use dcc_octets::is_name;
use std::alloc::Global;
use std::net::Ipv4Addr;
use toml::{Table, Value};

/// The value of a key; fault 21 if the key is missing.
pub(crate) fn found_at<'a>(table: &'a Table, key: &str) -> Result<&'a Value, PlanFault>
    ensures { seen_by (λ v. view v.now) result ≡ found_at key.now (table_view table.now) }
{
    match table.get(key) {
        Some(value) => Ok(value),
        None => Err(PlanFault::MissingKey),
    }
}

/// The text of a key; fault 21 if the key is missing or has another type.
pub(crate) fn text_at<'a>(table: &'a Table, key: &str) -> Result<&'a str, PlanFault>
    ensures { seen_by (λ t. t.now) result ≡ value_at as_str key.now (table_view table.now) }
{
    match found_at(table, key)?.as_str() {
        Some(text) => Ok(text),
        None => Err(PlanFault::MissingKey),
    }
}

/// The number of a key, from the low to the high limit; fault 21 if the key is missing or has another type, fault 22
/// outside the limits.
#[tactic(auto, unfolding(crate::specs::PlanTexts::integer_at))]
pub(crate) fn integer_at(table: &Table, key: &str, low: i64, high: i64) -> Result<i64, PlanFault>
    ensures value { result ≡ integer_at key.now low high (table_view table.now) }
    ensures not_below { IfOk result (λ z. low ≤ℤ z) }
    ensures not_above { IfOk result (λ z. z ≤ℤ high) }
{
    match found_at(table, key)?.as_integer() {
        Some(number) if low <= number && number <= high => Ok(number),
        Some(_) => Err(PlanFault::Range),
        None => Err(PlanFault::MissingKey),
    }
}

/// The number of a key, from the low to the high limit, neither of which is negative; with the same faults.
#[tactic(auto, unfolding(crate::specs::PlanTexts::number_at))]
pub(crate) fn number_at(table: &Table, key: &str, low: u64, high: u64) -> Result<u64, PlanFault>
    requires low { low < 2 ^ 63 }
    requires high { high < 2 ^ 63 }
    ensures value { result ≡ number_at key.now low high (table_view table.now) }
    ensures not_below { IfOk result (λ n. low ≤ n) }
    ensures not_above { IfOk result (λ n. n ≤ high) }
{
    let number = integer_at(table, key, low as i64, high as i64)?;
    Ok(number as u64)
}

/// A name of the server, 1 to 255 visible characters of ASCII; fault 22 outside these limits.
#[tactic(auto, unfolding(crate::specs::PlanTexts::identity_at))]
pub(crate) fn identity_at(alloc: Global, table: &Table, key: &str) -> Result<String, PlanFault>
    ensures value { GivesBy string_bytes result (identity_at key.now (table_view table.now)) }
    ensures limits { IfOk result (λ name. is_name (string_bytes name) ≡ true) }
{
    let text = text_at(table, key)?;
    if !is_name(text.as_bytes()) {
        return Err(PlanFault::Range);
    }
    Ok(String::from_str(alloc, text)?)
}

/// The IPv4 address of a key; fault 22 if the text is no address.
#[tactic(auto, unfolding(crate::specs::PlanTexts::address_at))]
pub(crate) fn address_at(table: &Table, key: &str) -> Result<[u8; 4], PlanFault>
    ensures { result ≡ address_at key.now (table_view table.now) }
{
    address_of(text_at(table, key)?).ok_or(PlanFault::Range)
}

fn address_of(text: &str) -> Option<[u8; 4]>
    ensures { result ≡ address_of text.now }
{
    match text.parse::<Ipv4Addr>() {
        Ok(address) => Some(address.octets()),
        Err(_) => None,
    }
}

/// The kind of unit of a key; fault 22 if the text names none.
#[tactic(auto, unfolding(crate::specs::PlanTexts::unit_at))]
pub(crate) fn unit_at(table: &Table, key: &str) -> Result<UnitKind, PlanFault>
    ensures { result ≡ unit_at key.now (table_view table.now) }
{
    unit_named(text_at(table, key)?).ok_or(PlanFault::Range)
}

#[tactic(auto, unfolding(crate::specs::PlanTexts::unit_named))]
fn unit_named(name: &str) -> Option<UnitKind>
    ensures { result ≡ unit_named name.now }
{
    match name {
        "octets" => Some(UnitKind::Octets),
        "time" => Some(UnitKind::Time),
        "units" => Some(UnitKind::Units),
        _ => None,
    }
}

/// The moment of a key; fault 23 if the text is no moment.
#[tactic(auto, unfolding(crate::specs::PlanTexts::moment_at))]
pub(crate) fn moment_at(table: &Table, key: &str) -> Result<u64, PlanFault>
    ensures { result ≡ moment_at key.now (table_view table.now) }
{
    moment_of(text_at(table, key)?).ok_or(PlanFault::BadMoment)
}
