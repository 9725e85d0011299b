//! The fault of one key by itself.

ghost use Rattle.std.specs.Prelude.{◌≡◌, ◌<◌, ◌^◌, is_some, option_map};
ghost use Rattle.toml.specs.Data.{as_array, as_str, get_member};
ghost use Rattle.toml.specs.View.{view, table_view};
ghost use Rattle.dcc_tariff.specs.PlanTexts.{identity_at, integer_at, number_at, unit_at, unit_named, value_at};
ghost use Rattle.dcc_explain.specs.Flaws.{fault_at, fault_in};

use crate::key::Key;
use dcc_octets::is_name;
use dcc_tariff::{MAX_BLOCK_PRICE, MAX_HOLD, MAX_SHARDS, MAX_UNITS, PlanFault};
use toml::{Table, Value};

/// The fault that a key of a table has by itself, as the reading of plans judges it. Of an address, a moment and the list of tariffs it is judged
/// here whether they are there and have their type.
pub fn key_fault(table: &Table, key: Key) -> Option<PlanFault>
    ensures { result ≡ fault_at key (table_view table.now) }
{
    match key {
        Key::Host => name_fault(table, "host"),
        Key::Realm => name_fault(table, "realm"),
        Key::Address => text_fault(table, "address"),
        Key::Shards => number_fault(table, "shards", 1, MAX_SHARDS as u64),
        Key::DefaultGroup => number_fault(table, "default_group", 0, u64::from(u32::MAX)),
        Key::Quantum => number_fault(table, "quantum", 1, MAX_UNITS),
        Key::Validity => number_fault(table, "validity", 1, MAX_HOLD as u64),
        Key::Hold => number_fault(table, "hold", 1, MAX_HOLD as u64),
        Key::Currency => number_fault(table, "currency", 0, 999),
        Key::Exponent => integer_fault(table, "exponent", -9, 9),
        Key::Tariffs => list_fault(table, "tariff"),
        Key::Group => number_fault(table, "group", 0, u64::from(u32::MAX)),
        Key::Counted => unit_fault(table, "unit"),
        Key::Begin => text_fault(table, "from"),
        Key::Price => number_fault(table, "price", 0, MAX_BLOCK_PRICE as u64),
        Key::Block => number_fault(table, "block", 1, MAX_UNITS),
    }
}

/// The value of a key.
fn found<'a>(table: &'a Table, key: &str) -> Option<&'a Value>
    ensures { option_map (λ value. view value.now) result ≡ get_member key.now (table_view table.now) }
{
    table.get(key)
}

/// Whether a key has a text.
fn text_fault(table: &Table, key: &str) -> Option<PlanFault>
    ensures { result ≡ fault_in (value_at as_str key.now (table_view table.now)) }
{
    let Some(value) = found(table, key) else {
        return Some(PlanFault::MissingKey);
    };
    match value.as_str() {
        Some(_) => None,
        None => Some(PlanFault::MissingKey),
    }
}

/// Whether a key has a list.
fn list_fault(table: &Table, key: &str) -> Option<PlanFault>
    ensures { result ≡ fault_in (value_at as_array key.now (table_view table.now)) }
{
    let Some(value) = found(table, key) else {
        return Some(PlanFault::MissingKey);
    };
    match value.as_array() {
        Some(_) => None,
        None => Some(PlanFault::MissingKey),
    }
}

/// Whether a key has a number from the low to the high limit.
#[tactic(auto, unfolding(dcc_tariff::specs::PlanTexts::integer_at))]
fn integer_fault(table: &Table, key: &str, low: i64, high: i64) -> Option<PlanFault>
    ensures { result ≡ fault_in (integer_at key.now low high (table_view table.now)) }
{
    let Some(value) = found(table, key) else {
        return Some(PlanFault::MissingKey);
    };
    match value.as_integer() {
        Some(number) if low <= number && number <= high => None,
        Some(_) => Some(PlanFault::Range),
        None => Some(PlanFault::MissingKey),
    }
}

/// Whether a key has such a number, none of them negative.
#[tactic(auto, unfolding(dcc_tariff::specs::PlanTexts::number_at))]
fn number_fault(table: &Table, key: &str, low: u64, high: u64) -> Option<PlanFault>
    requires low { low < 2 ^ 63 }
    requires high { high < 2 ^ 63 }
    ensures { result ≡ fault_in (number_at key.now low high (table_view table.now)) }
{
    integer_fault(table, key, low as i64, high as i64)
}

/// Whether a key has a name of the server.
#[tactic(auto, unfolding(dcc_tariff::specs::PlanTexts::identity_at))]
fn name_fault(table: &Table, key: &str) -> Option<PlanFault>
    ensures { result ≡ fault_in (identity_at key.now (table_view table.now)) }
{
    let Some(value) = found(table, key) else {
        return Some(PlanFault::MissingKey);
    };
    match value.as_str() {
        Some(text) if is_name(text.as_bytes()) => None,
        Some(_) => Some(PlanFault::Range),
        None => Some(PlanFault::MissingKey),
    }
}

/// Whether a key has the name of a kind of unit.
#[tactic(auto, unfolding(dcc_tariff::specs::PlanTexts::unit_at))]
fn unit_fault(table: &Table, key: &str) -> Option<PlanFault>
    ensures { result ≡ fault_in (unit_at key.now (table_view table.now)) }
{
    let Some(value) = found(table, key) else {
        return Some(PlanFault::MissingKey);
    };
    match value.as_str() {
        Some(name) if is_unit(name) => None,
        Some(_) => Some(PlanFault::Range),
        None => Some(PlanFault::MissingKey),
    }
}

#[tactic(auto, unfolding(dcc_tariff::specs::PlanTexts::unit_named))]
fn is_unit(name: &str) -> bool
    ensures { result ≡ is_some (unit_named name.now) }
{
    match name {
        "octets" => true,
        "time" => true,
        "units" => true,
        _ => false,
    }
}
