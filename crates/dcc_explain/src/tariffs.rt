//! Where the fault of a plan stands in its list of tariffs.

use crate::key::{Key, TABLE_KEYS};
use crate::place::has_fault;
use dcc_tariff::{MAX_TABLES, Plan, PlanFault};
use std::alloc::{AllocError, Global};
use toml::{Table, Value};

/// A place in the list of tariffs. Its elements are counted from 1.
#[derive(Clone, Copy)]
pub enum Spot {
    /// A key of this table is missing, or its value has another type or is outside its limits.
    Key(usize, Key),
    /// The moment of this table is none.
    NoMoment(usize),
    /// This element is no table.
    Element(usize),
    /// So many tables are none or too many.
    Count(usize),
    /// These two tables of one group count different units.
    Units(usize, usize),
    /// These two tables of one group hold from one moment on.
    Moments(usize, usize),
    /// The default group has no table.
    Default,
}

/// The first place in the list of tariffs that has this fault, in the order in which places are judged.
pub(crate) fn spot_in(alloc: Global, table: &Table, fault: PlanFault) -> Result<Spot, AllocError> {
    let tables = tables_of(table);
    if let Some(spot) = spot_of_list(tables, fault) {
        return Ok(spot);
    }
    for (i, value) in tables.iter().enumerate() {
        if let Some(inner) = value.as_table() {
            if let Some(spot) = spot_of_table(alloc, inner, i.saturating_add(1), fault)? {
                return Ok(spot);
            }
        }
    }
    Ok(spot_of_clash(tables))
}

/// The elements of the list, or none where it is no list.
pub(crate) fn tables_of(table: &Table) -> &[Value] {
    match table.get("tariff").and_then(|value| value.as_array()) {
        Some(array) => array.as_slice(),
        None => &[],
    }
}

/// The fault of the list as a whole: an element that is no table, or the number of its tables.
fn spot_of_list(tables: &[Value], fault: PlanFault) -> Option<Spot> {
    match fault {
        PlanFault::MissingKey => {
            let at = tables.iter().position(|value| !value.is_table())?;
            Some(Spot::Element(at.saturating_add(1)))
        }
        PlanFault::Range if tables.is_empty() || tables.len() > MAX_TABLES => {
            Some(Spot::Count(tables.len()))
        }
        _ => None,
    }
}

/// The first key of a table that has this fault.
fn spot_of_table(
    alloc: Global,
    table: &Table,
    number: usize,
    fault: PlanFault,
) -> Result<Option<Spot>, AllocError> {
    for key in TABLE_KEYS {
        if has_fault(table, key, fault) {
            return Ok(Some(Spot::Key(number, key)));
        }
    }
    if fault == PlanFault::BadMoment && !has_moment(alloc, table)? {
        return Ok(Some(Spot::NoMoment(number)));
    }
    Ok(None)
}

/// Whether the text at `from` is a moment: whether a plan whose one table has it is read.
fn has_moment(alloc: Global, table: &Table) -> Result<bool, AllocError> {
    let Some(value) = table.get("from") else {
        return Ok(false);
    };
    let text = format!(in alloc;
        "host = \"a\"\nrealm = \"a\"\naddress = \"0.0.0.0\"\nshards = 1\ndefault_group = 0\nquantum = 1\nvalidity = 1\nhold = 1\ncurrency = 0\nexponent = 0\n[[tariff]]\ngroup = 0\nunit = \"time\"\nfrom = {value}\nprice = 0\nblock = 1\n"
    )?;
    match Plan::read(alloc, text.as_str()) {
        Ok(plan) => {
            // By a call: a plan that is let go in place is proved part by part.
            drop(plan);
            Ok(true)
        }
        Err(PlanFault::Memory) => Err(AllocError),
        Err(_) => Ok(false),
    }
}

/// The first table that disagrees with an earlier one of its group; without one, the default group has no table.
fn spot_of_clash(tables: &[Value]) -> Spot {
    for (i, value) in tables.iter().enumerate() {
        if let Some(spot) = clash_with(tables, i, value) {
            return spot;
        }
    }
    Spot::Default
}

/// The first table before this one that disagrees with it.
fn clash_with(tables: &[Value], at: usize, value: &Value) -> Option<Spot> {
    let number = at.saturating_add(1);
    for (j, other) in tables.iter().enumerate().take(at) {
        let earlier = j.saturating_add(1);
        if number_of(other) == number_of(value) {
            if text_of(other, "unit") != text_of(value, "unit") {
                return Some(Spot::Units(earlier, number));
            }
            if text_of(other, "from") == text_of(value, "from") {
                return Some(Spot::Moments(earlier, number));
            }
        }
    }
    None
}

/// The group of a table.
fn number_of(value: &Value) -> Option<i64> {
    value.get("group")?.as_integer()
}

/// The text of a key of a table.
fn text_of<'a>(value: &'a Value, key: &str) -> Option<&'a str> {
    value.get(key)?.as_str()
}
