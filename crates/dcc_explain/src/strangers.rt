//! The keys and tables of a plan that no rule reads: a misspelt one changes nothing, and a price in it is lost.

use crate::key::{Key, PLAN_KEYS, TABLE_KEYS};
use crate::lines::{Sought, line_of};
use crate::tariffs::tables_of;
use crate::text::quoted;
use std::alloc::{AllocError, Global};
use toml::{Table, Value};

/// The keys and tables of a plan file that no rule reads, each in words with its line: those of the plan, by their names, and then those of each
/// tariff. There are none if the octets are no TOML document. The only error is want of memory.
pub fn unread_keys(alloc: Global, octets: &[u8]) -> Result<Vec<String>, AllocError> {
    let Ok(text) = str::from_utf8(octets) else {
        return Ok(Vec::new(alloc));
    };
    match toml::table_from_str(alloc, text) {
        Ok(table) => {
            let found = unread_in(alloc, octets, &table);
            // By a call: a table that is let go in place is proved part by part.
            drop(table);
            found
        }
        Err(error) => {
            if error.is_memory() {
                return Err(AllocError);
            }
            Ok(Vec::new(alloc))
        }
    }
}

/// Those of the tables of a text.
fn unread_in(alloc: Global, text: &[u8], table: &Table) -> Result<Vec<String>, AllocError> {
    let mut found = Vec::new(alloc);
    push_unread(alloc, &mut found, text, table, None)?;
    for (at, value) in tables_of(table).iter().enumerate() {
        if let Some(inner) = value.as_table() {
            push_unread(alloc, &mut found, text, inner, Some(at.saturating_add(1)))?;
        }
    }
    Ok(found)
}

/// Adds those of one table: of the plan, or of the tariff with this number.
fn push_unread(
    alloc: Global,
    found: &mut Vec<String>,
    text: &[u8],
    table: &Table,
    tariff: Option<usize>,
) -> Result<(), AllocError> {
    for (name, value) in table.iter() {
        if !is_read(name.as_str(), tariff) {
            let words = words_of_unread(alloc, text, name.as_str(), value, tariff)?;
            found.push(words)?;
        }
    }
    Ok(())
}

/// Whether a rule reads a key of the plan, or of a tariff.
fn is_read(name: &str, tariff: Option<usize>) -> bool {
    let is_named = |key: &Key| key.name() == name;
    match tariff {
        Some(_) => TABLE_KEYS.iter().any(is_named),
        None => PLAN_KEYS.iter().any(is_named),
    }
}

/// A key or a table that no rule reads.
fn words_of_unread(
    alloc: Global,
    text: &[u8],
    name: &str,
    value: &Value,
    tariff: Option<usize>,
) -> Result<String, AllocError> {
    let kind = if is_table(value) { "table" } else { "key" };
    let shown = quoted(alloc, name.as_bytes())?;
    let mut words = format!(in alloc; "no rule reads the {kind} {shown}")?;
    let sought = match tariff {
        Some(number) => {
            write!(words, " of tariff {number}")?;
            Sought::KeyOf(number, name)
        }
        None => Sought::Key(name),
    };
    if let Some(line) = line_of(text, sought) {
        write!(words, " (line {line})")?;
    }
    Ok(words)
}

/// Whether a value is a table, or a list of tables.
fn is_table(value: &Value) -> bool {
    match value.as_array() {
        Some(list) => list.iter().any(|element| element.is_table()),
        None => value.is_table(),
    }
}
