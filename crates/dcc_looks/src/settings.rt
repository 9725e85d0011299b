//! How a store's setting differs from a plan.

use crate::rows::number;
use dcc_tariff::Plan;
use sqlite::types::ValueRef;
use sqlite::{Alter, Connection, Row};
use std::alloc::{AllocError, Global};

/// The layout that the setting of a store has, and else 0.
pub(crate) fn layout_of<S: Alter>(conn: &mut Connection<S>) -> i64 {
    match conn.query_row("SELECT layout FROM setting", &[]) {
        Ok(row) => number(&row, 0),
        Err(_) => 0,
    }
}

/// The keys of a store's setting that differ from a plan and a shard, each with both values.
pub(crate) fn setting_words<S: Alter>(
    alloc: Global,
    conn: &mut Connection<S>,
    plan: &Plan,
    shard: usize,
) -> Result<String, AllocError> {
    let found = conn.query_all(
        "SELECT layout, shard, shards, host, realm, validity, hold, currency, exponent FROM setting",
        &[],
    );
    let Ok(rows) = found else {
        return String::from_str(alloc, "its tables are not those of a store");
    };
    let mut words = String::new(alloc);
    match rows.first() {
        Some(row) => {
            push_numbers(&mut words, row, plan, shard)?;
            push_names(alloc, &mut words, row, plan)?;
        }
        None => words.push_str("it has no setting")?,
    }
    if words.is_empty() {
        words.push_str("its tables are not just those of a store")?;
    }
    Ok(words)
}

/// The numbers of the setting that differ.
fn push_numbers(
    words: &mut String,
    row: &Row,
    plan: &Plan,
    shard: usize,
) -> Result<(), AllocError> {
    let terms = plan.terms();
    // An opening upgrades a store of layout 1.
    if number(row, 0) != 1 {
        push_number(words, row, 0, "layout", (2, "this program"))?;
    }
    push_number(
        words,
        row,
        1,
        "shard",
        (
            i64::try_from(shard).unwrap_or(i64::MAX),
            "the name of its file",
        ),
    )?;
    let of_plan = |number: i64| (number, "the plan");
    push_number(words, row, 2, "shards", of_plan(i64::from(plan.shards())))?;
    push_number(
        words,
        row,
        5,
        "validity",
        of_plan(i64::from(terms.validity)),
    )?;
    push_number(words, row, 6, "hold", of_plan(i64::from(terms.hold)))?;
    push_number(
        words,
        row,
        7,
        "currency",
        of_plan(i64::from(terms.currency)),
    )?;
    push_number(
        words,
        row,
        8,
        "exponent",
        of_plan(i64::from(terms.exponent)),
    )
}

/// A number that differs from the wanted number, of which a text says where it stands.
fn push_number(
    words: &mut String,
    row: &Row,
    at: usize,
    name: &str,
    (wanted, place): (i64, &str),
) -> Result<(), AllocError> {
    match row.get_ref(at) {
        Ok(ValueRef::Int(found)) => {
            if found == wanted {
                return Ok(());
            }
            part(words)?;
            write!(words, "{name} is {found} in the store, {wanted} in {place}")
        }
        _ => {
            part(words)?;
            write!(words, "{name} is no number in the store")
        }
    }
}

/// The names of the setting that differ.
fn push_names(alloc: Global, words: &mut String, row: &Row, plan: &Plan) -> Result<(), AllocError> {
    push_name(alloc, words, row, 3, "host", plan.host())?;
    push_name(alloc, words, row, 4, "realm", plan.realm())
}

/// A name that differs.
fn push_name(
    alloc: Global,
    words: &mut String,
    row: &Row,
    at: usize,
    name: &str,
    wanted: &[u8],
) -> Result<(), AllocError> {
    let found = match row.get_ref(at) {
        Ok(ValueRef::Text(found)) => found,
        _ => b"".as_slice(),
    };
    if found == wanted {
        return Ok(());
    }
    let (found, wanted) = (
        dcc_explain::quoted(alloc, found)?,
        dcc_explain::quoted(alloc, wanted)?,
    );
    part(words)?;
    write!(
        words,
        "{name} is {found} in the store, {wanted} in the plan"
    )
}

/// What stands between two differences.
fn part(words: &mut String) -> Result<(), AllocError> {
    if words.is_empty() {
        return Ok(());
    }
    words.push_str("; ")
}
