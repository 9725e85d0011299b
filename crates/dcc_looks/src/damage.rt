//! Where the rows of a store are not those of a book.

use crate::rows::{blob, number};
use crate::settings::layout_of;
use crate::subs::{shown, sub_of};
use dcc_act_codec::{RecordFault, read_act, read_act_1};
use sqlite::{Alter, Connection, Row, params};
use std::alloc::{AllocError, Global};

/// The first act of a store that is damaged.
pub(crate) fn damage_words<S: Alter>(
    alloc: Global,
    conn: &mut Connection<S>,
) -> Result<String, AllocError> {
    let Ok(rows) = conn.query_all("SELECT sub, place, body FROM act ORDER BY sub, place", &[])
    else {
        return String::from_str(alloc, "its acts can't be read");
    };
    let layout = layout_of(conn);
    for row in &rows {
        if let Some(words) = act_slip(alloc, row, layout)? {
            return Ok(words);
        }
    }
    match of_nobody(conn) {
        Some(acts) => format!(in alloc; "a row of its accounts, with {acts} acts, is of nobody"),
        None => String::from_str(alloc, "a row of its entries or accounts can't be read"),
    }
}

/// The number of acts of the first account whose subscriber is none. An entry has the subscriber of an act, or the database isn't opened.
fn of_nobody<S: Alter>(conn: &mut Connection<S>) -> Option<i64> {
    let Ok(rows) = conn.query_all("SELECT sub, acts FROM account ORDER BY sub", &[]) else {
        return None;
    };
    for row in &rows {
        if sub_of(row).is_none() {
            return Some(number(row, 1));
        }
    }
    None
}

/// What is wrong with the row of an act, in a store of this layout.
fn act_slip(alloc: Global, row: &Row, layout: i64) -> Result<Option<String>, AllocError> {
    let place = number(row, 1);
    let Some(sub) = sub_of(row) else {
        return Ok(Some(format!(in alloc; "a row of its acts, with place {place}, is of nobody")?));
    };
    let body = blob(row, 2);
    let read = if layout == 1 {
        read_act_1(alloc, body)
    } else {
        read_act(alloc, body)
    };
    match read {
        Ok(_) => Ok(None),
        Err(RecordFault::Memory) => Err(AllocError),
        Err(_) => {
            let sub = shown(alloc, &sub)?;
            Ok(Some(format!(in alloc;
                "the record of act {place} of subscriber {sub} can't be read"
            )?))
        }
    }
}

/// The first account of a store that its acts or entries don't add up to, or that is missing.
pub(crate) fn disagreement_words<S: Alter>(
    alloc: Global,
    conn: &mut Connection<S>,
) -> Result<String, AllocError> {
    let Ok(rows) = conn.query_all("SELECT sub, acts, funds FROM account ORDER BY sub", &[]) else {
        return String::from_str(alloc, "its accounts can't be read");
    };
    for row in &rows {
        if let Some(words) = account_slip(alloc, conn, row)? {
            return Ok(words);
        }
    }
    if let Some(words) = missing_account(alloc, conn)? {
        return Ok(words);
    }
    String::from_str(
        alloc,
        "its acts, entries and accounts disagree, and no row alone shows it",
    )
}

/// The first subscriber of a store with acts and without an account.
fn missing_account<S: Alter>(
    alloc: Global,
    conn: &mut Connection<S>,
) -> Result<Option<String>, AllocError> {
    let query = "SELECT sub, place FROM act WHERE place = 1 ORDER BY sub, place";
    let Ok(rows) = conn.query_all(query, &[]) else {
        return Ok(None);
    };
    for row in &rows {
        let found = one(
            conn,
            "SELECT COUNT(*) FROM account WHERE sub = ?1",
            blob(row, 0),
        );
        if let (0, Some(sub)) = (found, sub_of(row)) {
            let sub = shown(alloc, &sub)?;
            return Ok(Some(format!(in alloc; "the account of subscriber {sub} is missing")?));
        }
    }
    Ok(None)
}

/// What is wrong with an account.
fn account_slip<S: Alter>(
    alloc: Global,
    conn: &mut Connection<S>,
    row: &Row,
) -> Result<Option<String>, AllocError> {
    let Some(sub) = sub_of(row) else {
        return Ok(None);
    };
    let octets = blob(row, 0);
    let (acts, funds) = (number(row, 1), number(row, 2));
    let found = one(conn, "SELECT COUNT(*) FROM act WHERE sub = ?1", octets);
    if found != acts {
        let sub = shown(alloc, &sub)?;
        return Ok(Some(format!(in alloc;
            "the account of subscriber {sub} has {acts} acts, and the store {found}"
        )?));
    }
    let found = one(
        conn,
        "SELECT COALESCE(SUM(amount), 0) FROM entry WHERE sub = ?1",
        octets,
    );
    if found != funds {
        let sub = shown(alloc, &sub)?;
        return Ok(Some(format!(in alloc;
            "the funds of subscriber {sub} are {funds}, and its entries add up to {found}"
        )?));
    }
    Ok(None)
}

/// The number that a query of one subscriber gives, or 0.
fn one<S: Alter>(conn: &mut Connection<S>, query: &str, sub: &[u8]) -> i64 {
    match conn.query_row(query, params![sub]) {
        Ok(row) => number(&row, 0),
        Err(_) => 0,
    }
}
