//! Subscribers, as the rows of a store name them.

use dcc_act::Sub;
use dcc_shard::shard_of;
use sqlite::types::ValueRef;
use sqlite::{Alter, Connection, Row};
use std::alloc::{AllocError, Global};

/// The subscriber of a row, if one stands in its first column.
pub(crate) fn sub_of(row: &Row) -> Option<Sub> {
    match row.get_ref(0) {
        Ok(ValueRef::Blob(octets)) => {
            let (kind, name) = octets.split_first()?;
            Sub::new(*kind, name)
        }
        _ => None,
    }
}

/// A subscriber in words, as on a command line.
pub(crate) fn shown(alloc: Global, sub: &Sub) -> Result<String, AllocError> {
    let kind = sub.kind();
    let mut words = format!(in alloc; "{kind}:")?;
    for octet in sub.name() {
        words.push(char::from(*octet))?;
    }
    Ok(words)
}

/// The first subscriber of a store that is another shard's.
pub(crate) fn stray_words<S: Alter>(
    alloc: Global,
    conn: &mut Connection<S>,
    shard: usize,
    count: usize,
) -> Result<Option<String>, AllocError> {
    if count == 0 {
        return Ok(None);
    }
    let Ok(rows) = conn.query_all("SELECT sub FROM account ORDER BY sub", &[]) else {
        return Ok(None);
    };
    for row in &rows {
        if let Some(sub) = sub_of(row) {
            let own = shard_of(&sub, count);
            if own != shard {
                let sub = shown(alloc, &sub)?;
                return Ok(Some(format!(in alloc; "subscriber {sub} is of shard {own}")?));
            }
        }
    }
    Ok(None)
}
