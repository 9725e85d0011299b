//! Numbers and octets in rows.

use sqlite::Row;
use sqlite::types::ValueRef;

/// The number of a column, or 0.
pub(crate) fn number(row: &Row, at: usize) -> i64 {
    match row.get_ref(at) {
        Ok(ValueRef::Int(number)) => number,
        _ => 0,
    }
}

/// The octets of a column, or none.
pub(crate) fn blob(row: &Row, at: usize) -> &[u8] {
    match row.get_ref(at) {
        Ok(ValueRef::Blob(octets)) => octets,
        _ => b"".as_slice(),
    }
}
