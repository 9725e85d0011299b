//! The values of a row.

ghost use Rattle.std.specs.Prelude.{◌≡◌, ◌≢◌, ◌↔◌, true, pos, MatchOption};
ghost use Rattle.sqlite.specs.declared.types.Value.TheVariants.{Int, Text, Blob};
ghost use Rattle.sqlite.specs.Order.{column};
ghost use Rattle.dcc_sqlite_rows.specs.Rows.{group_value};

use sqlite::Row;
use sqlite_value::value::ValueRef;

/// The octets in a column, if it has octets.
pub(crate) fn octets_at(row: &Row, at: usize) -> Option<&[u8]>
    ensures { MatchOption result ((octets : _) → column row.now at ≢ Blob octets) (λ octets. column row.now at ≡ Blob octets.now) }
{
    match row.get_ref(at) {
        Ok(ValueRef::Blob(octets)) => Some(octets),
        _ => None,
    }
}

/// The number in a column, if it has a number.
pub(crate) fn number_at(row: &Row, at: usize) -> Option<i64>
    ensures { MatchOption result ((number : _) → column row.now at ≢ Int number) (λ number. column row.now at ≡ Int number) }
{
    match row.get_ref(at) {
        Ok(ValueRef::Int(number)) => Some(number),
        _ => None,
    }
}

/// Whether a column has this number.
pub fn has_number(row: &Row, at: usize, number: i64) -> bool
    ensures { result ≡ true ↔ column row.now at ≡ Int number }
{
    match row.get_ref(at) {
        Ok(ValueRef::Int(there)) => there == number,
        _ => false,
    }
}

/// Whether a column has this number, which has no sign.
pub fn has_count(row: &Row, at: usize, count: u64) -> bool
    ensures { result ≡ true ↔ column row.now at ≡ Int (pos count) }
{
    match row.get_ref(at) {
        Ok(ValueRef::Int(there)) => i128::from(there) == i128::from(count),
        _ => false,
    }
}

/// Whether a column has this text.
pub fn has_text(row: &Row, at: usize, text: &str) -> bool
    ensures { result ≡ true ↔ column row.now at ≡ Text text.now }
{
    match row.get_ref(at) {
        Ok(ValueRef::Text(there)) => there == text.as_bytes(),
        _ => false,
    }
}

/// Whether a column has this Rating-Group, or NULL if there is no group.
pub(crate) fn has_group(row: &Row, at: usize, group: Option<u32>) -> bool
    ensures { result ≡ true ↔ column row.now at ≡ group_value group }
{
    match (row.get_ref(at), group) {
        (Ok(ValueRef::Int(there)), Some(group)) => there == i64::from(group),
        (Ok(ValueRef::Null) | Err(_), None) => true,
        _ => false,
    }
}
