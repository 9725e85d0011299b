//! Rows of entries and of accounts.

ghost use Rattle.std.specs.Prelude.{◌≡◌, ◌↔◌, true, length, take, pos};
ghost use Rattle.dcc_sqlite_rows.specs.Rows.{sub_octets, kind_code, entry_row, entry_rows_of, account_row};

use crate::line::has_sub;
use crate::tally::Tally;
use crate::value::{has_count, has_group, has_number};
use dcc_act::{Entry, EntryKind, Sub};
use sqlite::Row;

/// Whether the rows begin with the rows of these entries, which the act at this place adds.
pub(crate) fn begin_with(rows: &[Row], sub: Sub, place: u64, entries: &[Entry]) -> bool
    ensures { result ≡ true ↔ take (length entries.now) rows.now ≡ entry_rows_of (sub_octets sub) place 0 entries.now }
{
    if rows.len() < entries.len() {
        return false;
    }
    for i in 0..entries.len() {
        if !is_entry_row(&rows[i], sub, place, i as u64 + 1, &entries[i]) {
            return false;
        }
    }
    true
}

/// Whether a row is the row of an entry.
#[tactic(auto, using(crate::proofs::Lists::seven_values))]
fn is_entry_row(row: &Row, sub: Sub, place: u64, line: u64, entry: &Entry) -> bool
    ensures { result ≡ true ↔ row.now ≡ entry_row (sub_octets sub) place line entry.now }
{
    row.column_count() == 7
        && has_sub(row, sub)
        && has_count(row, 1, place)
        && has_count(row, 2, line)
        && has_count(row, 3, u64::from(kind_code(entry.kind)))
        && has_group(row, 4, entry.group)
        && has_count(row, 5, entry.units)
        && has_number(row, 6, entry.amount)
}

/// Whether a row is the row of an account.
#[tactic(auto, using(crate::proofs::Lists::three_values))]
pub(crate) fn is_account_row(row: &Row, sub: Sub, tally: Tally) -> bool
    ensures { result ≡ true ↔ row.now ≡ account_row (sub_octets sub) tally.acts tally.funds }
{
    row.column_count() == 3
        && has_sub(row, sub)
        && has_count(row, 1, tally.acts)
        && has_number(row, 2, tally.funds)
}

/// The number of an entry's kind: 1 a top-up, 2 a direct debit, 3 a refund, 4 a charge.
pub fn kind_code(kind: EntryKind) -> u32
    ensures { result ≡ kind_code kind }
{
    match kind {
        EntryKind::TopUp => 1,
        EntryKind::Debit => 2,
        EntryKind::Refund => 3,
        EntryKind::Charge => 4,
    }
}
