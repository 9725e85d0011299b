//! Rows of the table of acts, and the subscribers of the rows of all tables.

ghost use Rattle.std.specs.Prelude.{◌≡◌, ◌≢◌, ◌↔◌, true, false, All, map, Err, IfOk, IfErr, IfSome, MatchOption};
ghost use Rattle.std.specs.List.{Contains};
ghost use Rattle.sqlite.specs.declared.types.Value.TheVariants.{Blob};
ghost use Rattle.sqlite.specs.Order.{Row as Values, column};
ghost use Rattle.dcc_act_codec.specs.Limits.{IsAct};
ghost use Rattle.dcc_act_codec.specs.OldRecords.{IsOldAct};
ghost use Rattle.dcc_sqlite_rows.specs.Rows.{sub_octets};
ghost use Rattle.dcc_sqlite_rows.specs.Pages.{IsSub};
ghost use Rattle.dcc_sqlite_rows.specs.Stored.{line_row, IsLine, IsOfSub};
ghost use Rattle.dcc_sqlite_rows.specs.OldRows.{old_line_row, IsOldLine};
ghost use Rattle.dcc_sqlite_rows.specs.inner.Versions.{body_of, HasBody, row_of, IsRowOf};

use crate::fault::ReadFault;
use crate::value::{number_at, octets_at};
use crate::version::Version;
use dcc_act::{Act, Sub, same_subscribers_are_equal};
use dcc_act_codec::{RecordFault, read_act, read_act_1};
use sqlite::Row;
use std::alloc::Global;

/// A row of the table of acts, as it was read: the subscriber, the place in the row, which may be wrong, and the act.
#[derive(Drop)]
pub struct Line {
    pub sub: Sub,
    pub place: i64,
    pub act: Act,
}

/// The lines of these rows, in order. The records of acts are of version 2.
///
/// Errors: [`ReadFault::Memory`], memory was short; [`ReadFault::Damaged`], a row is no act's.
pub fn read_lines(alloc: Global, rows: &[Row]) -> Result<Vec<Line>, ReadFault>
    ensures lines { IfOk result (λ lines. rows.now ≡ map line_row lines.items) }
    ensures subs { IfOk result (λ lines. All (λ line. IsSub line.sub) lines.items) }
    ensures fit { IfOk result (λ lines. All (λ line. IsAct line.act) lines.items) }
    ensures damaged { result ≡ Err ReadFault.Damaged → (row : Values) × Contains rows.now row × (¬ IsLine row) }
{
    lines_of(alloc, Version::Two, rows)
}

/// The lines of these rows of a store of layout 1, in order. The records of acts are of version 1.
///
/// Errors: [`ReadFault::Memory`], memory was short; [`ReadFault::Damaged`], a row is no act's.
pub fn read_old_lines(alloc: Global, rows: &[Row]) -> Result<Vec<Line>, ReadFault>
    ensures lines { IfOk result (λ lines. rows.now ≡ map old_line_row lines.items) }
    ensures subs { IfOk result (λ lines. All (λ line. IsSub line.sub) lines.items) }
    ensures fit { IfOk result (λ lines. All (λ line. IsOldAct line.act) lines.items) }
    ensures damaged { result ≡ Err ReadFault.Damaged → (row : Values) × Contains rows.now row × (¬ IsOldLine row) }
{
    lines_of(alloc, Version::One, rows)
}

/// The lines of rows whose records are of this version.
fn lines_of(alloc: Global, version: Version, rows: &[Row]) -> Result<Vec<Line>, ReadFault>
    ensures lines { IfOk result (λ lines. rows.now ≡ map (row_of version) lines.items) }
    ensures subs { IfOk result (λ lines. All (λ line. IsSub line.sub) lines.items) }
    ensures fit { IfOk result (λ lines. All (λ line. HasBody version line.act) lines.items) }
    ensures damaged { result ≡ Err ReadFault.Damaged → (row : Values) × Contains rows.now row × (¬ IsRowOf version row) }
{
    let mut lines = Vec::with_capacity(alloc, rows.len())?;
    for row in rows {
        let line = read_line(alloc, version, row)?;
        lines.push(line)?;
    }
    Ok(lines)
}

/// The line of a row.
#[tactic(auto, using(crate::proofs::Lists::three_values))]
fn read_line(alloc: Global, version: Version, row: &Row) -> Result<Line, ReadFault>
    ensures line { IfOk result (λ line. row.now ≡ row_of version line) }
    ensures sub { IfOk result (λ line. IsSub line.sub) }
    ensures fits { IfOk result (λ line. HasBody version line.act) }
    ensures damaged { result ≡ Err ReadFault.Damaged → ¬ IsRowOf version row.now }
{
    if row.column_count() != 3 {
        return Err(ReadFault::Damaged);
    }
    let Some(sub) = sub_of(row) else {
        return Err(ReadFault::Damaged);
    };
    let Some(place) = number_at(row, 1) else {
        return Err(ReadFault::Damaged);
    };
    let act = act_at(alloc, version, row)?;
    Ok(Line { sub, place, act })
}

/// The act whose record stands in the third column.
fn act_at(alloc: Global, version: Version, row: &Row) -> Result<Act, ReadFault>
    ensures act { IfOk result (λ act. column row.now 2 ≡ Blob (body_of version act)) }
    ensures fits { IfOk result (HasBody version) }
    ensures damaged { result ≡ Err ReadFault.Damaged → (act : Act) → HasBody version act → column row.now 2 ≢ Blob (body_of version act) }
{
    let Some(body) = octets_at(row, 2) else {
        return Err(ReadFault::Damaged);
    };
    match read_body(alloc, version, body) {
        Ok(act) => Ok(act),
        Err(RecordFault::Memory) => Err(ReadFault::Memory),
        Err(RecordFault::BadRecord) => Err(ReadFault::Damaged),
    }
}

/// The act whose record of this version the octets are.
fn read_body(alloc: Global, version: Version, octets: &[u8]) -> Result<Act, RecordFault>
    ensures found { IfOk result (λ act. octets.now ≡ body_of version act) }
    ensures within { IfOk result (HasBody version) }
    ensures refused { IfErr result (λ fault. fault ≡ RecordFault.BadRecord → (act : Act) → HasBody version act → body_of version act ≢ octets.now) }
{
    match version {
        Version::One => read_act_1(alloc, octets),
        Version::Two => read_act(alloc, octets),
    }
}

/// The subscriber with whom a row begins.
fn sub_of(row: &Row) -> Option<Sub>
    ensures sub { MatchOption result (¬ IsOfSub row.now) (λ sub. column row.now 0 ≡ Blob (sub_octets sub)) }
    ensures valid { IfSome result IsSub }
{
    let octets = octets_at(row, 0)?;
    match octets {
        [kind, name @ ..] => Sub::new(*kind, name),
        [] => None,
    }
}

/// Whether each row begins with a subscriber.
pub fn are_of_subs(rows: &[Row]) -> bool
    ensures all { result ≡ true → All IsOfSub rows.now }
    ensures some { result ≡ false → (row : Values) × Contains rows.now row × (¬ IsOfSub row) }
{
    for row in rows {
        let Some(_sub) = sub_of(row) else {
            return false;
        };
    }
    true
}

/// Whether a row begins with this subscriber.
#[tactic(auto, using(crate::proofs::Groups::octets_apart))]
pub(crate) fn has_sub(row: &Row, sub: Sub) -> bool
    ensures { result ≡ true ↔ column row.now 0 ≡ Blob (sub_octets sub) }
{
    same_subscribers_are_equal();
    let _kind = sub.kind();
    match sub_of(row) {
        Some(there) => there == sub,
        None => false,
    }
}
