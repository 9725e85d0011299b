//! The order of rowids.

ghost use Rattle.std.specs.Prelude.{◌≡◌, ◌≢◌, ◌↔◌, ℤ, true, [], ◌∷◌, MatchOption};
ghost use Rattle.sqlite.specs.declared.types.Value.TheVariants.{Int};
ghost use Rattle.dcc_sqlite_store.specs.inner.Rowids.{AreAbove, AreRising};

use sqlite::Row;
use sqlite_value::value::ValueRef;

/// Whether each row is one integer, above the one before it.
pub fn are_rising(rows: &[Row]) -> bool
    ensures { result ≡ true ↔ AreRising rows.now }
{
    let [first, more @ ..] = rows else {
        return true;
    };
    match number_in(first) {
        Some(number) => are_above(more, number),
        None => false,
    }
}

/// The same, where the first row is above this number too.
fn are_above(rows: &[Row], low: i64) -> bool
    ensures { result ≡ true ↔ AreAbove rows.now low }
{
    let mut last = low;
    let mut rest = rows;
    while let [row, more @ ..] = rest {
        let Some(number) = number_in(row) else {
            return false;
        };
        if number <= last {
            return false;
        }
        last = number;
        rest = more;
    }
    true
}

/// The integer that a row is, where it is one and nothing else.
#[tactic(auto, using(crate::proofs::Values::one_value))]
fn number_in(row: &Row) -> Option<i64>
    ensures { MatchOption result ((id : ℤ) → row.now ≢ Int id ∷ []) (λ id. row.now ≡ Int id ∷ []) }
{
    if row.column_count() != 1 {
        return None;
    }
    match row.get_ref(0) {
        Ok(ValueRef::Int(number)) => Some(number),
        _ => None,
    }
}
