//! What a store is of.

ghost use Rattle.std.specs.Prelude.{◌≡◌, ◌↔◌, true, pos, [], ◌∷◌};
ghost use Rattle.sqlite.specs.declared.types.Value.TheVariants.{Int, Text};
ghost use Rattle.sqlite.specs.Order.{column};
ghost use Rattle.dcc_sqlite_store.specs.Setting.{setting_row, setting_row_in};

use dcc_sqlite_rows::{has_count, has_number, has_text};
use dcc_tariff::Terms;
use sqlite::Row;

/// What a store is of: the one row of its table `setting`.
#[derive(Clone, Copy, Debug)]
pub struct Setting<'a> {
    /// Which shard's acts the store has, from 0.
    pub shard: u32,
    /// How many shards there are.
    pub shards: u32,
    /// The host by which the server names itself.
    pub host: &'a str,
    /// The realm by which the server names itself.
    pub realm: &'a str,
    /// The terms by which the acts are judged.
    pub terms: Terms,
}

/// Whether these rows are the one of this setting.
pub fn is_setting(rows: &[Row], setting: &Setting<'_>) -> bool
    ensures { result ≡ true ↔ rows.now ≡ setting_row setting.now ∷ [] }
{
    is_setting_in(rows, setting, 2)
}

/// The same for a store of a layout.
pub fn is_setting_in(rows: &[Row], setting: &Setting<'_>, layout: u64) -> bool
    ensures { result ≡ true ↔ rows.now ≡ setting_row_in layout setting.now ∷ [] }
{
    match rows {
        [only] => is_setting_row(only, setting, layout),
        _ => false,
    }
}

/// Whether a row is that of this setting in a layout.
#[tactic(auto, using(crate::proofs::Values::ten_values))]
fn is_setting_row(row: &Row, setting: &Setting<'_>, layout: u64) -> bool
    ensures { result ≡ true ↔ row.now ≡ setting_row_in layout setting.now }
{
    row.column_count() == 10 && is_of_server(row, setting, layout) && has_terms(row, &setting.terms)
}

/// Whether a row begins with the one row's number, the layout's, and the shard and the names of the server.
fn is_of_server(row: &Row, setting: &Setting<'_>, layout: u64) -> bool
    ensures { result ≡ true ↔ (column row.now 0 ≡ Int (pos 1)) × (column row.now 1 ≡ Int (pos layout))
        × (column row.now 2 ≡ Int (pos setting.now.shard)) × (column row.now 3 ≡ Int (pos setting.now.shards))
        × (column row.now 4 ≡ Text setting.now.host.now) × (column row.now 5 ≡ Text setting.now.realm.now) }
{
    has_count(row, 0, 1)
        && has_count(row, 1, layout)
        && has_count(row, 2, u64::from(setting.shard))
        && has_count(row, 3, u64::from(setting.shards))
        && has_text(row, 4, setting.host)
        && has_text(row, 5, setting.realm)
}

/// Whether a row ends with these terms.
fn has_terms(row: &Row, terms: &Terms) -> bool
    ensures { result ≡ true ↔ (column row.now 6 ≡ Int (pos terms.now.validity)) × (column row.now 7 ≡ Int (pos terms.now.hold))
        × (column row.now 8 ≡ Int (pos terms.now.currency)) × (column row.now 9 ≡ Int terms.now.exponent) }
{
    has_count(row, 6, u64::from(terms.validity))
        && has_count(row, 7, u64::from(terms.hold))
        && has_count(row, 8, u64::from(terms.currency))
        && has_number(row, 9, i64::from(terms.exponent))
}
