//! The comparison of a schema with the layout of a store.

ghost use Rattle.std.specs.Prelude.{◌≡◌, ◌↔◌, true, false, [], ◌∷◌, map};
ghost use Rattle.dcc_sqlite_store.specs.Tables.{column_of, table_of, setting_table, act_table, entry_table, account_table, to_act, layout};
ghost use Rattle.dcc_sqlite_store.specs.inner.Layout.{at_tree, formed, keys_of, orders_of, key_index, key_indexes};

use sqlite_items::Items;
use sqlite_schema::schema::{Action, Column, Index, Kind, Reference, Schema, Stamps, Table};
use sqlite_value::keys::{Collation, Order};
use sqlite_value::value::{Bytes, Value};

/// What a column of a table is like: its name, its kind, and whether it must have a value.
struct ColumnForm(&'static [u8], Kind, bool);

const SETTING: [ColumnForm; 10] = [
    ColumnForm(b"id", Kind::Integer, false),
    ColumnForm(b"layout", Kind::Integer, true),
    ColumnForm(b"shard", Kind::Integer, true),
    ColumnForm(b"shards", Kind::Integer, true),
    ColumnForm(b"host", Kind::Text, true),
    ColumnForm(b"realm", Kind::Text, true),
    ColumnForm(b"validity", Kind::Integer, true),
    ColumnForm(b"hold", Kind::Integer, true),
    ColumnForm(b"currency", Kind::Integer, true),
    ColumnForm(b"exponent", Kind::Integer, true),
];

const ACT: [ColumnForm; 3] = [
    ColumnForm(b"sub", Kind::Blob, true),
    ColumnForm(b"place", Kind::Integer, true),
    ColumnForm(b"body", Kind::Blob, true),
];

const ENTRY: [ColumnForm; 7] = [
    ColumnForm(b"sub", Kind::Blob, true),
    ColumnForm(b"place", Kind::Integer, true),
    ColumnForm(b"line", Kind::Integer, true),
    ColumnForm(b"kind", Kind::Integer, true),
    ColumnForm(b"grp", Kind::Integer, false),
    ColumnForm(b"units", Kind::Integer, true),
    ColumnForm(b"amount", Kind::Integer, true),
];

const ACCOUNT: [ColumnForm; 3] = [
    ColumnForm(b"sub", Kind::Blob, true),
    ColumnForm(b"acts", Kind::Integer, true),
    ColumnForm(b"funds", Kind::Integer, true),
];

/// Whether the tables of a database are those of a store, and nothing else is in it.
pub fn has_layout(schema: &Schema) -> bool
    ensures { result ≡ true ↔ schema.now ≡ layout }
{
    has_tables(schema.tables.as_slice())
        && has_indexes(schema.indexes.as_slice())
        && schema.views.as_slice().is_empty()
}

/// Whether these are the four tables, in their order.
fn has_tables(tables: &[Table]) -> bool
    ensures { result ≡ true ↔ tables.now ≡ layout.tables }
{
    match tables {
        [setting, act, entry, account] => {
            is_setting_table(setting)
                && is_act_table(act)
                && is_entry_table(entry)
                && is_account_table(account)
        }
        _ => false,
    }
}

/// Whether this is the table of the setting.
fn is_setting_table(table: &Table) -> bool
    ensures { result ≡ true ↔ table.now ≡ at_tree 0 setting_table }
{
    is_table(table, b"setting", 0, Some(0), &[0], &SETTING)
        && table.references.as_slice().is_empty()
}

/// Whether this is the table of acts.
fn is_act_table(table: &Table) -> bool
    ensures { result ≡ true ↔ table.now ≡ at_tree 1 act_table }
{
    is_table(table, b"act", 1, None, &[1, 2], &ACT) && table.references.as_slice().is_empty()
}

/// Whether this is the table of entries, each of which is of an act.
fn is_entry_table(table: &Table) -> bool
    ensures { result ≡ true ↔ table.now ≡ at_tree 3 entry_table }
{
    is_table(table, b"entry", 3, None, &[1, 2, 3], &ENTRY)
        && are_to_act(table.references.as_slice())
}

/// Whether this is the table of accounts.
fn is_account_table(table: &Table) -> bool
    ensures { result ≡ true ↔ table.now ≡ at_tree 5 account_table }
{
    is_table(table, b"account", 5, None, &[1], &ACCOUNT) && table.references.as_slice().is_empty()
}

/// Whether a table is made of these, whatever it refers to.
fn is_table(
    table: &Table,
    name: &[u8],
    tree: u32,
    rowid: Option<usize>,
    key: &[usize],
    columns: &[ColumnForm],
) -> bool
    ensures { result ≡ true ↔ table.now ≡ at_tree tree (table_of name.now (map formed columns.now) rowid key.now table.now.references) }
{
    is_named(&table.name, name)
        && table.tree == tree
        && are_columns(table.columns.as_slice(), columns)
        && has_key(table, rowid, key)
        && is_bare(table)
}

/// Whether these are columns of these forms.
fn are_columns(columns: &[Column], forms: &[ColumnForm]) -> bool
    ensures { result ≡ true ↔ columns.now ≡ map formed forms.now }
{
    match (columns, forms) {
        ([], []) => true,
        ([column, columns @ ..], [form, forms @ ..]) => {
            is_column(column, form.0, form.1, form.2) && are_columns(columns, forms)
        }
        _ => false,
    }
}

/// Whether a column has this name and kind, and must have a value or need not.
fn is_column(column: &Column, name: &[u8], kind: Kind, required: bool) -> bool
    ensures { result ≡ true ↔ column.now ≡ column_of name.now kind required }
{
    is_named(&column.name, name)
        && column.kind == kind
        && column.is_strict
        && column.not_null == required
        && matches!(column.default, Value::Null)
        && column.collation == Collation::Binary
}

/// Whether a name is this.
fn is_named(name: &Bytes, text: &[u8]) -> bool
    ensures { result ≡ true ↔ name.now ≡ text.now }
{
    name.as_slice() == text
}

/// Whether the places of columns are these.
fn are_places(places: &Items<usize>, wanted: &[usize]) -> bool
    ensures { result ≡ true ↔ places.now ≡ wanted.now }
{
    places.as_slice() == wanted
}

/// Whether a table has this key, and an index for it unless the key is the rowid.
fn has_key(table: &Table, rowid: Option<usize>, key: &[usize]) -> bool
    ensures { result ≡ true ↔ (table.now.key ≡ rowid) × (table.now.primary ≡ key.now) × (table.now.uniques ≡ keys_of rowid key.now) × (table.now.orders ≡ orders_of rowid) }
{
    table.key == rowid
        && are_places(&table.primary, key)
        && has_indexed(table.uniques.as_slice(), rowid, key)
        && are_plain(table.orders.as_slice(), rowid)
}

/// Whether these are the keys that have an index: this one, unless it is the rowid.
fn has_indexed(keys: &[Items<usize>], rowid: Option<usize>, key: &[usize]) -> bool
    ensures { result ≡ true ↔ keys.now ≡ keys_of rowid key.now }
{
    match (rowid, keys) {
        (Some(_), []) => true,
        (None, [only]) => are_places(only, key),
        _ => false,
    }
}

/// Whether the index of a key ascends, where it has one.
fn are_plain(orders: &[Order], rowid: Option<usize>) -> bool
    ensures { result ≡ true ↔ orders.now ≡ orders_of rowid }
{
    match (rowid, orders) {
        (Some(_), []) => true,
        (None, [only]) => only.digits == 0,
        _ => false,
    }
}

/// Whether a table has no checks, no defaults that are computed, and doesn't count its rowids.
fn is_bare(table: &Table) -> bool
    ensures { result ≡ true ↔ (table.now.checks ≡ []) × (table.now.computed ≡ []) × (table.now.stamps ≡ record { places = []; terms = []; formats = [] }) × (table.now.is_counted ≡ false) }
{
    table.checks.roots.as_slice().is_empty()
        && table.computed.as_slice().is_empty()
        && is_unstamped(&table.stamps)
        && !table.is_counted
}

/// Whether no default reads the time.
fn is_unstamped(stamps: &Stamps) -> bool
    ensures { result ≡ true ↔ stamps.now ≡ record { places = []; terms = []; formats = [] } }
{
    stamps.places.as_slice().is_empty()
        && stamps.terms.roots.as_slice().is_empty()
        && stamps.formats.as_slice().is_empty()
}

/// Whether these are the references of entries.
fn are_to_act(references: &[Reference]) -> bool
    ensures { result ≡ true ↔ references.now ≡ to_act ∷ [] }
{
    match references {
        [only] => is_to_act(only),
        _ => false,
    }
}

/// Whether this refers to an act by its key.
fn is_to_act(reference: &Reference) -> bool
    ensures { result ≡ true ↔ reference.now ≡ to_act }
{
    are_places(&reference.columns, &[1, 2])
        && is_named(&reference.parent, b"act")
        && are_act_key(reference.parent_columns.as_slice())
        && reference.on_delete == Action::NoAction
        && reference.on_update == Action::NoAction
        && !reference.is_deferred
}

/// Whether these are the columns of the key of acts.
fn are_act_key(names: &[Bytes]) -> bool
    ensures { result ≡ true ↔ names.now ≡ to_act.parent_columns }
{
    match names {
        [sub, place] => is_named(sub, b"sub") && is_named(place, b"place"),
        _ => false,
    }
}

/// Whether these are the indexes of the keys, in the order of their tables.
#[tactic(auto, using(crate::proofs::KeyIndexes::the_indexes))]
fn has_indexes(indexes: &[Index]) -> bool
    ensures { result ≡ true ↔ indexes.now ≡ layout.indexes }
{
    are_key_indexes(indexes)
}

/// The same, with the names of the indexes written out.
fn are_key_indexes(indexes: &[Index]) -> bool
    ensures { result ≡ true ↔ indexes.now ≡ key_indexes }
{
    match indexes {
        [acts, entries, accounts] => {
            is_key_index(acts, b"sqlite_autoindex_act_1", 1, &[1, 2])
                && is_key_index(entries, b"sqlite_autoindex_entry_1", 3, &[1, 2, 3])
                && is_key_index(accounts, b"sqlite_autoindex_account_1", 5, &[1])
        }
        _ => false,
    }
}

/// Whether this is the index of a table's key, whose tree is the one after the table's.
fn is_key_index(index: &Index, name: &[u8], table: u32, key: &[usize]) -> bool
    ensures { result ≡ true ↔ index.now ≡ key_index name.now table key.now }
{
    is_named(&index.name, name)
        && index.table == table
        && index.tree.checked_sub(table) == Some(1)
        && are_places(&index.columns, key)
        && index.order == (Order { digits: 0 })
        && index.is_unique
}
