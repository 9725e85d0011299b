//! The law of stores, for callers.

ghost use Rattle.dcc_sqlite_store.specs.Trees.{StoresHaveTheLayout};

/// The schema of a database over the trees of a store is the layout of a store, since these trees list its four tables and nothing else.
/// It does nothing.
pub fn stores_have_the_layout()
    ensures { StoresHaveTheLayout }
{}
