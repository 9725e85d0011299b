//! The acts with which shards under locks begin, as a type.

ghost use Rattle.dcc_store.specs.Books.{Held};

use std::marker::Brand;

/// The acts that shards held when they were put under locks. Of a value under a lock contracts know the type alone, so these acts stand in the type. They
/// take no memory: the proof of the call that puts the shards under locks picks them, by the marker `Brand`.
pub trait Naming {
    /// The acts that each subscriber had.
    ghost opening: { Held };
}

impl Naming for Brand {
    ghost use Rattle.std.specs.Prelude.{[]};

    ghost opening = { λ sub. [] };
}
