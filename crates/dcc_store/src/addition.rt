//! The parts of a batch.

ghost use Rattle.std.specs.Prelude.{◌≡◌};

use dcc_act::{Act, Entry, Sub};
use std::marker::Model;

/// An act of a subscriber, with the entries that it adds: one part of a batch.
#[derive(Drop)]
pub struct Addition<'a> {
    sub: Sub,
    act: &'a Act,
    entries: &'a [Entry],
}

impl<'a> Model for Addition<'a> {
    ghost use Rattle.dcc_store.specs.Batches.{AdditionView};

    ghost Value = { AdditionView };

    ghost view = { λ a. record { sub = a.sub; act = a.act.now; entries = a.entries.now } };
}

impl<'a> Addition<'a> {
    /// This act of this subscriber, with these entries. It takes no memory.
    pub fn new(sub: Sub, act: &'a Act, entries: &'a [Entry]) -> Addition<'a>
        ensures { result ≡ record { sub = sub; act = act.now; entries = entries.now } }
    {
        Addition { sub, act, entries }
    }

    /// The subscriber whose act this is.
    pub fn sub(&self) -> Sub
        ensures { result ≡ self.now.sub }
    {
        self.sub
    }

    /// The act.
    pub fn act(&self) -> &'a Act
        ensures { result.now ≡ self.now.act }
    {
        self.act
    }

    /// The entries that the act adds, in order.
    pub fn entries(&self) -> &'a [Entry]
        ensures { result.now ≡ self.now.entries }
    {
        self.entries
    }
}
