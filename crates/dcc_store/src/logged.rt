//! The acts that were added to records in memory.

ghost use Rattle.std.specs.Prelude.{◌≡◌, IfOk};

use crate::addition::Addition;
use dcc_act::{Act, Entry, Sub};
use std::alloc::{AllocError, Global};
use std::marker::Model;

/// An act of a subscriber, with the entries that it added.
#[derive(Drop)]
pub(crate) struct Logged {
    sub: Sub,
    act: Act,
    entries: Vec<Entry>,
}

impl Model for Logged {
    ghost use Rattle.dcc_store.specs.Batches.{AdditionView};

    ghost Value = { AdditionView };

    ghost view = { λ l. record { sub = l.sub; act = l.act; entries = l.entries.items } };
}

impl Logged {
    /// A copy of an addition.
    fn of(alloc: Global, one: &Addition<'_>) -> Result<Logged, AllocError>
        ensures { IfOk result (λ copy. copy ≡ one.now) }
    {
        let act = one.act().copy()?;
        let entries = copied(alloc, one.entries())?;
        Ok(Logged {
            sub: one.sub(),
            act,
            entries,
        })
    }

    /// The subscriber whose act this is.
    pub(crate) fn sub(&self) -> Sub
        ensures { result ≡ self.now.sub }
    {
        self.sub
    }

    /// The act.
    pub(crate) fn act(&self) -> &Act
        ensures { result.now ≡ self.now.act }
    {
        &self.act
    }
}

/// A copy of each part of a batch, in order.
pub(crate) fn copies_of(alloc: Global, batch: &[Addition<'_>]) -> Result<Vec<Logged>, AllocError>
    ensures { IfOk result (λ copies. copies.items ≡ batch.now) }
{
    let mut copies = Vec::with_capacity(alloc, batch.len())?;
    for one in batch {
        let copy = Logged::of(alloc, one)?;
        copies.push_reserved(copy);
    }
    Ok(copies)
}

/// A copy of the entries.
fn copied(alloc: Global, entries: &[Entry]) -> Result<Vec<Entry>, AllocError>
    ensures { IfOk result (λ copies. copies.items ≡ entries.now) }
{
    let mut copies = Vec::with_capacity(alloc, entries.len())?;
    for entry in entries {
        let entry = entry.copy()?;
        copies.push_reserved(entry);
    }
    Ok(copies)
}
