//! The sessions that were opened from one host.

ghost use Rattle.std.specs.Prelude.{◌≡◌, ◌≤◌, ◌+◌, List, ℕ, bytes_eq, if◌then◌else◌, [], IfOk, OnOk};
ghost use Rattle.dcc_openers.specs.Found.{noted};
ghost use Rattle.dcc_openers.specs.Names.{found_in};

use crate::found::Found;
use dcc_act::{SessionId, Sub};
use indexmap::IndexMap;
use std::alloc::{AllocError, Global};
use std::hash::RandomState;
use std::marker::Model;

/// The sessions of one host, each with the subscribers who opened it.
#[derive(Drop)]
pub(crate) struct Names {
    names: IndexMap<SessionId, Found, RandomState>,
}

impl Model for Names {
    ghost use Rattle.indexmap.specs.IndexMap.{spare};
    ghost use Rattle.dcc_openers.specs.Names.{NamesView};

    ghost Value = { NamesView };

    ghost view = { λ n. record { names = n.names.entries; room = spare n.names } };
}

impl Names {
    /// No names, and room for this number of names. The only error is want of memory.
    pub(crate) fn with_room(
        alloc: Global,
        hasher: RandomState,
        number: usize,
    ) -> Result<Names, AllocError>
        ensures none { IfOk result (λ names. names.names ≡ []) }
        ensures room { IfOk result (λ names. number ≤ names.room) }
    {
        Ok(Names {
            names: IndexMap::with_capacity_and_hasher(alloc, number, hasher)?,
        })
    }

    /// Who opened the session of this name. It takes no memory.
    pub(crate) fn find(&self, sid: &SessionId) -> Found
        ensures { result ≡ found_in self.now.names sid.now }
    {
        match self.names.get(sid) {
            Some(found) => *found,
            None => Found::None,
        }
    }

    /// Takes the memory for this number of further names. The only error is want of memory. The names and the room stay, also after the
    /// error.
    pub(crate) fn make_room(&mut self, number: usize) -> Result<(), AllocError>
        ensures same { self.new.names ≡ self.old.names }
        ensures room { OnOk result (number ≤ self.new.room) }
        ensures kept { self.old.room ≤ self.new.room }
    {
        self.names.reserve(number)
    }

    /// Notes that the subscriber opened the session of this name. It takes no memory, and uses the room for one name at most. The
    /// condition: there is room for a name.
    pub(crate) fn note(&mut self, sid: SessionId, sub: Sub)
        requires { 1 ≤ self.old.room }
        ensures noted { (s : List ℕ) → found_in self.new.names s
            ≡ (if bytes_eq sid s then noted (found_in self.old.names sid) sub else found_in self.old.names s) }
        ensures room { self.old.room ≤ self.new.room + 1 }
    {
        let found = self.find(&sid).noted(sub);
        self.names.insert(sid, found).unwrap();
    }
}
