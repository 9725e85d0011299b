//! Journals.

ghost use Rattle.std.specs.Prelude.{◌≡◌, ◌≤◌, ◌+◌, ◌<◌, ◌^◌, ◌++◌, ◌∷◌, [], length, get_or, IfOk};
ghost use Rattle.std.specs.Option.{option_copied};
ghost use Rattle.dcc_act.specs.Journals.{act_at};

use crate::act::Act;
use crate::looks::Looks;
use std::alloc::{AllocError, Global};
use std::marker::Model;

/// Stored acts, in the order in which they were made. Only a call that counts a look reads one.
#[derive(Drop)]
pub struct Journal {
    acts: Vec<Act>,
}

impl Model for Journal {
    ghost use Rattle.std.specs.Prelude.{◌-◌, vec_len, vec_capacity};
    ghost use Rattle.dcc_act.specs.Journals.{JournalView};

    ghost Value = { JournalView };

    ghost view = { λ j. record { acts = j.acts.items; spare = vec_capacity j.acts - vec_len j.acts } };
}

impl Journal {
    /// No acts. It takes no memory.
    pub fn new(alloc: Global) -> Journal
        ensures { result.acts ≡ [] }
    {
        Journal {
            acts: Vec::new(alloc),
        }
    }

    /// No acts, with memory for so many. The only error is want of memory.
    pub fn with_room(alloc: Global, count: usize) -> Result<Journal, AllocError>
        ensures acts { IfOk result (λ journal. journal.acts ≡ []) }
        ensures spare { IfOk result (λ journal. count ≤ journal.spare) }
    {
        Ok(Journal {
            acts: Vec::with_capacity(alloc, count)?,
        })
    }

    /// The number of acts: fewer than 2^63.
    pub fn len(&self) -> usize
        ensures value { result ≡ length self.now.acts }
        ensures few { result < 2 ^ 63 }
    {
        self.acts.len()
    }

    /// The number of further acts for which there is memory.
    pub fn spare(&self) -> usize
        ensures { result ≡ self.now.spare }
    {
        self.acts.capacity() - self.acts.len()
    }

    /// Stores one more act, for which there is memory.
    pub fn push(&mut self, act: Act)
        requires { 1 ≤ self.old.spare }
        ensures acts { self.new.acts ≡ self.old.acts ++ act ∷ [] }
        ensures spare { self.old.spare ≤ self.new.spare + 1 }
    {
        self.acts.push_reserved(act);
    }

    /// The act at a place, counted from 1. The call is one look.
    pub fn get(&self, place: u64, looks: &mut Looks) -> Option<&Act>
        requires { looks.old + 1 < 2 ^ 64 }
        ensures value { option_copied result ≡ act_at self.now.acts place }
        ensures looks { looks.new ≡ looks.old + 1 }
    {
        looks.add(1);
        let before = place.checked_sub(1)?;
        self.acts.get(before as usize)
    }

    /// The act behind so many others, which has to be there. The call is one look.
    pub fn behind(&self, before: usize, looks: &mut Looks) -> &Act
        requires there { before < length self.now.acts }
        requires room { looks.old + 1 < 2 ^ 64 }
        ensures value { result.now ≡ get_or self.now.acts before result.now }
        ensures looks { looks.new ≡ looks.old + 1 }
    {
        looks.add(1);
        &self.acts[before]
    }

    /// Moves the other's acts to the end of these, for which there is memory. It takes none.
    pub fn take_all(&mut self, other: &mut Journal)
        requires { length other.old.acts ≤ self.old.spare }
        ensures acts { self.new.acts ≡ self.old.acts ++ other.old.acts }
        ensures other { other.new.acts ≡ [] }
        ensures spare { self.old.spare ≤ self.new.spare + length other.old.acts }
    {
        self.acts.append(&mut other.acts).unwrap();
    }
}
