//! Subscribers that contracts see as a list.

ghost use Rattle.std.specs.Prelude.{◌≡◌, []};

use dcc_act::Sub;
use std::alloc::Global;
use std::marker::Model;

/// A list of subscribers.
#[derive(Debug, Drop)]
pub struct Subs {
    items: Vec<Sub>,
}

impl Model for Subs {
    ghost use Rattle.std.specs.Prelude.{List};
    ghost use Rattle.dcc_act.specs.declared.sub.Sub.{Sub};

    ghost Value = { List Sub };

    ghost view = { λ s. s.items.items };
}

impl Subs {
    /// No subscribers. It takes no memory.
    pub fn new(alloc: Global) -> Self
        ensures { result ≡ [] }
    {
        Subs {
            items: Vec::new(alloc),
        }
    }

    /// These subscribers. It takes no memory.
    pub fn from_vec(items: Vec<Sub>) -> Self
        ensures { result ≡ items.items }
    {
        Subs { items }
    }

    /// The subscribers.
    pub fn as_slice(&self) -> &[Sub]
        ensures { result.now ≡ self.now }
    {
        self.items.as_slice()
    }

    /// The subscribers, moved out.
    pub fn into_vec(self) -> Vec<Sub>
        ensures { result.items ≡ self }
    {
        self.items
    }
}
