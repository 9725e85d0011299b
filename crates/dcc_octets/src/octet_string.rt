//! A string of octets that contracts see as a list.

ghost use Rattle.std.specs.Prelude.{◌≡◌, [], IfOk};

use std::alloc::{AllocError, Global};
use std::marker::Model;

/// Octets, as many as there is memory for: those of a message, of an answer or of a name.
#[derive(Debug, Drop)]
pub struct OctetString {
    items: Vec<u8>,
}

impl Model for OctetString {
    ghost use Rattle.std.specs.Prelude.{List, ℕ};

    ghost Value = { List ℕ };

    ghost view = { λ s. s.items.items };
}

impl OctetString {
    /// No octets. It takes no memory.
    pub fn new(alloc: Global) -> Self
        ensures { result ≡ [] }
    {
        OctetString {
            items: Vec::new(alloc),
        }
    }

    /// These octets. It takes no memory.
    pub fn from_vec(items: Vec<u8>) -> Self
        ensures { result ≡ items.items }
    {
        OctetString { items }
    }

    /// The octets.
    pub fn as_slice(&self) -> &[u8]
        ensures { result.now ≡ self.now }
    {
        self.items.as_slice()
    }

    /// The octets, moved out.
    pub fn into_vec(self) -> Vec<u8>
        ensures { result.items ≡ self }
    {
        let OctetString { items } = self;
        items
    }

    /// Equal octets. The only error is want of memory.
    pub fn copy(&self) -> Result<OctetString, AllocError>
        ensures { IfOk result (λ copy. copy ≡ self.now) }
    {
        Ok(OctetString {
            items: self.items.clone()?,
        })
    }
}
