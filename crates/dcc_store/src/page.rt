//! Pages of a book.

ghost use Rattle.std.specs.Prelude.{◌≡◌, ◌≢◌, ◌↔◌, [], IsSome, IfSome};

use dcc_act::{Act, Sub};
use std::marker::Model;

/// A subscriber, and its acts in order, of which there is one at least.
#[derive(Debug, Drop)]
pub struct Page {
    sub: Sub,
    acts: Vec<Act>,
}

impl Model for Page {
    ghost use Rattle.std.specs.Prelude.{◌≢◌, []};
    ghost use Rattle.dcc_store.specs.Books.{PageView};

    ghost Value = { PageView };

    ghost view = { λ p. record { sub = p.sub; acts = p.acts.items } };

    ghost invariant = { λ p. p.acts.items ≢ [] };
}

impl Page {
    /// The page of this subscriber and these acts; none if there are no acts. It takes no memory.
    pub fn new(sub: Sub, acts: Vec<Act>) -> Option<Page>
        ensures some { IsSome result ↔ (acts.items ≢ []) }
        ensures value { IfSome result (λ page. page ≡ record { sub = sub; acts = acts.items }) }
    {
        if acts.is_empty() {
            return None;
        }
        Some(Page { sub, acts })
    }

    /// The subscriber whose acts these are.
    pub fn sub(&self) -> Sub
        ensures { result ≡ self.now.sub }
    {
        self.sub
    }

    /// The acts, in order.
    pub fn acts(&self) -> &[Act]
        ensures value { result.now ≡ self.now.acts }
        ensures some { result.now ≢ [] }
    {
        &self.acts
    }

    /// The subscriber and the acts, without taking memory.
    pub fn into_parts(self) -> (Sub, Vec<Act>)
        ensures sub { result.0 ≡ self.sub }
        ensures acts { result.1.items ≡ self.acts }
        ensures some { result.1.items ≢ [] }
    {
        let Page { sub, acts } = self;
        (sub, acts)
    }
}
