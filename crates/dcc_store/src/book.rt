//! Books.

ghost use Rattle.std.specs.Prelude.{◌≡◌, ◌↔◌, true, IsSome, IfSome};
ghost use Rattle.dcc_store.specs.Books.{AreInOrder};

use crate::page::Page;
use std::marker::Model;

/// The held acts of a store: a page for each subscriber that has acts, in the order of subscribers.
#[derive(Debug, Drop)]
pub struct Book {
    pages: Vec<Page>,
}

impl Model for Book {
    ghost use Rattle.std.specs.Prelude.{List};
    ghost use Rattle.dcc_store.specs.Books.{PageView, AreInOrder};

    ghost Value = { List PageView };

    ghost view = { λ b. b.pages.items };

    ghost invariant = { λ b. AreInOrder b.pages.items };
}

impl Book {
    /// The book of these pages; none if they are not in the order of their subscribers, or if a subscriber has two pages. It takes no
    /// memory.
    pub fn from_vec(pages: Vec<Page>) -> Option<Book>
        ensures some { IsSome result ↔ AreInOrder pages.items }
        ensures value { IfSome result (λ book. book ≡ pages.items) }
    {
        if !are_in_order(&pages) {
            return None;
        }
        Some(Book { pages })
    }

    /// The book of these pages.
    pub(crate) fn of(pages: Vec<Page>) -> Book
        requires { AreInOrder pages.items }
        ensures { result ≡ pages.items }
    {
        Book { pages }
    }

    /// The pages, in the order of their subscribers.
    pub fn as_slice(&self) -> &[Page]
        ensures value { result.now ≡ self.now }
        ensures ordered { AreInOrder result.now }
    {
        &self.pages
    }

    /// The pages, in the order of their subscribers, without taking memory.
    pub fn into_vec(self) -> Vec<Page>
        ensures value { result.items ≡ self }
        ensures ordered { AreInOrder result.items }
    {
        let Book { pages } = self;
        pages
    }
}

/// Whether the pages are in the order of their subscribers, each of whom has one page.
fn are_in_order(pages: &[Page]) -> bool
    ensures { result ≡ true ↔ AreInOrder pages.now }
{
    for i in 1..pages.len() {
        if !pages[i - 1].sub().cmp(&pages[i].sub()).is_lt() {
            return false;
        }
    }
    true
}
