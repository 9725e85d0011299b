//! The pages to which lines belong.

ghost use Rattle.std.specs.Prelude.{◌≡◌, ◌≢◌, ◌↔◌, ◌+◌, pos, true, List, [], ◌∷◌, None, All, IfOk, IfSome, OnOk, map};
ghost use Rattle.std.specs.List.{AllByRecursion};
ghost use Rattle.dcc_act_codec.specs.Limits.{IsAct};
ghost use Rattle.dcc_store.specs.Books.{PageView, AreInOrder};
ghost use Rattle.dcc_sqlite_rows.specs.Pages.{IsSub, IsPage, book_act_rows};
ghost use Rattle.dcc_sqlite_rows.specs.Stored.{line_row};
ghost use Rattle.dcc_sqlite_rows.specs.inner.Groups.{put_behind, before_it};

use crate::line::Line;
use dcc_act::{Act, Sub, same_subscribers_are_equal};
use dcc_act_codec::records_differ;
use dcc_store::{Book, Page};
use std::alloc::{AllocError, Global};

/// The only book whose rows of acts these lines are. None if there is no such book: the place of a line isn't the place of its act, or
/// the subscribers aren't in order. The acts of the lines become those of the book: no act is copied. The conditions: subscribers and acts
/// are within their limits. The only error is want of memory.
pub fn book_of(alloc: Global, lines: Vec<Line>) -> Result<Option<Book>, AllocError>
    requires subs { All (λ line. IsSub line.sub) lines.items }
    requires fit { All (λ line. IsAct line.act) lines.items }
    ensures rows { IfOk result (λ found. IfSome found (λ pages. map line_row lines.items ≡ book_act_rows pages)) }
    ensures valid { IfOk result (λ found. IfSome found (λ pages. AllByRecursion IsPage pages)) }
    ensures only { IfOk result (λ found. IfSome found (λ pages.
        (others : List PageView) → AreInOrder others → AllByRecursion IsPage others → map line_row lines.items ≡ book_act_rows others → others ≡ pages)) }
    ensures none { IfOk result (λ found. found ≡ None
        → (pages : List PageView) → AreInOrder pages → AllByRecursion IsPage pages → map line_row lines.items ≢ book_act_rows pages) }
{
    same_subscribers_are_equal();
    records_differ();
    let mut pages = Vec::new(alloc);
    let mut fits = true;
    for line in lines {
        let place = line.place;
        let before = put_behind(alloc, &mut pages, line)?;
        fits &= stands_behind(place, before);
    }
    if !fits {
        return Ok(None);
    }
    Ok(Book::from_vec(pages))
}

/// Whether a place is the next behind so many acts.
fn stands_behind(place: i64, before: usize) -> bool
    ensures { result ≡ true ↔ place ≡ pos (before + 1) }
{
    i128::from(place) == before as i128 + 1
}

/// Puts the act of a line behind the other acts on the last page, if this is the page of its subscriber, and otherwise on a new page.
/// It returns the number of acts that stand before the act on its page.
fn put_behind(alloc: Global, pages: &mut Vec<Page>, line: Line) -> Result<usize, AllocError>
    ensures pages { OnOk result (pages.new.items ≡ put_behind line.sub line.act pages.old.items) }
    ensures before { IfOk result (λ before. before ≡ before_it line.sub pages.old.items) }
{
    let Line {
        sub: own,
        place: _,
        act,
    } = line;
    let Some(page) = pages.pop() else {
        pages.push(first_page(alloc, own, act)?)?;
        return Ok(0);
    };
    if page.sub() != own {
        pages.push(page)?;
        pages.push(first_page(alloc, own, act)?)?;
        return Ok(0);
    }
    let (sub, mut acts) = page.into_parts();
    let before = acts.len();
    acts.push(act)?;
    pages.push(Page::new(sub, acts).unwrap())?;
    Ok(before)
}

/// The page of a first act.
fn first_page(alloc: Global, sub: Sub, act: Act) -> Result<Page, AllocError>
    ensures { IfOk result (λ page. page ≡ record { sub = sub; acts = act ∷ [] }) }
{
    let mut acts = Vec::new(alloc);
    acts.push(act)?;
    Ok(Page::new(sub, acts).unwrap())
}
