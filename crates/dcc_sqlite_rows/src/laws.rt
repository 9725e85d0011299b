//! The laws of rows, for callers.

ghost use Rattle.std.specs.Prelude.{◌≡◌, All, List, map};
ghost use Rattle.std.specs.List.{AllByRecursion};
ghost use Rattle.dcc_act_codec.specs.OldRecords.{IsOldAct};
ghost use Rattle.dcc_store.specs.Books.{PageView};
ghost use Rattle.dcc_sqlite_rows.specs.Pages.{IsPage, book_act_rows};
ghost use Rattle.dcc_sqlite_rows.specs.Stored.{line_row};
ghost use Rattle.dcc_sqlite_rows.specs.Held.{PagesHoldTheirActs, PagesHoldTheirEntries, PagesHoldTheirAccounts, PagesMakeABook, PagesFit, PagesAreOfSubs};
ghost use Rattle.dcc_sqlite_rows.specs.Ordered.{BooksHavePages, BooksAreWhole};
ghost use Rattle.dcc_sqlite_rows.specs.OldRows.{old_line_row, IsOldPage, old_book_act_rows, OldPagesHoldTheirActs, OldPagesFit, OldBooksHavePages, OldBooksAreWhole};
ghost use Rattle.dcc_sqlite_rows.specs.declared.line.Line.{Line};

use dcc_act::same_subscribers_are_equal;
use dcc_act_codec::{old_records_differ, records_differ};
use dcc_model::leaving_out_changes_nothing;

/// The rows of acts, entries and accounts of pages are the rows of the book that the pages are, and no others. Pages are a book if
/// the acts of each page are exactly those that its own list makes. The acts of pages, and the subscribers that have acts, are within
/// their limits. It does nothing.
pub fn pages_hold_their_rows()
    ensures acts { PagesHoldTheirActs }
    ensures entries { PagesHoldTheirEntries }
    ensures accounts { PagesHoldTheirAccounts }
    ensures book { PagesMakeABook }
    ensures fit { PagesFit }
    ensures subs { PagesAreOfSubs }
{
    leaving_out_changes_nothing();
    same_subscribers_are_equal();
}

/// The rows of a book, each table in the order of its key, are the rows of pages, and no row is damaged: the order of octets on a
/// subscriber's type and data is the order of subscribers. It does nothing.
pub fn books_have_pages()
    ensures pages { BooksHavePages }
    ensures whole { BooksAreWhole }
{
    same_subscribers_are_equal();
}

/// If each act of lines has a record of version 1, the rows of the lines in layout 2 are the rows of pages exactly if their rows in
/// layout 1 are. Such pages are pages of both layouts. So [`crate::book_of`] and [`crate::judge`] judge rows of layout 1 by their
/// lines. It does nothing.
pub fn old_lines_are_of_old_pages()
    ensures there { (lines : List Line) (pages : List PageView) → All (λ line. IsOldAct line.act) lines → AllByRecursion IsPage pages
        → map line_row lines ≡ book_act_rows pages → AllByRecursion IsOldPage pages × (map old_line_row lines ≡ old_book_act_rows pages) }
    ensures back { (lines : List Line) (pages : List PageView) → All (λ line. IsOldAct line.act) lines → AllByRecursion IsOldPage pages
        → map old_line_row lines ≡ old_book_act_rows pages → AllByRecursion IsPage pages × (map line_row lines ≡ book_act_rows pages) }
{
    records_differ();
    old_records_differ();
}

/// The rows of acts of pages, in layout 1, are the rows of the book that the pages are, and no others. The acts have records of
/// version 1. The pages are pages of layout 2 too, so [`pages_hold_their_rows`] speaks of their entries, accounts and book.
/// It does nothing.
pub fn old_pages_hold_their_rows()
    ensures acts { OldPagesHoldTheirActs }
    ensures fit { OldPagesFit }
    ensures pages { (pages : List PageView) → AllByRecursion IsOldPage pages → AllByRecursion IsPage pages }
{
    same_subscribers_are_equal();
    records_differ();
    old_records_differ();
}

/// The rows of a book in layout 1, each table in the order of its key, are the rows of pages, and no row is damaged. It does nothing.
pub fn old_books_have_pages()
    ensures pages { OldBooksHavePages }
    ensures whole { OldBooksAreWhole }
{
    same_subscribers_are_equal();
    records_differ();
    old_records_differ();
}
