//! The rows of a store's tables, and the book to which they belong.
//!
//! Stands on `dcc_store` for books, on `dcc_act_codec` for the octets of an act, on `dcc_account` for what a list of acts makes,
//! on `dcc_model`, `dcc_act` and `dcc_tariff` for what acts are, and on the kit's `sqlite` for rows. `specs/Rows.antt` defines the rows
//! of one act, of its entries and of an account. `specs/Pages.antt` defines the rows of a whole book, in the order of their keys.
//! `specs/Stored.antt` defines the meaning of rows that were read. `specs/OldRows.antt` defines the rows of acts of an older store, of
//! layout 1.
//!
//! The contract that it gives: [`read_lines`] reads the rows of acts, and finds rows that are no act's. [`are_of_subs`] finds rows that
//! do not begin with a subscriber. [`book_of`] returns the only pages whose rows the lines are, or none if there are no such pages.
//! [`judge`] checks that each page has exactly the acts that its own list makes, and that the rows of entries and accounts are exactly
//! those of the pages; it returns the number of acts and the funds of each page. [`are_own`] checks the acts alone.
//! [`read_old_lines`] reads the rows of acts of layout 1. By [`old_lines_are_of_old_pages`] the book of their lines is the book of
//! these rows.
#![tactic(auto)]

mod entries;
mod fault;
mod grouping;
mod judging;
mod laws;
mod line;
mod page;
mod tally;
mod value;
mod version;

pub use entries::kind_code;
pub use fault::ReadFault;
pub use grouping::book_of;
pub use judging::{are_own, judge};
pub use laws::{
    books_have_pages, old_books_have_pages, old_lines_are_of_old_pages, old_pages_hold_their_rows,
    pages_hold_their_rows,
};
pub use line::{Line, are_of_subs, read_lines, read_old_lines};
pub use tally::Tally;
pub use value::{has_count, has_number, has_text};
