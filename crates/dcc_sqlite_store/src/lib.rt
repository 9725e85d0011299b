//! Records over `sqlite`: the acts of subscribers, with their entries and accounts, as rows of four tables.
//!
//! Stands on `dcc_store` for what records promise, on `dcc_sqlite_rows` for rows and the book that they are of, on `dcc_act_codec` for
//! the octets of an act, on `dcc_model`, `dcc_act` and `dcc_tariff` for books, and on the kit's `sqlite` for what a stop leaves
//! of a database. The tables stand in `specs/Tables.antt` as SQL makes them, what is read of them in `specs/Queries.antt`, and
//! what they hold of a book in `specs/Content.antt`.
//!
//! The contract that it gives:
//! - [`SqlRecords::create`] makes the tables in a database that has nothing in it, and nowhere else, in one transaction: a stop
//!   inside leaves the database as it was, or with tables that hold no acts.
//! - [`SqlRecords`] are `dcc_store::Records`. An append writes the acts of a batch, each with its entries and its subscriber's account, in
//!   one transaction: after Ok a stop leaves the content of the book with the acts, after want of memory that of the book before, and
//!   after any other refusal, or inside the call, the one or the other; then nothing is done any more. A load reads the table
//!   of acts by one statement, and judges each list of acts by an account of its own.
//! - [`SqlRecords::open`] reads each table whole, by one statement, and judges the rows by the acts: Ok with the book that the tables
//!   hold, or the first fault that applies, with nothing changed. Rows of a book are never told 54 or 55.
//! - [`upgrade`] makes a store of layout 1, whose acts have records of version 1, into the store of layout 2 of the same acts, in one
//!   transaction: a stop inside leaves the one or the other. The rows are judged before anything is changed. What is not such a store stays as it
//!   was.
//! - [`stop_and_open`] finds one of the databases that a stop leaves, and [`stop_and_reopen`] the records in it: what they hold is one
//!   of the contents that a stop leaves. Where a stop leaves a book's content, only want of memory, a database that fails or another
//!   setting keeps it from being opened.
//! - [`stores_have_the_layout`] is the law of stores: the schema of a database over the trees of a store is the layout of a store.
#![tactic(auto)]

mod adding;
mod appending;
mod collecting;
mod dropping;
mod fault;
mod files;
mod judging;
mod laws;
mod layout;
mod loading;
mod making;
mod old_store;
mod opening;
mod parts;
mod reading;
mod records;
mod refilling;
mod remaking;
mod rising;
mod setting;
mod sql_records;
mod storing;
mod tally;
mod telling;
mod transaction;
mod upgrading;

pub use fault::{CreateFault, OpenFault};
pub use files::{stop_and_open, stop_and_reopen};
pub use laws::stores_have_the_layout;
pub use setting::Setting;
pub use sql_records::SqlRecords;
pub use upgrading::upgrade;
