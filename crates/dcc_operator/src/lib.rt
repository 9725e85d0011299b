//! An operator's work over the accounts of one shard: a page is printed (a ledger or a balance), or a top-up is made.
//!
//! Stands on `dcc_shard` for the accounts, over any records, on `dcc_startup` for the shard over a store of a folder, on `dcc_ledger` for
//! the text of a ledger, and on `dcc_streams` for its output. The contract that it gives: [`page_run`] writes the page of the acts
//! held for a subscriber, octet for octet, or the line of an unknown account; [`top_up_run`] makes one top-up, and writes its answer in one
//! word after the act is in the records. [`top_up_in`] and [`page_in`] do the same over the store of the subscriber's shard, which
//! [`Stores`](dcc_startup::Stores) opens. [`read_asks`] reads the top-ups of a text, [`top_up_each`] makes top-ups in a shard, one after another, and
//! [`top_ups_in`] does so over the store of one shard, and writes a line for each. If a writer fails, a beginning of the text is written. If memory is short for a page, or a
//! store cannot be used, nothing is written.
#![tactic(auto)]

mod commands;
mod fault;
mod ledger;
mod lines;
mod many;
mod page;
mod top_up;
mod top_ups;

pub use commands::{TopUpAsk, page_in, top_up_in};
pub use fault::OperatorFault;
pub use ledger::{balance_text, page_run, unknown_run};
pub use lines::{LineFault, read_asks};
pub use many::top_up_each;
pub use page::Page;
pub use top_up::top_up_run;
pub use top_ups::top_ups_in;
