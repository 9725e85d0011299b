//! Records: the store of a shard, which keeps the acts of subscribers with their entries.
//!
//! Stands on `dcc_model` for what a list of acts makes, on `dcc_act` for acts, entries and subscribers, and on `dcc_tariff`
//! for terms. A book has a list of held acts for each subscriber, and each list makes exactly its own acts. The content of a store has
//! the acts of each subscriber, their entries and the account. A book determines its content under the store's terms.
//!
//! The contract of [`Records`], for a store of any kind:
//! - [`append_all`](Records::append_all) adds the acts of a batch, each with its entries, all or none. The acts are of different
//!   subscribers. A stop is the end of the process. A stop at any moment of the call leaves the content of the book before the call, or of
//!   the book with all acts of the batch. [`append`](Records::append) adds a batch of one act.
//! - With [`Memory`](StoreFault::Memory) nothing changed, and the records may be used. [`Device`](StoreFault::Device) is returned only
//!   if the records failed in that call; they are stopped from then on. [`Stopped`](StoreFault::Stopped) is returned only if they
//!   were stopped before; then the call does nothing.
//! - [`load`](Records::load) returns the book: all held acts of each subscriber, and nothing else.
//!
//! [`MemoryRecords`] are records in memory, which never fail.
#![tactic(auto)]

mod addition;
mod book;
mod fault;
mod laws;
mod logged;
mod memory;
mod page;
mod records;
mod row;

pub use addition::Addition;
pub use book::Book;
pub use fault::StoreFault;
pub use laws::{
    acts_stand_apart, batches_come_next, batches_stand_apart, content_has_one_book,
    new_acts_come_next,
};
pub use memory::MemoryRecords;
pub use page::Page;
pub use records::Records;
