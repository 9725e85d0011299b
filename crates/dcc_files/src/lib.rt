//! The stores of shards as files in a folder: of each shard `shard-N.db`, where N is its index, and beside it the log that `sqlite` keeps.
//!
//! Stands on `dcc_sqlite_store` for records over a database, on `dcc_startup` for what a command asks of stores, and on the kit's `sqlite` for files. The
//! contract that it gives is that of `dcc_startup::Stores`: records are under the plan's terms. If the disk has returned the written octets, the
//! tables of the records were made for the shard that was asked for, under that plan. A store of layout 1 is upgraded first, by [`open_or_upgrade`],
//! and a line on standard error reports it. The system decides which file that is, and what else is in it: this has no contract here.
#![tactic(auto)]

mod counts;
mod file_records;
mod opening;
mod stores;

pub use counts::{Count, acts_in, count_of, count_path_of};
pub use file_records::FileRecords;
pub use opening::open_or_upgrade;
pub use stores::{FileStores, path_of, setting_of};
