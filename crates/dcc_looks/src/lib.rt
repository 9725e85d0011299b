//! What is found of a shard's store, without a change of its files: whether a server would open it, and else why not.
//!
//! Stands on `dcc_files` for the paths, the settings and the opening of stores, on `dcc_sqlite_store` for their faults, and on `dcc_explain` for the
//! reports of looks. The files are copied into memory, and the copies are opened, and upgraded if they are of layout 1: so the judgement is that of
//! `dcc_files::open_or_upgrade`, and no file is written. While they are copied, no other process may open them. The contract that it gives is that of
//! `dcc_explain::Looks`; the words have no clause.
#![tactic(auto)]

mod copies;
mod counting;
mod damage;
mod judging;
mod looking;
mod rows;
mod settings;
mod subs;

pub use looking::FileLooks;
