//! A shard that is stopped and opened again, and a store that is stopped in the midst of its upgrade.
//!
//! Stands on `dcc_sqlite_store` for records over a database, for the upgrade of a store and what a stop leaves of both, on `dcc_act_codec` for the records of
//! layout 1, on `dcc_shard` for what stands on records, and on the kit's `sqlite` for files. It gives two laws of any disk that returns what was
//! written: [`stop_and_reopen_shard`] and [`stop_and_upgrade`]. No program calls them.
#![tactic(auto)]

mod stops;
mod upgrades;

pub use stops::stop_and_reopen_shard;
pub use upgrades::stop_and_upgrade;
