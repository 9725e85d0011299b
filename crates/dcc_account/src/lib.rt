//! One subscriber's account: the acts that were made, with their outcomes and entries.
//!
//! Stands on `dcc_state`, `dcc_escrow`, `dcc_expiry`, `dcc_model`, `dcc_act` and `dcc_tariff`. The contract that it gives:
//! `prepare` returns the outcome of an act after the acts that were made, whether it is new and its place, and takes all the
//! memory that it needs. `install` makes it, and can't be refused. The acts stand in a journal, which counts each look, and
//! their outcomes in a list beside it. Indexes find an act by its key and an opened session by its name, and money and open
//! sessions are kept. So a step costs the same however many acts there are, unless a list or an index moves into twice the room.
#![tactic(auto)]

mod account;
mod growth;
mod indexes;
mod kept;
mod larger;
mod new_keys;
mod step;

pub use account::Account;
pub use step::Step;
