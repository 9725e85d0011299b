//! Charging sessions of one subscriber, each with holds on the subscriber's pool for the units that were granted to it.
//!
//! Stands on `dcc_escrow`, `dcc_act` and `dcc_tariff`. A session goes through typed states: [`Idle`] before its first
//! request, [`Open`] while it has grants, and [`Closed`]. Only an [`Open`] session has [`Open::report`] and [`Open::grant`],
//! and [`Open::end`] takes it away, so that a report or a grant after the end can't be written. The contract that it gives:
//! each live grant has a hold on the pool, of exactly its price. A service that reports or asks gives its hold back, and its
//! report is charged at the tariff of that grant. A call changes the reserved money of the pool by the price of the grants
//! that it makes or gives back. `end` gives back all holds.
//!
//! **No hold is lost.** An [`Open`] session can't be let go: a program in which a session is neither ended nor parked
//! doesn't compile. [`Open::park`] puts it away as data, and [`ParkedSession::resume`] makes it open again. Parked data
//! can be let go, as any data. So the owner of parked sessions and their pool has to keep that the reserved money is the
//! sum of their holds; each clause here says by how much a call changes it.
#![tactic(auto)]

mod charged;
mod charging;
mod fault;
mod granted;
mod held;
mod holds;
mod idle;
mod open;
mod parked;

pub use charged::{Charged, Charges};
pub use fault::GrantFault;
pub use granted::Granted;
pub use held::{Held, price_held};
pub use idle::{Closed, Idle};
pub use open::Open;
pub use parked::ParkedSession;
