//! The outcome of one more act, by the facts that an account keeps of the acts before it.
//!
//! Stands on `dcc_model`, `dcc_session`, `dcc_expiry`, `dcc_act` and `dcc_tariff`. An account keeps its money, the open sessions with
//! their live grants, their deadlines in order, and a few facts. `judge` reads these alone, and never looks back over the acts. The
//! contract that it gives: if these are the facts of the acts before, then the outcome, the place, the entries and the money are those of
//! the definitions, and the returned change leads to the sessions that are open after the act. Once it is made, the deadlines are exactly
//! those of these sessions.
#![tactic(auto)]

mod after;
mod applying;
mod change;
mod facts;
mod granting;
mod grants;
mod judgement;
mod judging;
mod laws;
mod limits;
mod open_session;
mod requests;

pub use change::{Change, Turn};
pub use facts::Facts;
pub use judgement::Judgement;
pub use judging::judge;
pub use laws::{money_is_within, numbers_are_given, sessions_hold_what_is_reserved};
pub use limits::{FARTHEST, POOL};
pub use open_session::OpenSession;
