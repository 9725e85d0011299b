//! The network, the clock and the standard error of the system, for a server: gateways that connect over TCP, moments, and lines that
//! report what happened.
//!
//! Stands on std's sockets, and on `dcc_rounds` and `dcc_connect` for what a listener, a connection and a clock are. What a socket gives and
//! takes, and what a clock returns, are the system's. The contract here is only that a call ends, that a moment is within its limits, for
//! how long a gateway is waited for ([`Silence`], [`Waiting`]), what is due by time, and what an error of accepting means ([`meaning_of`]). [`Door`] is a bound
//! listener, [`Closing`] says whether a server that stays is to end, [`Input`] and [`Output`] are the halves of a connection,
//! [`SystemClock`] is the clock, and [`NoticeLines`] are the lines.
#![tactic(auto)]

mod around;
mod audits;
mod backing;
mod begun;
mod calling;
mod calls;
mod clock;
mod closing;
mod door;
mod dues;
mod gateway;
mod lingering;
mod messages;
mod notices;
mod options;
mod place;
mod refusal;
mod silence;
mod trouble;
mod waiting;

pub use audits::{AUDIT_LINE_SECONDS, AuditReports};
pub use backing::Backing;
pub use begun::BEGIN_MILLIS;
pub use calling::{ANSWER_SECONDS, CallerHalf, connect};
pub use calls::{CALL_SECONDS, Calls};
pub use clock::SystemClock;
pub use closing::{Closing, Staying, remove_stop};
pub use door::{Door, SHORT_SECONDS, TURN_SECONDS};
pub use gateway::{Input, Output, halves};
pub use lingering::LINGER_SECONDS;
pub use notices::NoticeLines;
pub use place::Place;
pub use refusal::{Refusal, meaning_of};
pub use silence::{FIRST_SECONDS, MOST_SILENT_SECONDS, Silence};
pub use waiting::{LOOK_MILLIS, WRITE_SECONDS, Waiting};
