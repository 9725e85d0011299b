//! The acts of a subscriber: who has the account, what happens to it and when; their outcomes; and the entries that
//! they leave in the books.
//!
//! Stands on `dcc_tariff`, and on `dcc_octets` for visible octets and short names. The contract that it gives: each type
//! keeps its limits, so that the owner of a value knows them. A copy equals its original. Type and data alone tell two
//! subscribers apart. Only a call that counts its [`Looks`] reads an act in a [`Journal`].
#![tactic(auto)]

mod act;
mod entry;
mod grant;
mod journal;
mod laws;
mod limits;
mod looks;
mod moment;
mod one_time_event;
mod outcome;
mod request_key;
mod service;
mod service_answers;
mod service_ids;
mod service_key;
mod services;
mod session_id;
mod session_limit;
mod session_request;
mod sub;
mod sub_order;
mod top_up;

pub use act::{Act, Kind};
pub use entry::{Entry, EntryKind, EntryName};
pub use grant::Grant;
pub use journal::Journal;
pub use laws::{numbers_are_given, same_subscribers_are_equal};
pub use limits::{
    FEW_SERVICES, FEW_SESSIONS, MAX_AMOUNT, MAX_IDS, MAX_SECONDS, MAX_SERVICES, MAX_SESSIONS,
};
pub use looks::Looks;
pub use moment::Moment;
pub use one_time_event::{Action, OneTimeEvent};
pub use outcome::{Answer, Balance, Outcome, RequestType, ResultCode, ServiceAnswer};
pub use request_key::RequestKey;
pub use service::{Form, Service};
pub use service_answers::ServiceAnswers;
pub use service_ids::ServiceIds;
pub use service_key::ServiceKey;
pub use services::Services;
pub use session_id::SessionId;
pub use session_limit::SessionLimit;
pub use session_request::SessionRequest;
pub use sub::Sub;
pub use top_up::TopUp;
