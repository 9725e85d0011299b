//! The outcome of each act of a subscriber, and the plain program that computes it.
//!
//! Stands on `dcc_act` and `dcc_tariff`. The definitions look back over one subscriber's list of acts: which of them are
//! made, the outcome of each, the funds, the overrun, the free money, and the entries in the books. The contract that
//! this crate gives: `plain_answer` is the defined outcome at each place of each list, `judge` is the outcome and the
//! change of one more act, and the definitions obey the laws of `laws`.
#![tactic(auto)]

mod decide;
mod done;
mod evaluator;
mod granting;
mod judgement;
mod keys;
mod laws;
mod looked_at;
mod money;
mod outcomes;
mod posting;
mod pricing;
mod results;
mod sessions;

pub use decide::{CEILING, decide_event, decide_top_up, price};
pub use done::Done;
pub use evaluator::{
    first, has_account, judge, place_of_key, plain_answer, unknown, was_opened_from,
};
pub use granting::{answer_with, asked_answer};
pub use judgement::{Judgement, Standing};
pub use keys::{is_expiry, request_key};
pub use laws::{
    acts_come_to_their_own, charges_are_borne, funds_are_accounted_for, keys_are_apart,
    later_acts_change_no_outcome, leaving_out_changes_nothing, numbers_are_given, one_more_act,
    one_more_act_opens, places_hold, sessions_open_once,
};
pub use looked_at::services_looked_at;
pub use money::{credited, debited};
pub use outcomes::{bare, command_result, is_below_floor};
pub use posting::{charge_entry, event_entries, top_up_entries};
pub use pricing::{answer_by, answered, charge_by, cost_by, made_prices};
pub use results::{has_succeeded, is_refused};
pub use sessions::{answers_of, names_any, was_opened};
