//! The type of a request, and the action of an event.

ghost use Rattle.std.specs.Prelude.{◌≡◌};
ghost use Rattle.dcc_ccr.specs.Types.{is_event, action_from, action_of, type_of};

use dcc_act::Action;
use dcc_avp::{Avp, codes};
use dcc_request::table::EVENT_TYPE;
use dcc_request::{Refused, number_within, required};

/// The type of a request (CC-Request-Type, RFC 8506, section 8.3).
#[derive(Clone, Copy, Debug, PartialEq, Eq)]
pub enum RequestType {
    /// INITIAL_REQUEST, 1: opens a session.
    Initial,
    /// UPDATE_REQUEST, 2: belongs to an open session.
    Update,
    /// TERMINATION_REQUEST, 3: ends a session.
    Termination,
    /// EVENT_REQUEST, 4: belongs to no session.
    Event(Action),
}

impl RequestType {
    /// Whether it is an event.
    pub fn is_event(self) -> bool
        ensures { result ≡ is_event self }
    {
        matches!(self, RequestType::Event(_))
    }
}

/// The action of a number from 0 to 3.
fn action_from(number: u32) -> Action
    ensures { result ≡ action_from number }
{
    match number {
        0 => Action::DirectDebiting,
        1 => Action::RefundAccount,
        2 => Action::CheckBalance,
        _ => Action::PriceEnquiry,
    }
}

/// The first Requested-Action.
#[tactic(auto, unfolding(crate::specs::Types::action_of))]
fn action_of<'a>(avps: &[Avp<'a>]) -> Result<Action, Refused<'a>>
    ensures { result ≡ action_of avps.now }
{
    let number = number_within(required(avps, codes::REQUESTED_ACTION)?, 0, 3)?;
    Ok(action_from(number))
}

/// The type of a number from 1 to 4. The action is read in an event alone.
#[tactic(auto, unfolding(crate::specs::Types::type_of))]
pub(crate) fn type_of<'a>(avps: &[Avp<'a>], number: u32) -> Result<RequestType, Refused<'a>>
    ensures { result ≡ type_of avps.now number }
{
    match number {
        EVENT_TYPE => Ok(RequestType::Event(action_of(avps)?)),
        1 => Ok(RequestType::Initial),
        2 => Ok(RequestType::Update),
        _ => Ok(RequestType::Termination),
    }
}
