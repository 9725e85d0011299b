//! One-time events.

ghost use Rattle.std.specs.Prelude.{◌≡◌, IfOk};

use crate::request_key::RequestKey;
use crate::service::Service;
use std::alloc::AllocError;
use std::marker::Model;

/// The action of a one-time event (Requested-Action, RFC 8506, section 8.41).
#[derive(Clone, Copy, Debug, PartialEq, Eq)]
pub enum Action {
    /// DIRECT_DEBITING, 0: charges the price of the units at once.
    DirectDebiting,
    /// REFUND_ACCOUNT, 1: refunds the price of the units.
    RefundAccount,
    /// CHECK_BALANCE, 2: asks whether the free money covers the price of the units.
    CheckBalance,
    /// PRICE_ENQUIRY, 3: asks for the price of the units.
    PriceEnquiry,
}

/// A one-time event (RFC 8506, section 6). It has one service, which asks for units.
#[derive(Debug, Drop)]
pub struct OneTimeEvent {
    pub key: RequestKey,
    pub action: Action,
    pub service: Service,
}

impl Model for OneTimeEvent {
    ghost use Rattle.dcc_act.specs.OneTimeEvents.{OneTimeEventView, AsksUnits};

    ghost Value = { OneTimeEventView };

    ghost view = { λ e. record { key = e.key; action = e.action; service = e.service } };

    ghost invariant = { λ e. AsksUnits e.service };

    ghost inverse = { λ v. record { key = v.key; action = v.action; service = v.service } };
}

impl OneTimeEvent {
    /// An equal event. The only error is want of memory.
    pub fn copy(&self) -> Result<OneTimeEvent, AllocError>
        ensures { IfOk result (λ copy. copy ≡ self.now) }
    {
        Ok(OneTimeEvent {
            key: self.key.copy()?,
            action: self.action,
            service: self.service.copy()?,
        })
    }
}
