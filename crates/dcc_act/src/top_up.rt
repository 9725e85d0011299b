//! Top-ups.

ghost use Rattle.std.specs.Prelude.{◌≡◌, if◌then◌else◌, Some, None};
ghost use Rattle.dcc_act.specs.TopUps.{is_amount};

use crate::limits::MAX_AMOUNT;
use std::marker::Model;

/// Money that is put into an account.
#[derive(Clone, Copy, Debug, PartialEq, Eq)]
pub struct TopUp {
    /// The key of the top-up among those of its subscriber.
    pub ticket: u64,
    /// In minor units, 1 to 10^18.
    pub amount: u64,
}

impl Model for TopUp {
    ghost use Rattle.std.specs.Prelude.{◌≡◌, true};
    ghost use Rattle.dcc_act.specs.TopUps.{TopUpView, is_amount};

    ghost Value = { TopUpView };

    ghost view = { λ t. record { ticket = t.ticket; amount = t.amount } };

    ghost invariant = { λ t. is_amount t.amount ≡ true };

    ghost inverse = { λ v. record { ticket = v.ticket; amount = v.amount } };
}

impl TopUp {
    /// The top-up of this ticket and this amount in minor units. None if the amount isn't 1 to 10^18.
    pub fn new(ticket: u64, amount: u64) -> Option<TopUp>
        ensures { result ≡ (if is_amount amount then Some (record { ticket = ticket; amount = amount }) else None) }
    {
        if !is_amount(amount) {
            return None;
        }
        Some(TopUp { ticket, amount })
    }
}

/// Whether one top-up may add this much.
fn is_amount(amount: u64) -> bool
    ensures { result ≡ is_amount amount }
{
    1 <= amount && amount <= MAX_AMOUNT
}
