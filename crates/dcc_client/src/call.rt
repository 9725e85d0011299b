//! Calls.

use dcc_act::Sub;

/// A call to the operator's port of a server.
#[derive(Clone, Copy, Debug)]
pub enum Call {
    /// The money of a subscriber.
    Account(Sub),
    /// The ledger of a subscriber.
    Ledger(Sub),
    /// A top-up at the moment of the server's clock. The ticket tells it from the other top-ups of its subscriber. The amount is in minor units.
    TopUp { sub: Sub, ticket: u64, amount: u64 },
}
