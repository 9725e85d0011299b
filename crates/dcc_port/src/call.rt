//! The calls of an operator.

ghost use Rattle.std.specs.Prelude.{◌≡◌, ◌++◌, ◌∷◌, [], OnOk};

use dcc_act::Sub;
use dcc_octets::OctetString;
use std::alloc::{AllocError, Global};
use std::marker::Model;

/// A call of an operator, by its method, its path and its body; or the refusal of a request that is no call.
#[derive(Drop)]
pub enum Call {
    /// `GET /health`: whether no shard has stopped.
    Health,
    /// `GET /metrics`: the server's counters, and whether each shard has stopped.
    Metrics,
    /// `GET /subscribers/SUB`: the money and the open sessions of an account.
    Account(Sub),
    /// `GET /subscribers/SUB/ledger`: the ledger of an account.
    Ledger(Sub),
    /// `POST /subscribers/SUB/topups`: a top-up, once by its ticket, of an amount in minor units.
    TopUp { sub: Sub, ticket: u64, amount: u64 },
    /// `POST /topups`: many top-ups.
    TopUps(Asks),
    /// `POST /sweep`: the end of all sessions that are due.
    Sweep,
    /// `POST /backup`: copies of the shards' stores in a new folder of this path.
    Backup(OctetString),
    /// `POST /stop`: the end of the server.
    Stop,
    /// No call: the request is refused.
    Flawed(Flaw),
}

/// One of many top-ups, once by its ticket, of an amount in minor units.
#[derive(Clone, Copy)]
pub struct Ask {
    pub sub: Sub,
    pub ticket: u64,
    pub amount: u64,
}

/// Top-ups, in order.
#[derive(Drop)]
pub struct Asks {
    items: Vec<Ask>,
}

impl Model for Asks {
    ghost use Rattle.std.specs.Prelude.{List};
    ghost use Rattle.dcc_port.specs.declared.call.Ask.{Ask};

    ghost Value = { List Ask };

    ghost view = { λ a. a.items.items };
}

impl Asks {
    /// No top-ups. It takes no memory.
    pub(crate) fn new(alloc: Global) -> Asks
        ensures { result ≡ [] }
    {
        Asks {
            items: Vec::new(alloc),
        }
    }

    /// Adds a top-up. The only error is want of memory.
    pub(crate) fn push(&mut self, ask: Ask) -> Result<(), AllocError>
        ensures { OnOk result (self.new ≡ self.old ++ ask ∷ []) }
    {
        self.items.push(ask)?;
        Ok(())
    }

    /// The top-ups, in order.
    pub fn as_slice(&self) -> &[Ask]
        ensures { result.now ≡ self.now }
    {
        self.items.as_slice()
    }
}

/// The methods of calls.
#[derive(Clone, Copy)]
pub enum Verb {
    Get,
    Post,
}

/// The reason for which a request is no call.
#[derive(Clone, Copy)]
pub enum Flaw {
    /// There is no such path.
    Path,
    /// The path has another method: this one.
    Method(Verb),
    /// The path names no subscriber.
    Subscriber,
    /// The body of a top-up has this slip.
    Body(BodySlip),
    /// The line of this number, from 1, is no top-up, for this slip.
    Line(u64, LineSlip),
    /// The body of a backup has no folder.
    Folder,
    /// The request has an origin, as one from a page of a browser has.
    Origin,
    /// The host of the request is no address in numbers.
    Host,
}

/// The members of a top-up's body.
#[derive(Clone, Copy)]
pub enum Member {
    Ticket,
    Amount,
}

/// The first slip of a top-up's body.
#[derive(Clone, Copy)]
pub enum BodySlip {
    /// The body is no JSON in ASCII.
    NoJson,
    /// This member is missing.
    Missing(Member),
    /// The value of this member is no whole number of 0 to 2^64 - 1.
    NoNumber(Member),
}

/// The first slip of a line of top-ups.
#[derive(Clone, Copy)]
pub enum LineSlip {
    /// The line has not three words.
    Count,
    Subscriber,
    Ticket,
    Amount,
}
