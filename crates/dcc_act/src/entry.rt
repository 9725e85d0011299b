//! Entries in the books.

ghost use Rattle.std.specs.Prelude.{◌≡◌, IfOk};

use crate::moment::Moment;
use crate::session_id::SessionId;
use std::alloc::AllocError;

/// The kind of an act for which an entry stands.
#[derive(Clone, Copy, Debug, PartialEq, Eq)]
pub enum EntryKind {
    /// A top-up that was added.
    TopUp,
    /// A direct debit.
    Debit,
    /// A refund.
    Refund,
    /// The charge for a report of a session's request.
    Charge,
}

/// The name of an entry.
#[derive(Debug, PartialEq, Eq, Drop)]
pub enum EntryName {
    /// The ticket of a top-up.
    Ticket(u64),
    /// The session of a request.
    Session(SessionId),
}

impl EntryName {
    /// An equal name. The only error is want of memory.
    pub fn copy(&self) -> Result<EntryName, AllocError>
        ensures { IfOk result (λ copy. copy ≡ self.now) }
    {
        match self {
            EntryName::Ticket(ticket) => Ok(EntryName::Ticket(*ticket)),
            EntryName::Session(sid) => Ok(EntryName::Session(sid.copy()?)),
        }
    }
}

/// One line in the books of an account: an act's change of the funds.
#[derive(Debug, PartialEq, Eq, Drop)]
pub struct Entry {
    /// The place of its act among the made acts of the subscriber, from 1.
    pub place: u64,
    /// The moment of its act.
    pub moment: Moment,
    pub kind: EntryKind,
    /// The Rating-Group of the service, as sent.
    pub group: Option<u32>,
    /// The units that were charged, 0 for a top-up.
    pub units: u64,
    /// The change of the funds, in minor units.
    pub amount: i64,
    pub name: EntryName,
}

impl Entry {
    /// An equal entry. The only error is want of memory.
    pub fn copy(&self) -> Result<Entry, AllocError>
        ensures { IfOk result (λ copy. copy ≡ self.now) }
    {
        Ok(Entry {
            place: self.place,
            moment: self.moment,
            kind: self.kind,
            group: self.group,
            units: self.units,
            amount: self.amount,
            name: self.name.copy()?,
        })
    }
}
