//! The end: all receipts are compared with the books.

ghost use Rattle.std.specs.Prelude.{◌≡◌, length, IfOk, IfErr};
ghost use Rattle.dcc_running.specs.Audited.{AreTrue, AreCovered, AreOrdered, AreOwn, IsFault};

use crate::audit::audit;
use crate::books::Books;
use crate::naming::Naming;
use crate::seat::Seat;
use crate::shards::Shards;
use dcc_receipts::CloseFault;
use dcc_store::Records;
use std::alloc::Global;

/// What `close` hands back where receipts and books disagree, or memory was short.
#[derive(Drop)]
pub struct Unclosed<R: Records, J: Naming> {
    pub fault: CloseFault,
    /// The shards; [`Books::into_locks`] puts them under locks again.
    pub books: Books<R, J>,
    pub seats: Vec<Seat>,
}

impl<R: Records, J: Naming> Shards<R, J> {
    /// Takes the shards out of their locks, once nobody is at work with them, and compares the receipts of all seats with what they hold.
    /// It waits for nobody.
    ///
    /// Errors, with all handed back, and each of the last three only where none before it holds: [`CloseFault::Memory`], a growth was refused;
    /// [`CloseFault::ReceiptStray`], a shard came out of another's lock, or isn't of these shards, a receipt isn't of these acts or tells another answer than
    /// its act came to, or a place has two fresh receipts; [`CloseFault::ActWithoutReceipt`], an act since opening has no fresh receipt;
    /// [`CloseFault::OutOfOrder`], a seat had a receipt after one of the same subscriber that comes later, those that audits took out of it among them.
    pub fn close(self, alloc: Global, seats: Vec<Seat>) -> Result<Books<R, J>, Unclosed<R, J>>
        ensures audited { IfOk result (λ books. AreTrue J.opening books seats.items × AreCovered J.opening books seats.items × AreOrdered books.sides seats.items × AreOwn books) }
        ensures terms { IfOk result (λ books. books.terms ≡ self.terms) }
        ensures identity { IfOk result (λ books. books.identity ≡ self.identity) }
        ensures count { IfOk result (λ books. length books.parts ≡ self.count) }
        // Each fault comes just where its test is the first that fails.
        ensures fault { IfErr result (λ u. IsFault u.fault J.opening u.books seats.items) }
        // All is handed back.
        ensures back { IfErr result (λ u. (u.books.terms ≡ self.terms) × (u.books.identity ≡ self.identity) × (length u.books.parts ≡ self.count)) }
        ensures seats { IfErr result (λ u. u.seats.items ≡ seats.items) }
    {
        let books = Books::of(self);
        match audit(alloc, &books, &seats) {
            Ok(()) => {
                // By a call: seats that are let go in place are proved part by part.
                drop(seats);
                Ok(books)
            }
            Err(fault) => Err(Unclosed {
                fault,
                books,
                seats,
            }),
        }
    }
}
