//! Seats.

ghost use Rattle.std.specs.Prelude.{◌≡◌, ◌++◌, ◌∷◌, ◌<◌, ◌≤◌, ◌+◌, [], IfOk, OnOk, OnErr};

use crate::room::Spare;
use dcc_act::Sub;
use dcc_receipts::Receipt;
use std::alloc::{AllocError, Global};
use std::marker::Model;

/// What one caller was told: a receipt of each call that gave one, in the order of the calls.
#[derive(Debug, Drop)]
pub struct Seat {
    pub(crate) receipts: Vec<Receipt>,
    /// The subscribers of the calls since its last audit that may have made acts: a call may stand here without a receipt, and none is missing.
    pub(crate) touched: Vec<Sub>,
    /// Its index in the list of seats that `close` gets.
    pub(crate) number: usize,
    /// Rooms for copies of answers, where memory for them is refused: none before the first call, and one fewer for each that was used up.
    pub(crate) spares: Vec<Spare>,
}

impl Model for Seat {
    ghost use Rattle.std.specs.Prelude.{List};
    ghost use Rattle.dcc_receipts.specs.declared.receipt.Receipt.{Receipt};

    ghost Value = { List Receipt };

    ghost view = { λ s. s.receipts.items };
}

/// How many receipts a seat has, and how many calls stand there.
#[derive(Clone, Copy)]
pub(crate) struct Filling {
    pub receipts: usize,
    pub touched: usize,
}

/// For how many receipts there is room at first.
const ROOM: usize = 64;

impl Seat {
    /// A seat without receipts. The only error is want of memory.
    pub(crate) fn new(alloc: Global, number: usize) -> Result<Seat, AllocError>
        ensures { IfOk result (λ seat. seat ≡ []) }
    {
        Ok(Seat {
            receipts: Vec::with_capacity(alloc, ROOM)?,
            touched: Vec::new(alloc),
            number,
            spares: Vec::new(alloc),
        })
    }

    /// The receipts, in the order of the calls. It takes no memory.
    pub fn receipts(&self) -> &[Receipt]
        ensures { result.now ≡ self.now }
    {
        &self.receipts
    }

    /// How many receipts and calls it has.
    pub(crate) fn filling(&self) -> Filling {
        Filling {
            receipts: self.receipts.len(),
            touched: self.touched.len(),
        }
    }
}
