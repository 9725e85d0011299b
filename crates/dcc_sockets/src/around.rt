//! The server around an operator's port.

ghost use Rattle.dcc_port.specs.Servers.{Rules};
ghost use Rattle.dcc_running.specs.Audited.{IsAudited};

use crate::backing::Backing;
use crate::closing::Closing;
use crate::notices::NoticeLines;
use crate::trouble::{Trouble, tell};
use dcc_port::{CopyFault, Server};
use dcc_receipts::CloseFault;
use dcc_rounds::{Notices, count_receipts};
use dcc_running::{Naming, Seat, Shards};
use dcc_shard::Shard;
use dcc_startup::{self, Copies};
use dcc_store::Records;
use dcc_tariff::MAX_SHARDS;
use std::alloc::{AllocError, Global};
use std::io::Eprint;
use std::str;
use std::sync::Wait;
use std::time::Clock;

/// The most shards that a server has.
const MOST_SHARDS: usize = MAX_SHARDS as usize;

/// The server around the port, at the calls of one thread: its end, its counters and lines, and the stores of its shards.
#[derive(Drop)]
pub(crate) struct Around<'c, 'r, P: Eprint, W: Wait, K: Copies> {
    pub print: &'r P,
    pub lines: NoticeLines<'r, P>,
    pub rt: &'c W,
    pub closing: &'c Closing,
    pub backing: &'c Backing<'r, K>,
}

impl<P: Clock + Eprint, W: Wait, K: Copies> Server for Around<'_, '_, P, W, K> {
    // No clause says when a server that stays ends, what it counts, or what is in a copied file.
    ghost rules = { record {
      ends = λ _ _. Unit {0};
      says_end = λ _ _. Unit {0};
      pages = λ _ _. Unit {0};
      begins = λ _ _ _ _. Unit {0};
      copies = λ _ _ _ _. Unit {0};
      audits = λ opening _ before _ after. IsAudited opening before after;
    } };

    fn end<V: Wait>(&mut self, _rt: &V) {
        self.closing.tell();
    }

    fn is_ended(&self) -> bool {
        self.closing.is_told()
    }

    fn page(&self, alloc: Global) -> Result<Vec<u8>, AllocError> {
        self.backing.meters.page(self.rt, alloc)
    }

    fn begin_copy(&mut self, folder: &[u8]) -> Result<(), CopyFault> {
        let Ok(folder) = str::from_utf8(folder) else {
            return Err(CopyFault::Io);
        };
        match self.backing.stores.make_folder(folder) {
            Ok(()) => Ok(()),
            Err(fault) => Err(meaning_of(fault)),
        }
    }

    fn copy<R: Records>(
        &self,
        folder: &[u8],
        index: usize,
        _shard: &Shard<R>,
    ) -> Result<(), CopyFault> {
        let Ok(folder) = str::from_utf8(folder) else {
            return Err(CopyFault::Io);
        };
        match self.backing.stores.copy(self.backing.folder, index, folder) {
            Ok(()) => Ok(()),
            Err(fault) => Err(meaning_of(fault)),
        }
    }

    /// Counts the receipts of the call, and audits the seat: a shard's own audit passes over a subscriber of whom another seat has a call that isn't audited.
    fn audit<V: Wait, R: Records, J: Naming>(
        &self,
        rt: &V,
        alloc: Global,
        shards: &Shards<R, J>,
        seat: &mut Seat,
        before: usize,
    ) {
        let _all = count_receipts(&self.lines, shards, seat, before);
        self.audit_all(rt, alloc, shards, seat);
    }
}

impl<P: Clock + Eprint, W: Wait, K: Copies> Around<'_, '_, P, W, K> {
    /// Audits a seat, and counts the audit if it has receipts. A call without a receipt is looked at too. If receipts and books disagree, a line reports this once,
    /// and the server is to end. If memory was short, the receipts that were not compared stay for the next audit.
    pub(crate) fn audit_all<V: Wait, R: Records, J: Naming>(
        &self,
        rt: &V,
        alloc: Global,
        shards: &Shards<R, J>,
        seat: &mut Seat,
    )
        ensures { IsAudited J.opening seat.old seat.new }
    {
        if self.backing.meters.disagreements() > 0 {
            return;
        }
        let (receipts, begun) = (by_shards(shards, seat), self.lines.ticks());
        match shards.audit(rt, alloc, seat) {
            Ok(0) | Err(CloseFault::Memory) => {}
            Ok(_) => {
                let micros = self.lines.ticks().saturating_sub(begun);
                self.lines.audited_together(rt, &receipts, micros);
            }
            Err(fault) => {
                self.backing.meters.disagreed();
                tell(self.print, Trouble::Disagrees { fault });
                self.closing.tell();
            }
        }
    }
}

/// The numbers of a seat's receipts of each shard.
fn by_shards<R: Records, J: Naming>(shards: &Shards<R, J>, seat: &Seat) -> [usize; MOST_SHARDS] {
    let mut receipts = [0usize; MOST_SHARDS];
    for receipt in seat.receipts() {
        if let Some(of_shard) = receipts.get_mut(shards.index_of(&receipt.sub)) {
            *of_shard = of_shard.saturating_add(1);
        }
    }
    receipts
}

/// The fault of a copy, as the port names it.
fn meaning_of(fault: dcc_startup::CopyFault) -> CopyFault {
    match fault {
        dcc_startup::CopyFault::There => CopyFault::There,
        dcc_startup::CopyFault::Io => CopyFault::Io,
    }
}
