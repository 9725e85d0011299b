//! The shards behind a port, and the server around it.

ghost use Rattle.std.specs.Prelude.{◌≡◌};

use dcc_running::{Naming, Seat, Shards};
use dcc_shard::Shard;
use dcc_store::Records;
use std::alloc::{AllocError, Global};
use std::sync::Wait;

/// The shards behind a port.
#[derive(Drop)]
pub(crate) struct Port<'a, R: Records, J: Naming> {
    pub shards: &'a Shards<R, J>,
    /// So many shards there are.
    pub count: usize,
    ghost counted: { count ≡ shards.now.count },
}

/// The reason for which a copy was not made.
#[derive(Clone, Copy)]
pub enum CopyFault {
    /// There is something of this name already.
    There,
    /// The system refused the folder or a file, or memory was short.
    Io,
}

/// The server around a port.
pub trait Server {
    ghost use Rattle.std.specs.Prelude.{IfOk};
    ghost use Rattle.dcc_port.specs.Servers.{Rules};

    /// Its relations: `specs/Servers.antt` says what each relates.
    ghost rules: { Rules Self };

    /// Tells the server to end: it takes no more gateways, and lets go of those that it has. It may wait, but not for the end.
    fn end<W: Wait>(&mut self, rt: &W)
        ensures { rules.ends self.old self.new };

    /// Whether the server is to end.
    fn is_ended(&self) -> bool
        ensures { rules.says_end self.now result };

    /// The text of the server's counters: whole lines in the format of Prometheus, version 0.0.4. The only error is want of memory.
    fn page(&self, alloc: Global) -> Result<Vec<u8>, AllocError>
        ensures { IfOk result (λ page. rules.pages self.now page.items) };

    /// Makes a folder for copies. The path is absolute, and of 1 to 1,024 characters of ASCII.
    ///
    /// Errors: [`CopyFault::There`], there is something of this name already; [`CopyFault::Io`], the system refuses the folder. Then there is no
    /// new folder.
    fn begin_copy(&mut self, folder: &[u8]) -> Result<(), CopyFault>
        ensures { rules.begins self.old folder.now result self.new };

    /// Copies the store of the shard with this index into the folder. The shard is lent under its lock: so no act is made in it meanwhile.
    ///
    /// Errors: [`CopyFault::There`], the file is there already; [`CopyFault::Io`], the system refuses the copy. A part of the file may stay.
    fn copy<R: Records>(
        &self,
        folder: &[u8],
        index: usize,
        shard: &Shard<R>,
    ) -> Result<(), CopyFault>
        ensures { rules.copies self.now folder.now index result };

    /// Hears of the receipts of a call, once its answer is known: those of the seat behind its first `before`. It may audit the seat
    /// ([`Shards::audit`]), and wait for the locks of the shards.
    fn audit<W: Wait, R: Records, J: Naming>(
        &self,
        rt: &W,
        alloc: Global,
        shards: &Shards<R, J>,
        seat: &mut Seat,
        before: usize,
    )
        ensures { rules.audits J.opening self.now seat.old before seat.new };
}
