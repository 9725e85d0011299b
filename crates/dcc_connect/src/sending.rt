//! Sending octets.

ghost use Rattle.std.specs.Prelude.{◌≡◌, ◌+◌, ◌*◌, ◌≤◌, ◌<◌, ◌^◌, length, take, MatchBool};
ghost use Rattle.std.specs.Io.KnownBytes.{Appends};
ghost use Rattle.dcc_connect.specs.inner.Sends.{WritesOnce, Sends};

use crate::fault::ConnectFault;
use crate::turns::MOST_CALLS;
use std::io::{ErrorKind, Write};

/// A writer is given at most so many octets in a call, so that the octets of all turns can be counted.
pub(crate) const MOST_AT_ONCE: usize = 65_536;

/// The number of turns that are left, and the number of octets that the writer took.
#[derive(Drop)]
pub(crate) struct Tally {
    pub left: u32,
    pub written: u64,
    ghost fits: { written + 65536 * left ≤ 2 ^ 48 },
}

impl Tally {
    /// All turns are left, and nothing is written.
    pub fn new(turns: u32) -> Tally
        ensures left { result.left ≡ turns }
        ensures written { result.written ≡ 0 }
    {
        Tally {
            left: turns,
            written: 0,
        }
    }

    /// Takes a turn, and returns whether a turn was left.
    pub fn spend(&mut self) -> bool
        ensures written { self.new.written ≡ self.old.written }
        ensures left { MatchBool result (self.old.left ≡ self.new.left + 1) ((self.old.left ≡ 0) × (self.new.left ≡ 0)) }
    {
        if self.left == 0 {
            return false;
        }
        self.left -= 1;
        true
    }

    /// One turn of the writer, which is given at least one octet: the number of octets that it took, at least 1. Errors:
    /// [`ConnectFault::TooManyTurns`], no turn was left; [`ConnectFault::Write`], the writer failed or took no octet.
    pub fn write<O: Write>(&mut self, output: &mut O, octets: &[u8]) -> Result<usize, ConnectFault>
        requires { 0 < length octets.now }
        ensures { WritesOnce result (O.contents output.old) (O.contents output.new) octets.now
            (record { left = self.old.left; written = self.old.written }) (record { left = self.new.left; written = self.new.written }) }
    {
        if self.left == 0 {
            return Err(ConnectFault::TooManyTurns);
        }
        let most = octets.len().min(MOST_AT_ONCE);
        let count = write_once(output, &octets[..most]);
        self.left -= 1;
        if count == 0 {
            return Err(ConnectFault::Write {
                written: self.written,
            });
        }
        self.written += count as u64;
        Ok(count)
    }
}

/// The number of octets that the writer took; 0 if it failed.
fn write_once<O: Write>(output: &mut O, octets: &[u8]) -> usize
    ensures bound { result ≤ length octets.now }
    ensures octets { Appends (O.contents output.old) (O.contents output.new) (take result octets.now) }
{
    for _ in 0..MOST_CALLS {
        match output.write(octets) {
            Ok(count) => return count,
            Err(error) => {
                if error.kind() != ErrorKind::Interrupted {
                    return 0;
                }
            }
        }
    }
    0
}

/// Writes octets until all of them went out, the writer fails, or no turn is left.
pub(crate) fn send<O: Write>(
    output: &mut O,
    octets: &[u8],
    tally: &mut Tally,
) -> Result<(), ConnectFault>
    ensures { Sends result (O.contents output.old) (O.contents output.new) octets.now
        (record { left = tally.old.left; written = tally.old.written }) (record { left = tally.new.left; written = tally.new.written }) }
{
    let mut at = 0;
    while at < octets.len() {
        at += tally.write(output, &octets[at..])?;
    }
    Ok(())
}
