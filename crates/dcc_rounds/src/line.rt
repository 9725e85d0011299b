//! The line behind a round.

ghost use Rattle.std.specs.Prelude.{◌≡◌, ◌≢◌, ℕ, false, take, string_bytes, IfOk, IfErr, OnOk};
ghost use Rattle.std.specs.Io.KnownBytes.{Appends, Keeps};
ghost use Rattle.dcc_rounds.specs.Lines.{is_numbered, round_line};
ghost use Rattle.dcc_rounds.specs.declared.fault.ServeFault.TheVariants.{Io};

use crate::fault::ServeFault;
use dcc_streams::write_all;
use std::alloc::{AllocError, Global};
use std::io::Write;

/// The counts of a round.
#[derive(Clone, Copy, Debug, PartialEq, Eq)]
pub(crate) struct Counts {
    /// So many credit-control requests were handed to shards.
    pub requests: u64,
    /// So many answers went out whole.
    pub answers: u64,
    /// So many acts were made.
    pub acts: u64,
}

/// Writes the line of a round. If memory is short, it fails and writes nothing. If the writer fails, it fails too, and a beginning of the
/// line is written.
pub(crate) fn write_line<P: Write>(
    alloc: Global,
    round: u32,
    counts: Counts,
    output: &mut P,
) -> Result<(), ServeFault>
    ensures whole { OnOk result (Appends (P.contents output.old) (P.contents output.new) (round_line round counts)) }
    ensures silent { IfErr result (λ fault. fault ≢ Io → Keeps (P.contents output.old) (P.contents output.new)) }
    ensures part { IfErr result (λ fault. fault ≡ Io
        → (n : ℕ) × Appends (P.contents output.old) (P.contents output.new) (take n (round_line round counts))) }
    ensures fault { IfErr result (λ fault. is_numbered fault ≡ false) }
{
    let line = line_of(alloc, round, counts)?;
    write_all(output, line.as_bytes())?;
    Ok(())
}

/// The line of a round. The only error is want of memory.
fn line_of(alloc: Global, round: u32, counts: Counts) -> Result<String, AllocError>
    ensures { IfOk result (λ line. string_bytes line ≡ round_line round counts) }
{
    let line = format!(in alloc;
        "round {} requests {} answers {} acts {}\n",
        round, counts.requests, counts.answers, counts.acts
    )?;
    Ok(line)
}
