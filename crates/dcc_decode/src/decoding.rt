//! The run over a text: each line with a message as a tree, and the others as they are.

ghost use Rattle.std.specs.Prelude.{◌≡◌, ◌≢◌, ◌++◌, IfOk, IfErr, OnOk, ℕ, List};
ghost use Rattle.std.specs.Io.KnownBytes.{Keeps};
ghost use Rattle.dcc_decode.specs.Lines.{message_of};
ghost use Rattle.dcc_decode.specs.Decodings.{heading_of, IsShown, IsDecoded, IsWritten, IsBegun};
ghost use Rattle.dcc_decode.specs.declared.fault.DecodeFault.TheVariants.{Output};

use crate::fault::DecodeFault;
use crate::line::{cut_line, held_in};
use crate::message::decode_message;
use dcc_streams::{MOST_READS, read_all, write_all};
use std::alloc::{AllocError, Global};
use std::io::{Read, Write};

/// Reads a text to its end, and writes, for each of its lines in turn, what stands in front of the message in it as a line of
/// its own and then the message's tree (`decode_message`), or, where it holds none, the line as it is.
///
/// A line holds a message where its words, parted by single spaces, are hex digits of either case alone, or four of which the last is
/// hex digits and either the first is `message` or the second is `answer`. No octets are a fault. Where memory is short
/// nothing is written, and where the writer fails, a beginning. A text that has not ended after 4,294,967,295 reads is a
/// failure of input.
pub fn decode_run<R: Read, W: Write>(
    alloc: Global,
    input: &mut R,
    output: &mut W,
) -> Result<(), DecodeFault>
    ensures whole { OnOk result (IsWritten (R.remaining input.old) (W.contents output.old) (W.contents output.new)) }
    ensures silent { IfErr result (λ fault. fault ≢ Output → Keeps (W.contents output.old) (W.contents output.new)) }
    ensures part { IfErr result (λ fault. fault ≡ Output
        → IsBegun (R.remaining input.old) (W.contents output.old) (W.contents output.new)) }
{
    let text = read_all(alloc, input, MOST_READS)?;
    let decoded = decode_text(alloc, text.as_slice())?;
    write_all(output, decoded.as_slice())?;
    Ok(())
}

/// What is written of a text.
fn decode_text(alloc: Global, text: &[u8]) -> Result<Vec<u8>, AllocError>
    ensures { IfOk result (λ written. IsDecoded text.now written.items) }
{
    let mut written = Vec::new(alloc);
    let mut rest = text;
    while !rest.is_empty() {
        let cut = cut_line(rest);
        put_line(&mut written, alloc, cut.line)?;
        rest = cut.rest;
    }
    Ok(written)
}

/// Appends what is written of a line.
fn put_line(out: &mut Vec<u8>, alloc: Global, line: &[u8]) -> Result<(), AllocError>
    ensures { OnOk result ((piece : List ℕ) × (out.new.items ≡ out.old.items ++ piece) × IsShown line.now (message_of line.now) piece) }
{
    let Some(held) = held_in(alloc, line)? else {
        return out.extend_from_slice(line);
    };
    let tree = decode_message(alloc, held.octets.as_slice())?;
    put_heading(out, held.front)?;
    out.extend_from_slice(tree.as_bytes())
}

/// Appends what stands in front of a message as a line of its own; nothing where nothing does.
fn put_heading(out: &mut Vec<u8>, front: &[u8]) -> Result<(), AllocError>
    ensures { OnOk result (out.new.items ≡ out.old.items ++ heading_of front.now) }
{
    if front.is_empty() {
        return Ok(());
    }
    out.extend_from_slice(front)?;
    out.push(b'\n')?;
    Ok(())
}
