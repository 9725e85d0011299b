//! A top-up.

ghost use Rattle.std.specs.Prelude.{◌≡◌, true, false, OnOk, IfErr};
ghost use Rattle.std.specs.Io.KnownBytes.{Appends};
ghost use Rattle.dcc_shard.specs.Answers.{IsTold, is_judged_top_up, top_up_act};
ghost use Rattle.dcc_shard.specs.Shards.{held, AreOwn, IsStep};
ghost use Rattle.dcc_store.specs.Stops.{LeavesOnly};
ghost use Rattle.dcc_operator.specs.TopUps.{line_of};
ghost use Rattle.dcc_operator.specs.Texts.{IsBegun};

use dcc_act::{Moment, Sub};
use dcc_shard::{Shard, TopUpAnswer};
use dcc_store::Records;
use dcc_streams::{WriteFault, write_all};
use std::alloc::Global;
use std::io::Write;

/// Makes a top-up, in minor units, and then writes in one word and a line feed what it was told: `done`, `ceiling`, `bad` or `refused`.
///
/// It gives what the top-up was told, and whether that was written. A writer that fails undoes nothing: the top-up stands.
pub fn top_up_run<R: Records, W: Write>(
    alloc: Global,
    shard: &mut Shard<R>,
    sub: Sub,
    moment: Moment,
    ticket: u64,
    amount: u64,
    output: &mut W,
) -> (TopUpAnswer, Result<(), WriteFault>)
    ensures answer { IsTold shard.old.shard sub moment ticket amount result.0 }
    ensures step { IsStep shard.old.shard shard.new.shard (is_judged_top_up result.0) sub (top_up_act moment ticket amount) }
    ensures own { AreOwn shard.new.shard }
    // What is told as done is in the records, and a stop leaves it.
    ensures left { R.is_stopped shard.new.records ≡ false
        → LeavesOnly shard.new.shard.terms (held shard.new.shard) (R.may_leave shard.new.records) }
    ensures going { is_judged_top_up result.0 ≡ true → R.is_stopped shard.new.records ≡ false }
    ensures word { OnOk result.1 (Appends (W.contents output.old) (W.contents output.new) (line_of result.0)) }
    ensures part { IfErr result.1 (λ _. IsBegun (line_of result.0) (W.contents output.old) (W.contents output.new)) }
{
    let answer = shard.top_up(alloc, sub, moment, ticket, amount);
    (answer, write_line(output, answer))
}

/// Writes the word for what a top-up was told, and a line feed.
fn write_line<W: Write>(output: &mut W, answer: TopUpAnswer) -> Result<(), WriteFault>
    ensures whole { OnOk result (Appends (W.contents output.old) (W.contents output.new) (line_of answer)) }
    ensures part { IfErr result (λ _. IsBegun (line_of answer) (W.contents output.old) (W.contents output.new)) }
{
    write_all(output, answer.word().as_bytes())?;
    write_all(output, b"\n")
}
