//! The run of a script.

ghost use Rattle.std.specs.Prelude.{◌≡◌, ◌≢◌, length, IfOk, IfErr, OnOk};
ghost use Rattle.std.specs.Io.KnownBytes.{Keeps};
ghost use Rattle.dcc_engine.specs.Engines.{EngineView};
ghost use Rattle.dcc_engine.specs.Isolation.{turns, IsRun};
ghost use Rattle.dcc_replay.specs.Replays.{IsNew, AreInOrder, IsWritten, IsBegun, IsReplayFault};
ghost use Rattle.dcc_replay.specs.declared.fault.ReplayFault.TheVariants.{Output};

use crate::fault::ReplayFault;
use crate::names::identity_of;
use crate::printing::printed;
use crate::script::read_script;
use dcc_engine::{Engine, Event, Out};
use dcc_shard::shards_in_memory;
use dcc_streams::{MOST_READS, read_all, write_all};
use dcc_tariff::Plan;
use std::alloc::{AllocError, Global};
use std::hash::RandomState;
use std::io::{Read, Write};

/// Reads a script, runs its events on a new engine under the plan, over as many shards in memory as the plan has, and writes the printed
/// form of the outs.
///
/// The whole script is read and run before anything is written. If the writer fails, a beginning of the text is written; with any other
/// fault nothing is written. A script that has not ended after 4,294,967,295 reads is a failure of input.
///
/// Faults: [`ReplayFault::Line`], a line of the script has none of the forms; [`ReplayFault::Memory`], memory was short;
/// [`ReplayFault::Input`], the script could not be read; [`ReplayFault::Output`], the output could not be written whole.
pub fn replay_run<R: Read, W: Write>(
    alloc: Global,
    plan: &Plan,
    input: &mut R,
    output: &mut W,
    hasher: RandomState,
) -> Result<(), ReplayFault>
    ensures whole { OnOk result (IsWritten plan.now (R.remaining input.old) (W.contents output.old) (W.contents output.new)) }
    ensures fault { IfErr result (IsReplayFault (R.remaining input.old)) }
    ensures silent { IfErr result (λ fault. fault ≢ Output → Keeps (W.contents output.old) (W.contents output.new)) }
    ensures part { IfErr result (λ fault. fault ≡ Output
        → IsBegun plan.now (R.remaining input.old) (W.contents output.old) (W.contents output.new)) }
{
    let text = read_all(alloc, input, MOST_READS)?;
    let events = read_script(alloc, text.as_slice())?;
    let outs = outs_of(alloc, plan, events.as_slice(), hasher)?;
    let written = printed(alloc, outs.as_slice())?;
    write_all(output, written.as_bytes())?;
    Ok(())
}

/// The outs of a run of a new engine under the plan. The only error is want of memory.
fn outs_of(
    alloc: Global,
    plan: &Plan,
    events: &[Event],
    hasher: RandomState,
) -> Result<Vec<Out>, AllocError>
    ensures { IfOk result (λ outs.
        (engine : EngineView) × IsNew plan.now engine × (length outs.items ≡ length events.now) × IsRun engine (turns events.now outs.items)
        × AreInOrder engine outs.items) }
{
    let identity = identity_of(alloc, plan)?;
    let own = plan.copy()?;
    let shards = shards_in_memory(alloc, plan.terms(), identity, plan.shards(), hasher)?;
    let mut engine = Engine::open(alloc, own, shards)?;
    let outs = engine.run(alloc, events);
    // By a call: an engine that is let go in place is proved part by part.
    drop(engine);
    outs
}
