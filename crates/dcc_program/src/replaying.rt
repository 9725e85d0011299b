//! `dcc replay PLAN`, over readers of the plan and of the script.

ghost use Rattle.std.specs.Prelude.{◌≡◌, ◌≢◌, ◌⊎◌, IfErr, OnOk};
ghost use Rattle.std.specs.Io.KnownBytes.{Keeps};
ghost use Rattle.dcc_program.specs.Replays.{IsReplay, IsReplayBegun, IsReplayFailure};
ghost use Rattle.dcc_program.specs.Runs.{IsBeforeScript};
ghost use Rattle.dcc_program.specs.declared.failure.Failure.TheVariants.{Io};

use crate::failure::Failure;
use crate::plan_file::plan_from;
use dcc_replay::replay_run;
use std::alloc::Global;
use std::hash::RandomState;
use std::io::{Read, Write};

/// Replays the script of the input under the plan that the file gives, and writes what is printed of it.
///
/// The plan is judged first, then the script, and both before anything is written. If the writer fails, a beginning is written.
pub fn replay<P: Read, R: Read, W: Write>(
    alloc: Global,
    file: &mut P,
    input: &mut R,
    output: &mut W,
    hasher: RandomState,
) -> Result<(), Failure>
    ensures whole { OnOk result (IsReplay (P.remaining file.old) (R.remaining input.old) (W.contents output.old) (W.contents output.new)) }
    ensures failure { IfErr result (IsReplayFailure (P.remaining file.old) (R.remaining input.old)) }
    ensures order { IfErr result (λ failure. IsBeforeScript failure → Keeps (R.remaining input.old) (R.remaining input.new)) }
    ensures silent { IfErr result (λ failure. failure ≢ Io → Keeps (W.contents output.old) (W.contents output.new)) }
    ensures part { IfErr result (λ failure. failure ≡ Io → Keeps (W.contents output.old) (W.contents output.new)
        ⊎ IsReplayBegun (P.remaining file.old) (R.remaining input.old) (W.contents output.old) (W.contents output.new)) }
{
    let plan = plan_from(alloc, file)?;
    replay_run(alloc, &plan, input, output, hasher)?;
    Ok(())
}
