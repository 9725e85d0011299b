//! The program's work, over any files, reader and writer.

ghost use Rattle.std.specs.Prelude.{◌≡◌, ◌≢◌, ◌⊎◌, None, map, string_bytes, IfErr, OnOk};
ghost use Rattle.std.specs.Io.KnownBytes.{Appends, Keeps};
ghost use Rattle.dcc_program.specs.CommandLines.{Asks};
ghost use Rattle.dcc_program.specs.Runs.{IsDone, IsBegun, IsBeforeScript, IsRunFailure, IsTextBegun};
ghost use Rattle.dcc_program.specs.Stores.{IsTopUp, IsTopUpBegun, IsPage, IsPageBegun, IsStoreFailure};
ghost use Rattle.dcc_program.specs.declared.command_line.Task.{Task};
ghost use Rattle.dcc_program.specs.declared.failure.Failure.TheVariants.{Io};

use crate::command_line::{Place, Task, task_of};
use crate::decoding::decode;
use crate::failure::Failure;
use crate::help::{HELP, VERSION};
use crate::replaying::replay;
use crate::storing::{page, top_up};
use dcc_act::Sub;
use dcc_operator::{Page, TopUpAsk};
use dcc_startup::Stores;
use dcc_streams::write_all;
use std::fs;
use std::hash::RandomState;
use std::io::{Read, Write};
use std::random::RandomSource;
use std::rt::Files;

/// Does what the words of a command line ask for: replays the script of the input under the plan of the file, makes a top-up or
/// prints a page over the stores, shows the messages of the input, or prints a text.
///
/// The words are judged first, then the plan, then the script or the store. A text is printed before anything is opened or read.
pub fn run<F: Files + RandomSource + AllocGlobal, S: Stores, R: Read, W: Write>(
    rt: &F,
    words: &[String],
    stores: &S,
    input: &mut R,
    output: &mut W,
) -> Result<(), Failure>
    ensures done { OnOk result ((task : Task) × Asks (map string_bytes words.now) task
        × IsDone (S.opens stores.now) S.Records.may_leave task (R.remaining input.old) (R.remaining input.new) (W.contents output.old) (W.contents output.new)) }
    ensures failure { IfErr result (IsRunFailure (map string_bytes words.now) (R.remaining input.old)) }
    ensures order { IfErr result (λ failure. IsBeforeScript failure → Keeps (R.remaining input.old) (R.remaining input.new)) }
    ensures silent { IfErr result (λ failure. failure ≢ Io → Keeps (W.contents output.old) (W.contents output.new)) }
    ensures part { IfErr result (λ failure. failure ≡ Io → Keeps (W.contents output.old) (W.contents output.new)
        ⊎ ((task : Task) × Asks (map string_bytes words.now) task
        × IsBegun task (R.remaining input.old) (W.contents output.old) (W.contents output.new))) }
{
    let task = match task_of(rt.alloc(), words) {
        Ok(task) => task,
        Err(failure) => return Err(failure),
    };
    match task {
        Task::Help => print_text(HELP, output),
        Task::Version => print_text(VERSION, output),
        Task::Replay(path) => {
            let hasher = RandomState::new(rt)?;
            let mut file = fs::open(rt, path)?;
            replay(rt.alloc(), &mut file, input, output, hasher)
        }
        Task::TopUp(place, ask) => top_up_at(rt, stores, place, ask, output),
        Task::Show(shown, place, sub) => page_at(rt, stores, shown, place, sub, output),
        Task::Decode => decode(rt.alloc(), input, output),
    }
}

/// Prints a text, whichever it is, so that no proof looks into a long one.
fn print_text<W: Write>(text: &str, output: &mut W) -> Result<(), Failure>
    ensures whole { OnOk result (Appends (W.contents output.old) (W.contents output.new) text.now) }
    ensures failure { IfErr result (λ failure. failure ≡ Io) }
    ensures part { IfErr result (λ _. IsTextBegun text.now (W.contents output.old) (W.contents output.new)) }
{
    match write_all(output, text.as_bytes()) {
        Ok(()) => Ok(()),
        Err(_) => Err(Failure::Io),
    }
}

/// Makes a top-up over the stores of a folder, under the plan of a file.
fn top_up_at<F: Files + RandomSource + AllocGlobal, S: Stores, W: Write>(
    rt: &F,
    stores: &S,
    place: Place<'_>,
    ask: TopUpAsk,
    output: &mut W,
) -> Result<(), Failure>
    ensures whole { OnOk result (IsTopUp (S.opens stores.now place.entry.folder.now) S.Records.may_leave None ask
        (W.contents output.old) (W.contents output.new)) }
    ensures failure { IfErr result (IsStoreFailure None) }
    ensures silent { IfErr result (λ failure. failure ≢ Io → Keeps (W.contents output.old) (W.contents output.new)) }
    ensures part { IfErr result (λ failure. failure ≡ Io → Keeps (W.contents output.old) (W.contents output.new)
        ⊎ IsTopUpBegun None ask (W.contents output.old) (W.contents output.new)) }
{
    let hasher = RandomState::new(rt)?;
    let mut file = fs::open(rt, place.plan)?;
    top_up(
        rt.alloc(),
        &mut file,
        stores,
        place.folder,
        ask,
        output,
        hasher,
    )
}

/// Prints a page from the stores of a folder, under the plan of a file.
fn page_at<F: Files + RandomSource + AllocGlobal, S: Stores, W: Write>(
    rt: &F,
    stores: &S,
    shown: Page,
    place: Place<'_>,
    sub: Sub,
    output: &mut W,
) -> Result<(), Failure>
    ensures whole { OnOk result (IsPage shown (S.opens stores.now place.entry.folder.now) S.Records.may_leave None sub
        (W.contents output.old) (W.contents output.new)) }
    ensures failure { IfErr result (IsStoreFailure None) }
    ensures silent { IfErr result (λ failure. failure ≢ Io → Keeps (W.contents output.old) (W.contents output.new)) }
    ensures part { IfErr result (λ failure. failure ≡ Io → Keeps (W.contents output.old) (W.contents output.new)
        ⊎ IsPageBegun shown None sub (W.contents output.old) (W.contents output.new)) }
{
    let hasher = RandomState::new(rt)?;
    let mut file = fs::open(rt, place.plan)?;
    page(
        rt.alloc(),
        &mut file,
        stores,
        place.folder,
        shown,
        sub,
        output,
        hasher,
    )
}
