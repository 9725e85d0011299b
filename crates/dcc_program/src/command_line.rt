//! The task or the server that a command line asks for.

ghost use Rattle.std.specs.Prelude.{◌≡◌, ◌⊎◌, codes, None, Some, true, IfErr, IfOk, IfSome, map, option_map, string_bytes, List};
ghost use Rattle.clap.specs.Words.{App, Row, app_of, first_of, found_of, rows_of, subcommand_rows_of, with_rule, with_subcommand};
ghost use Rattle.dcc_program.specs.CommandLines.{dcc_command, replay_command, topup_command, store_command, listening_command, rounds_command, serve_command, argument, flag, option, name_of, page_name, wish_of, Asks, AsksWith, IsTaskOf, IsTaskFailure};
ghost use Rattle.dcc_program.specs.CommandLines.{IsPlace, IsAsk, sub_in, number_in, moment_in};
ghost use Rattle.dcc_program.specs.declared.failure.Failure.TheVariants.{Memory, Usage};

use crate::failure::Failure;
use crate::help::VERSION;
use clap::error::ErrorKind;
use clap::{Arg, ArgAction, ArgMatches, Command};
use dcc_act::{Moment, Sub};
use dcc_operator::{Page, TopUpAsk};
use dcc_rounds::Rounds;
use dcc_sockets::Silence;
use dcc_words::{any_u64, moment};
use std::alloc::{AllocError, Global};
use std::net::{Ipv4Addr, SocketAddrV4};
use std::rt::Env;
use std::{env, io};

/// Where a command finds the plan's file, and the folder with the stores of the shards.
#[derive(Clone, Copy)]
pub struct Place<'a> {
    pub plan: &'a str,
    pub folder: &'a str,
}

/// The task that a command line asks for.
#[derive(Clone, Copy)]
pub enum Task<'a> {
    /// To replay a script under the plan of the file at this path.
    Replay(&'a str),
    /// To make a top-up in the store of its subscriber's shard.
    TopUp(Place<'a>, TopUpAsk),
    /// To print a page of a subscriber from that store.
    Show(Page, Place<'a>, Sub),
    /// To show the messages of a text.
    Decode,
    /// To print what the command lines are.
    Help,
    /// To print the version.
    Version,
}

/// The top-ups of a file that are asked for.
#[derive(Clone, Copy)]
pub struct TopUpsAsk<'a> {
    pub place: Place<'a>,
    /// The path of the file, or `-` for the standard input.
    pub from: &'a str,
}

/// The server that is asked for.
#[derive(Drop)]
pub struct ServeAsk<'a> {
    pub place: Place<'a>,
    /// Where it listens.
    pub address: SocketAddrV4,
    pub rounds: Rounds,
    /// How long a gateway may be silent.
    pub silence: Silence,
    /// The seconds that pass between two sweeps of a server that stays. The number 0 asks for no sweep.
    pub sweep: Option<u64>,
    /// Where operators call a server that stays: an address of this machine alone.
    pub operator: Option<SocketAddrV4>,
    /// Whether stores are opened that have fewer acts than they had.
    pub accepts_loss: bool,
}

/// A server that stays drops a gateway that is silent for so many seconds, if the words say nothing else.
const SILENT_SECONDS: u64 = 60;

/// A server that stays sweeps after so many seconds, if the words say nothing else.
const SWEEP_SECONDS: u64 = 60;

/// So many operators are served at once.
const OPERATORS: usize = 4;

/// So many seconds at most pass between two sweeps: a day.
const MOST_SWEEP_SECONDS: u64 = 86_400;

/// The words of the command line. A word that is no text is none of the program's.
pub fn given_words<E: Env + AllocGlobal>(rt: &E) -> Result<Vec<String>, Failure>
    ensures { IfErr result (λ failure. (failure ≡ Memory) ⊎ (failure ≡ Usage)) }
{
    match env::args(rt) {
        Ok(words) => Ok(words.collect(rt.alloc())?),
        Err(error) if error.kind() == io::ErrorKind::OutOfMemory => Err(Failure::Memory),
        Err(_) => Err(Failure::Usage),
    }
}

/// The task that the words of a command line ask for. The first word is the program's name. Words that ask for nothing are a failure of usage.
pub fn task_of<'a>(alloc: Global, words: &'a [String]) -> Result<Task<'a>, Failure>
    ensures task { IfOk result (Asks (map string_bytes words.now)) }
    ensures failure { IfErr result (IsTaskFailure (map string_bytes words.now)) }
{
    let matches = match command(alloc)?.try_get_matches_from(words) {
        Ok(matches) => matches,
        Err(error) => return wish_of(error.kind()),
    };
    let task = task_in(&matches);
    // By a call: words that are let go in place are proved part by part.
    drop(matches);
    match task {
        Some(task) => Ok(task),
        None => Err(Failure::Usage),
    }
}

/// The task that the words ask for, as they were read.
fn task_in<'a>(matches: &ArgMatches<'a>) -> Option<Task<'a>>
    ensures some { IfSome result (λ task. (found : List Row) × (subcommand_rows_of matches.now ≡ Some (name_of task, found)) × AsksWith found task) }
    ensures none { result ≡ None → (task : Task) (found : List Row) → subcommand_rows_of matches.now ≡ Some (name_of task, found)
        → AsksWith found task → ⊥ }
{
    let (name, found) = matches.subcommand()?;
    task_named(name, found)
}

/// The server that the words of a command line ask for. None if they ask for something else, which [`task_of`] judges.
pub fn serve_of<'a>(alloc: Global, words: &'a [String]) -> Result<Option<ServeAsk<'a>>, Failure> {
    let matches = match command(alloc)?.try_get_matches_from(words) {
        Ok(matches) => matches,
        Err(error) => {
            return match error.kind() {
                ErrorKind::OutOfMemory => Err(Failure::Memory),
                _ => Ok(None),
            };
        }
    };
    let ask = serve_ask_in(&matches);
    // By a call: words that are let go in place are proved part by part.
    drop(matches);
    ask
}

/// The file of top-ups that the words of a command line name. None if they ask for something else, which [`task_of`] judges.
pub fn top_ups_of<'a>(
    alloc: Global,
    words: &'a [String],
) -> Result<Option<TopUpsAsk<'a>>, Failure> {
    let matches = match from_command(alloc)?.try_get_matches_from(words) {
        Ok(matches) => matches,
        Err(error) => {
            return match error.kind() {
                ErrorKind::OutOfMemory => Err(Failure::Memory),
                _ => Ok(None),
            };
        }
    };
    let ask = top_ups_in(&matches);
    // By a call: words that are let go in place are proved part by part.
    drop(matches);
    Ok(ask)
}

/// The file of top-ups that the words name, as they were read.
fn top_ups_in<'a>(matches: &ArgMatches<'a>) -> Option<TopUpsAsk<'a>> {
    let (_name, found) = matches.subcommand()?;
    Some(TopUpsAsk {
        place: place_of(found)?,
        from: text_of(found, "from")?,
    })
}

/// The program with the one command that names a file of top-ups.
fn from_command<'a>(alloc: Global) -> Result<Command<'a>, AllocError> {
    let program = Command::new(alloc, "dcc")
        .subcommand_required(true)
        .disable_help_subcommand(true);
    with_command(program, top_ups_command(alloc))
}

/// The command of a file of top-ups.
fn top_ups_command<'a>(alloc: Global) -> Result<Command<'a>, AllocError> {
    let with_plan = with_argument(alloc, Command::new(alloc, "topup"), "PLAN")?;
    let with_folder = with_argument(alloc, with_plan, "DIR")?;
    with_option(alloc, with_folder, "from")
}

/// The server that the words ask for, as they were read.
fn serve_ask_in<'a>(matches: &ArgMatches<'a>) -> Result<Option<ServeAsk<'a>>, Failure> {
    match matches.subcommand() {
        Some(("serve", found)) => match serve_ask_of(found) {
            Some(ask) => Ok(Some(ask)),
            None => Err(Failure::Usage),
        },
        _ => Ok(None),
    }
}

/// The server with its options. None if an option isn't in its range or doesn't go with another.
fn serve_ask_of<'a>(found: &ArgMatches<'a>) -> Option<ServeAsk<'a>> {
    let stays = found.get_flag("stay");
    let silent = option_of(found, "silent", if stays { SILENT_SECONDS } else { 0 })?;
    let rounds = if stays {
        places_of(found)?
    } else {
        rounds_of(found)?
    };
    let sweep = if stays { Some(sweep_of(found)?) } else { None };
    let operator = operator_of(found)?;
    if !stays && (text_of(found, "sweep").is_some() || operator.is_some()) {
        return None;
    }
    Some(ServeAsk {
        place: place_of(found)?,
        address: address_of(found)?,
        rounds,
        silence: Silence::new(silent)?,
        sweep,
        operator,
        accepts_loss: found.get_flag("accept-loss"),
    })
}

/// The rounds of a server.
fn rounds_of(found: &ArgMatches<'_>) -> Option<Rounds> {
    let gates = usize::try_from(option_of(found, "gates", 1)?).ok()?;
    let rounds = u32::try_from(option_of(found, "rounds", 1)?).ok()?;
    let every = u32::try_from(option_of(found, "every", 0)?).ok()?;
    Rounds::new(gates, rounds, every)
}

/// The places of a server that stays, which has no rounds.
fn places_of(found: &ArgMatches<'_>) -> Option<Rounds> {
    if text_of(found, "rounds").is_some() {
        return None;
    }
    let gates = usize::try_from(option_of(found, "gates", 1)?).ok()?;
    let every = u32::try_from(option_of(found, "every", 0)?).ok()?;
    let operators = if text_of(found, "operator").is_some() {
        OPERATORS
    } else {
        0
    };
    Rounds::staying(gates, every, operators)
}

/// The seconds between two sweeps of a server that stays.
fn sweep_of(found: &ArgMatches<'_>) -> Option<u64> {
    let seconds = option_of(found, "sweep", SWEEP_SECONDS)?;
    if seconds > MOST_SWEEP_SECONDS {
        return None;
    }
    Some(seconds)
}

/// The number that stands for an option, or `default` if the option isn't there.
fn option_of(found: &ArgMatches<'_>, name: &str, default: u64) -> Option<u64> {
    match text_of(found, name) {
        Some(text) => any_u64(text.as_bytes()),
        None => Some(default),
    }
}

/// The address to listen at: the port of Diameter on this machine alone, if the words say nothing else.
fn address_of(found: &ArgMatches<'_>) -> Option<SocketAddrV4> {
    match text_of(found, "listen") {
        Some(text) => SocketAddrV4::parse_ascii(text.as_bytes()).ok(),
        None => Some(SocketAddrV4::new(Ipv4Addr::LOCALHOST, 3868)),
    }
}

/// The address at which operators call the server, if the words name one. None if they name no address that is this machine's alone.
fn operator_of(found: &ArgMatches<'_>) -> Option<Option<SocketAddrV4>> {
    let Some(text) = text_of(found, "operator") else {
        return Some(None);
    };
    let address = SocketAddrV4::parse_ascii(text.as_bytes()).ok()?;
    if !address.ip().is_loopback() {
        return None;
    }
    Some(Some(address))
}

/// The task that a command asks for with the arguments that were found.
fn task_named<'a>(name: &str, found: &ArgMatches<'a>) -> Option<Task<'a>>
    ensures { IsTaskOf name.now (rows_of (found_of found.now)) result }
{
    match name {
        "replay" => replay_of(found),
        "topup" => top_up_of(found),
        "ledger" => page_of(Page::Ledger, found),
        "balance" => page_of(Page::Balance, found),
        "decode" => Some(Task::Decode),
        "help" => Some(Task::Help),
        _ => None,
    }
}

/// The replay.
fn replay_of<'a>(found: &ArgMatches<'a>) -> Option<Task<'a>>
    ensures { IsTaskOf (codes "replay") (rows_of (found_of found.now)) result }
{
    Some(Task::Replay(text_of(found, "PLAN")?))
}

/// The top-up in a store.
fn top_up_of<'a>(found: &ArgMatches<'a>) -> Option<Task<'a>>
    ensures { IsTaskOf (codes "topup") (rows_of (found_of found.now)) result }
{
    Some(Task::TopUp(place_of(found)?, ask_of(found)?))
}

/// The page from a store.
fn page_of<'a>(page: Page, found: &ArgMatches<'a>) -> Option<Task<'a>>
    ensures { IsTaskOf (page_name page) (rows_of (found_of found.now)) result }
{
    Some(Task::Show(page, place_of(found)?, sub_of(found)?))
}

/// Where the plan and the folder are.
fn place_of<'a>(found: &ArgMatches<'a>) -> Option<Place<'a>>
    ensures some { IfSome result (IsPlace (rows_of (found_of found.now))) }
    ensures none { result ≡ None → (place : Place) → IsPlace (rows_of (found_of found.now)) place → ⊥ }
{
    Some(Place {
        plan: text_of(found, "PLAN")?,
        folder: text_of(found, "DIR")?,
    })
}

/// The top-up.
fn ask_of(found: &ArgMatches<'_>) -> Option<TopUpAsk>
    ensures some { IfSome result (IsAsk (rows_of (found_of found.now))) }
    ensures none { result ≡ None → (ask : TopUpAsk) → IsAsk (rows_of (found_of found.now)) ask → ⊥ }
{
    Some(TopUpAsk {
        sub: sub_of(found)?,
        ticket: number_of(found, "TICKET")?,
        amount: number_of(found, "AMOUNT")?,
        moment: moment_of(found)?,
    })
}

/// The subscriber.
pub(crate) fn sub_of(found: &ArgMatches<'_>) -> Option<Sub>
    ensures { result ≡ sub_in (rows_of (found_of found.now)) }
{
    dcc_words::sub(text_of(found, "SUB")?.as_bytes())
}

/// A number.
pub(crate) fn number_of(found: &ArgMatches<'_>, name: &str) -> Option<u64>
    ensures { result ≡ number_in name.now (rows_of (found_of found.now)) }
{
    any_u64(text_of(found, name)?.as_bytes())
}

/// The moment.
fn moment_of(found: &ArgMatches<'_>) -> Option<Moment>
    ensures { result ≡ moment_in (rows_of (found_of found.now)) }
{
    moment(text_of(found, "MOMENT")?.as_bytes())
}

/// The text that stands for an argument.
pub(crate) fn text_of<'a>(found: &ArgMatches<'a>, name: &str) -> Option<&'a str>
    ensures { option_map (λ text. text.now) result ≡ first_of name.now (rows_of (found_of found.now)) }
{
    found.get_str(name)
}

/// The task that the words ask for, if the reader of command lines refuses them. Words ask for help and for the version in this way.
fn wish_of<'a>(kind: ErrorKind) -> Result<Task<'a>, Failure>
    ensures { result ≡ wish_of kind }
{
    match kind {
        ErrorKind::DisplayHelp => Ok(Task::Help),
        ErrorKind::DisplayVersion => Ok(Task::Version),
        ErrorKind::OutOfMemory => Err(Failure::Memory),
        _ => Err(Failure::Usage),
    }
}

/// The program with its commands and their arguments. `decode` has none, nor has `help`, which is a command of its own.
fn command<'a>(alloc: Global) -> Result<Command<'a>, AllocError>
    ensures { IfOk result (λ command. app_of command ≡ dcc_command) }
{
    let program = Command::new(alloc, "dcc")
        .version(VERSION)
        .subcommand_required(true)
        .disable_help_subcommand(true);
    let with_replay = with_command(program, replay_command(alloc))?;
    let with_topup = with_command(with_replay, topup_command(alloc))?;
    let with_ledger = with_command(with_topup, store_command(alloc, "ledger"))?;
    let with_balance = with_command(with_ledger, store_command(alloc, "balance"))?;
    let with_serve = with_command(with_balance, serve_command(alloc))?;
    let with_decode = with_command(with_serve, Ok(Command::new(alloc, "decode")))?;
    with_command(with_decode, Ok(Command::new(alloc, "help")))
}

/// The program with one more command, if that could be made.
pub(crate) fn with_command<'a>(
    program: Command<'a>,
    made: Result<Command<'a>, AllocError>,
) -> Result<Command<'a>, AllocError>
    ensures { IfOk result (λ given. (app : App) → IfOk made.entry (λ command. app_of command ≡ app) → app.top.is_plain ≡ true
        → app_of given ≡ with_subcommand (app_of program.entry) app.top) }
{
    match made {
        Ok(command) => program.subcommand(command),
        Err(error) => {
            // By a call: a command that is let go in place is proved part by part.
            drop(program);
            Err(error)
        }
    }
}

/// The command of a replay.
fn replay_command<'a>(alloc: Global) -> Result<Command<'a>, AllocError>
    ensures { IfOk result (λ command. app_of command ≡ replay_command) }
{
    with_argument(alloc, Command::new(alloc, "replay"), "PLAN")
}

/// The command of a server, with its options.
fn serve_command<'a>(alloc: Global) -> Result<Command<'a>, AllocError>
    ensures { IfOk result (λ command. app_of command ≡ serve_command) }
{
    let with_stay = with_flag(alloc, rounds_command(alloc)?, "stay")?;
    let with_sweep = with_option(alloc, with_stay, "sweep")?;
    let with_operator = with_option(alloc, with_sweep, "operator")?;
    with_flag(alloc, with_operator, "accept-loss")
}

/// The command of a server, with the options of its rounds.
fn rounds_command<'a>(alloc: Global) -> Result<Command<'a>, AllocError>
    ensures { IfOk result (λ command. app_of command ≡ rounds_command) }
{
    let with_gates = with_option(alloc, listening_command(alloc)?, "gates")?;
    let with_rounds = with_option(alloc, with_gates, "rounds")?;
    let with_every = with_option(alloc, with_rounds, "every")?;
    with_option(alloc, with_every, "silent")
}

/// The command of a server: where its plan and its stores are, and where it listens.
fn listening_command<'a>(alloc: Global) -> Result<Command<'a>, AllocError>
    ensures { IfOk result (λ command. app_of command ≡ listening_command) }
{
    let with_plan = with_argument(alloc, Command::new(alloc, "serve"), "PLAN")?;
    let with_folder = with_argument(alloc, with_plan, "DIR")?;
    with_option(alloc, with_folder, "listen")
}

/// A command with the arguments of a top-up behind those by which its subscriber's store is found.
fn topup_command<'a>(alloc: Global) -> Result<Command<'a>, AllocError>
    ensures { IfOk result (λ command. app_of command ≡ topup_command) }
{
    let with_ticket = with_argument(alloc, store_command(alloc, "topup")?, "TICKET")?;
    let with_amount = with_argument(alloc, with_ticket, "AMOUNT")?;
    with_argument(alloc, with_amount, "MOMENT")
}

/// A command of this name with the arguments by which a subscriber's store is found.
fn store_command<'a>(alloc: Global, name: &'a str) -> Result<Command<'a>, AllocError>
    ensures { IfOk result (λ command. app_of command ≡ store_command name.now) }
{
    let with_plan = with_argument(alloc, Command::new(alloc, name), "PLAN")?;
    let with_folder = with_argument(alloc, with_plan, "DIR")?;
    with_argument(alloc, with_folder, "SUB")
}

/// A command with one more argument, that has to be there, by its place.
pub(crate) fn with_argument<'a>(
    alloc: Global,
    command: Command<'a>,
    name: &'a str,
) -> Result<Command<'a>, AllocError>
    ensures { IfOk result (λ given. app_of given ≡ with_rule (app_of command.entry) (argument name.now)) }
{
    let argument = Arg::new(alloc, name).required(true).action(ArgAction::Set);
    command.arg(argument)
}

/// A command with one more option, which takes a value.
pub(crate) fn with_option<'a>(
    alloc: Global,
    command: Command<'a>,
    name: &'a str,
) -> Result<Command<'a>, AllocError>
    ensures { IfOk result (λ given. app_of given ≡ with_rule (app_of command.entry) (option name.now)) }
{
    let option = Arg::new(alloc, name).long(name).action(ArgAction::Set);
    command.arg(option)
}

/// A command with one more option, which takes no value.
fn with_flag<'a>(
    alloc: Global,
    command: Command<'a>,
    name: &'a str,
) -> Result<Command<'a>, AllocError>
    ensures { IfOk result (λ given. app_of given ≡ with_rule (app_of command.entry) (flag name.now)) }
{
    let flag = Arg::new(alloc, name).long(name).action(ArgAction::SetTrue);
    command.arg(flag)
}
