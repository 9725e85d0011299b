//! The explanation of a command line.

ghost use Rattle.std.specs.Prelude.{◌<◌};

use crate::kind::Kind;
use crate::text::quoted;
use dcc_words::any_u64;
use std::alloc::{AllocError, Global};
use std::net::SocketAddrV4;

/// The commands of the program.
#[derive(Clone, Copy, PartialEq, Eq)]
enum Command {
    Balance,
    Check,
    Decode,
    Help,
    Ledger,
    Replay,
    Serve,
    TopUp,
}

/// The options that have a value: those of a server, the file of top-ups, and the address of a server that is called.
#[derive(Clone, Copy, PartialEq, Eq)]
enum Switch {
    At,
    From,
    Listen,
    Gates,
    Rounds,
    Every,
    Silent,
    Sweep,
    Operator,
}

impl Command {
    fn named(name: &str) -> Option<Command> {
        match name {
            "balance" => Some(Command::Balance),
            "check" => Some(Command::Check),
            "decode" => Some(Command::Decode),
            "help" => Some(Command::Help),
            "ledger" => Some(Command::Ledger),
            "replay" => Some(Command::Replay),
            "serve" => Some(Command::Serve),
            "topup" => Some(Command::TopUp),
            _ => None,
        }
    }

    /// So many arguments have to be there.
    fn needs(self) -> usize {
        match self {
            Command::Decode | Command::Help => 0,
            Command::Check | Command::Replay => 1,
            Command::Serve => 2,
            Command::Balance | Command::Ledger => 3,
            Command::TopUp => 5,
        }
    }

    /// The name of the argument at a place, from 0.
    fn argument(self, at: usize) -> Option<&'static str> {
        match (self, at) {
            (Command::Decode, _) => None,
            (Command::Help, 0) => Some("COMMAND"),
            (Command::Help, _) => None,
            (_, 0) => Some("PLAN"),
            (Command::Replay, _) => None,
            (_, 1) => Some("DIR"),
            (Command::Balance | Command::Ledger | Command::TopUp, 2) => Some("SUB"),
            (Command::TopUp, 3) => Some("TICKET"),
            (Command::TopUp, 4) => Some("AMOUNT"),
            (Command::TopUp, 5) => Some("MOMENT"),
            _ => None,
        }
    }

    /// What it is read as, if not any word is.
    fn kind(self, at: usize) -> Option<Kind> {
        match (self, at) {
            (Command::Balance | Command::Ledger | Command::TopUp, 2) => Some(Kind::Sub),
            (Command::TopUp, 3) => Some(Kind::Number),
            (Command::TopUp, 4) => Some(Kind::Amount),
            (Command::TopUp, 5) => Some(Kind::Moment),
            _ => None,
        }
    }
}

impl Switch {
    fn named(name: &str) -> Option<Switch> {
        match name {
            "--at" => Some(Switch::At),
            "--from" => Some(Switch::From),
            "--listen" => Some(Switch::Listen),
            "--gates" => Some(Switch::Gates),
            "--rounds" => Some(Switch::Rounds),
            "--every" => Some(Switch::Every),
            "--silent" => Some(Switch::Silent),
            "--sweep" => Some(Switch::Sweep),
            "--operator" => Some(Switch::Operator),
            _ => None,
        }
    }

    fn name(self) -> &'static str {
        match self {
            Switch::At => "--at",
            Switch::From => "--from",
            Switch::Listen => "--listen",
            Switch::Gates => "--gates",
            Switch::Rounds => "--rounds",
            Switch::Every => "--every",
            Switch::Silent => "--silent",
            Switch::Sweep => "--sweep",
            Switch::Operator => "--operator",
        }
    }

    /// Whether a value is one of the option, of a server that stays or not.
    fn fits(self, value: &str, stays: bool) -> bool {
        match self {
            Switch::From => true,
            Switch::Listen => SocketAddrV4::parse_ascii(value.as_bytes()).is_ok(),
            Switch::Gates => is_within(value, 1, most_gates(stays)),
            Switch::Rounds => is_within(value, 1, 1_000_000),
            Switch::Every => is_within(value, 0, 1_000_000),
            Switch::Silent | Switch::Sweep => is_within(value, 0, 86_400),
            Switch::Operator | Switch::At => is_of_this_machine(value),
        }
    }

    fn wanted(self, stays: bool) -> &'static str {
        match self {
            Switch::From => "a file of top-ups, or - for standard input",
            Switch::Listen => "an IPv4 address and a port, such as 127.0.0.1:3868",
            Switch::Gates => { if stays { "1 to 256" } else { "1 to 16" } }
            Switch::Rounds => "1 to 1000000",
            Switch::Every => "0 to 1000000",
            Switch::Silent | Switch::Sweep => "0 to 86400",
            Switch::Operator | Switch::At =>
                "an address of 127.0.0.0/8 and a port, such as 127.0.0.1:3869",
        }
    }

    /// Its place among all options.
    fn place(self) -> usize
        ensures { result < 9 }
    {
        match self {
            Switch::Listen => 0,
            Switch::Gates => 1,
            Switch::Rounds => 2,
            Switch::Every => 3,
            Switch::Silent => 4,
            Switch::Sweep => 5,
            Switch::Operator => 6,
            Switch::From => 7,
            Switch::At => 8,
        }
    }

    /// Whether it is an option of this command.
    fn is_of(self, command: Command) -> bool {
        match self {
            Switch::From => command == Command::TopUp,
            Switch::At => matches!(command, Command::Balance | Command::Ledger | Command::TopUp),
            _ => command == Command::Serve,
        }
    }

    /// Why the option doesn't go with the others, if it doesn't.
    fn quarrel(self, stays: bool) -> Option<&'static str> {
        match self {
            Switch::Rounds if stays => Some("--rounds does not go with --stay"),
            Switch::Sweep if !stays => Some("--sweep goes with --stay alone"),
            Switch::Operator if !stays => Some("--operator goes with --stay alone"),
            _ => None,
        }
    }
}

/// So many arguments have to be there beside `--from`.
const NEEDS_OF_MANY: usize = 2;

/// The place of `--stay` among all options, behind those that have a value.
const STAY: usize = 9;

/// The place of `--accept-loss`, the last one.
const ACCEPT_LOSS: usize = 10;

/// Whether a text is an address that no other machine can reach, with a port.
fn is_of_this_machine(text: &str) -> bool {
    match SocketAddrV4::parse_ascii(text.as_bytes()) {
        Ok(address) => address.ip().is_loopback(),
        Err(_) => false,
    }
}

/// Whether a text is a number from the low to the high limit.
fn is_within(text: &str, low: u64, high: u64) -> bool {
    match any_u64(text.as_bytes()) {
        Some(number) => low <= number && number <= high,
        None => false,
    }
}

/// So many gateways are served at once at most.
fn most_gates(stays: bool) -> u64 {
    if stays { 256 } else { 16 }
}

/// The words of a command line, as far as they were read.
#[derive(Drop)]
struct Reading {
    command: Command,
    /// So many arguments were there.
    count: usize,
    /// Whether `--` was there, behind which each word is an argument.
    is_rest: bool,
    /// The option whose value comes next.
    awaited: Option<Switch>,
    /// Whether `--stay` is among the words.
    stays: bool,
    /// Whether `--from` is among the words of a top-up, which then have PLAN and DIR alone.
    is_many: bool,
    /// Whether `--at` is among the words, which then have no PLAN and no DIR.
    is_at: bool,
    /// Whether each option was there, by its place.
    seen: [bool; 11],
}

/// What doesn't fit in the words of a command line, of which the first is the program's name: in one line the first word that is at fault or the
/// argument that is missing.
pub fn explain_words(alloc: Global, words: &[String]) -> Result<String, AllocError> {
    let Some(name) = words.get(1) else {
        return format!(in alloc;
            "no command is named; the commands are balance, check, decode, help, ledger, replay, serve and topup"
        );
    };
    let Some(command) = Command::named(name.as_str()) else {
        return stranger(alloc, name.as_str());
    };
    if let Some(topic) = unknown_topic(command, words) {
        return stranger(alloc, topic);
    }
    let is_many = command == Command::TopUp && has_option(words, "--from");
    let is_at = Switch::At.is_of(command) && has_option(words, "--at");
    let mut reading = Reading {
        command,
        // The arguments of a call begin behind PLAN and DIR.
        count: if is_at && !is_many { NEEDS_OF_MANY } else { 0 },
        is_rest: false,
        awaited: None,
        stays: command == Command::Serve && has_option(words, "--stay"),
        is_many,
        is_at,
        seen: [false; 11],
    };
    for word in words.iter().skip(2) {
        if let Some(slip) = reading.slip(alloc, word.as_str())? {
            return Ok(slip);
        }
    }
    reading.lack(alloc)
}

/// A word that names no command.
fn stranger(alloc: Global, word: &str) -> Result<String, AllocError> {
    let name = quoted(alloc, word.as_bytes())?;
    format!(in alloc;
        "{name} is no command; the commands are balance, check, decode, help, ledger, replay, serve and topup"
    )
}

/// The word that stands in the place of a command whose help is asked for, if it names none.
fn unknown_topic(command: Command, words: &[String]) -> Option<&str> {
    let topic = words.get(2)?.as_str();
    if command != Command::Help || is_switch(topic) || Command::named(topic).is_some() {
        return None;
    }
    Some(topic)
}

impl Reading {
    /// What is wrong with the next word, if something is.
    fn slip(&mut self, alloc: Global, word: &str) -> Result<Option<String>, AllocError> {
        if let Some(switch) = self.awaited {
            if switch == Switch::From && is_switch(word) {
                return Ok(Some(path_slip(alloc, word)?));
            }
            self.awaited = None;
            return value_slip(alloc, switch, word, self.stays);
        }
        if self.is_rest || !is_switch(word) {
            return self.argument_slip(alloc, word);
        }
        if word == "--" {
            self.is_rest = true;
            return Ok(None);
        }
        self.switch_slip(alloc, word)
    }

    /// The next argument.
    fn argument_slip(&mut self, alloc: Global, word: &str) -> Result<Option<String>, AllocError> {
        let at = self.count;
        self.count = at.saturating_add(1);
        let shown = quoted(alloc, word.as_bytes())?;
        if self.is_many && at >= NEEDS_OF_MANY {
            return Ok(Some(format!(in alloc;
                "{shown} is one word too many: --from goes with PLAN and DIR alone"
            )?));
        }
        if self.is_at && at >= self.command.needs() {
            return Ok(Some(format!(in alloc;
                "{shown} is one word too many: --at stands in place of PLAN and DIR, and takes no MOMENT"
            )?));
        }
        let Some(name) = self.command.argument(at) else {
            return Ok(Some(format!(in alloc; "{shown} is one word too many")?));
        };
        let Some(kind) = self.command.kind(at) else {
            return Ok(None);
        };
        if kind.reads(alloc, word.as_bytes())? {
            return Ok(None);
        }
        let wanted = kind.wanted();
        Ok(Some(format!(in alloc; "{name} is {shown}; it has to be {wanted}")?))
    }

    /// An option.
    fn switch_slip(&mut self, alloc: Global, word: &str) -> Result<Option<String>, AllocError> {
        let (name, value) = match word.split_once('=') {
            Some((name, value)) => (name, Some(value)),
            None => (word, None),
        };
        if self.stays && name == "--stay" {
            return self.flag_slip(alloc, STAY, name, value.is_some());
        }
        if self.command == Command::Serve && name == "--accept-loss" {
            return self.flag_slip(alloc, ACCEPT_LOSS, name, value.is_some());
        }
        match Switch::named(name) {
            Some(switch) if switch.is_of(self.command) => {
                if let Some(quarrel) = self.quarrel(switch) {
                    return Ok(Some(format!(in alloc; "{quarrel}")?));
                }
                if let Some(slip) = self.repeat(alloc, switch.place(), name)? {
                    return Ok(Some(slip));
                }
                match value {
                    Some(value) => value_slip(alloc, switch, value, self.stays),
                    None => {
                        self.awaited = Some(switch);
                        Ok(None)
                    }
                }
            }
            // The first `--explain` is not among these words.
            _ if name == "--explain" => {
                let slip = match value {
                    Some(_) => "--explain has no value",
                    None => "--explain stands twice",
                };
                Ok(Some(format!(in alloc; "{slip}")?))
            }
            _ => {
                let shown = quoted(alloc, name.as_bytes())?;
                let mut slip = format!(in alloc; "{shown} is no option of this command")?;
                if name
                    .as_bytes()
                    .get(1)
                    .is_some_and(|octet| octet.is_ascii_digit())
                {
                    slip.push_str("; no number of a command has a sign")?;
                }
                Ok(Some(slip))
            }
        }
    }

    /// An option that takes no value.
    fn flag_slip(
        &mut self,
        alloc: Global,
        at: usize,
        name: &str,
        has_value: bool,
    ) -> Result<Option<String>, AllocError>
        requires { at < 11 }
    {
        if has_value {
            return Ok(Some(format!(in alloc; "{name} has no value")?));
        }
        self.repeat(alloc, at, name)
    }

    /// Why an option doesn't go with the other words, if it doesn't.
    fn quarrel(&self, switch: Switch) -> Option<&'static str> {
        if self.is_at && self.is_many {
            return Some(
                "--at does not go with --from: a file's top-ups are made in a folder alone",
            );
        }
        switch.quarrel(self.stays)
    }

    /// What is wrong with an option that was there before.
    fn repeat(&mut self, alloc: Global, at: usize, name: &str) -> Result<Option<String>, AllocError>
        requires { at < 11 }
    {
        if self.seen[at] {
            return Ok(Some(format!(in alloc; "{name} stands twice")?));
        }
        self.seen[at] = true;
        Ok(None)
    }

    /// So many arguments have to be there.
    fn needs(&self) -> usize {
        if self.is_many {
            NEEDS_OF_MANY
        } else {
            self.command.needs()
        }
    }

    /// What is missing behind the last word, if something is.
    fn lack(&self, alloc: Global) -> Result<String, AllocError> {
        if let Some(switch) = self.awaited {
            let (name, wanted) = (switch.name(), switch.wanted(self.stays));
            return format!(in alloc; "{name} has no value; it has to be {wanted}");
        }
        match self.missing() {
            Some(name) => format!(in alloc; "{name} is missing"),
            None => String::from_str(alloc, "a word stands in a place where the command has none"),
        }
    }

    /// The argument that is missing, if one is.
    fn missing(&self) -> Option<&'static str> {
        if self.count < self.needs() {
            self.command.argument(self.count)
        } else {
            None
        }
    }
}

/// A word in the place of a file's path that is read as an option.
fn path_slip(alloc: Global, word: &str) -> Result<String, AllocError> {
    let (shown, wanted) = (quoted(alloc, word.as_bytes())?, Switch::From.wanted(false));
    format!(in alloc;
        "--from is {shown}; it has to be {wanted}; a path that begins with a hyphen stands behind --from="
    )
}

/// The value of an option.
fn value_slip(
    alloc: Global,
    switch: Switch,
    value: &str,
    stays: bool,
) -> Result<Option<String>, AllocError> {
    if switch.fits(value, stays) {
        return Ok(None);
    }
    let (name, wanted) = (switch.name(), switch.wanted(stays));
    let shown = quoted(alloc, value.as_bytes())?;
    Ok(Some(format!(in alloc; "{name} is {shown}; it has to be {wanted}")?))
}

/// Whether a word is an option, or the two hyphens behind which there is none.
fn is_switch(word: &str) -> bool {
    word.len() > 1 && word.starts_with('-')
}

/// Whether an option stands among the words, also with a value, before a `--`.
fn has_option(words: &[String], option: &str) -> bool {
    for word in words {
        if word.as_str() == "--" {
            return false;
        }
        if is_option(word.as_str(), option) {
            return true;
        }
    }
    false
}

/// Whether a word is this option, alone or with a value.
fn is_option(word: &str, option: &str) -> bool {
    match word.strip_prefix(option) {
        Some(rest) => rest.is_empty() || rest.starts_with('='),
        None => false,
    }
}
