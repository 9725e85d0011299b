//! The explanation of a script's line.

ghost use Rattle.std.specs.Prelude.{◌≡◌, false, IfOk, IfSome, slice_get};
ghost use Rattle.dcc_explain.specs.Words.{is_read, IsMisfit};

use crate::kind::Kind;
use crate::text::quoted;
use dcc_words::parts;
use std::alloc::{AllocError, Global};

/// A word of a line that doesn't fit.
#[derive(Clone, Copy)]
pub struct Misfit {
    /// Its place among the words of the line; the first has place 0.
    pub at: usize,
    /// What it has to be read as.
    pub kind: Kind,
}

/// A line of a script that has none of the forms, explained.
#[derive(Drop)]
pub struct LineNote {
    /// The first word that isn't read as what its place asks for, if the line has a form's verb and its number of words.
    pub misfit: Option<Misfit>,
    pub words: String,
}

/// A line whose first word is empty.
const LEADING_SPACE: &str = "the line begins with a space";

/// The slip of an empty last word.
const LAST_SPACE: &str = "the line ends with a space";

/// The forms of a script's lines, and those of a line of top-ups, which have no verb.
#[derive(Clone, Copy)]
enum Form {
    Connect,
    Open,
    Disconnect,
    Message,
    TopUp,
    Sweep,
    Ask,
    AskAt,
}

impl Form {
    /// The form with this verb.
    fn of(verb: &[u8]) -> Option<Form> {
        if verb == b"connect".as_slice() {
            Some(Form::Connect)
        } else if verb == b"open".as_slice() {
            Some(Form::Open)
        } else if verb == b"disconnect".as_slice() {
            Some(Form::Disconnect)
        } else if verb == b"message".as_slice() {
            Some(Form::Message)
        } else if verb == b"topup".as_slice() {
            Some(Form::TopUp)
        } else if verb == b"sweep".as_slice() {
            Some(Form::Sweep)
        } else {
            None
        }
    }

    /// So many words has a line of it.
    fn count(self) -> usize {
        match self {
            Form::Connect | Form::Disconnect | Form::Sweep => 2,
            Form::Open | Form::Ask => 3,
            Form::Message | Form::AskAt => 4,
            Form::TopUp => 5,
        }
    }

    /// What a word at a place is read as.
    fn kind(self, at: usize) -> Option<Kind> {
        match (self, at) {
            (Form::Connect, 1) => Some(Kind::Peer),
            (Form::Open, 1) => Some(Kind::Peer),
            (Form::Open, 2) => Some(Kind::Host),
            (Form::Disconnect, 1) => Some(Kind::Peer),
            (Form::Message, 1) => Some(Kind::Peer),
            (Form::Message, 2) => Some(Kind::Moment),
            (Form::Message, 3) => Some(Kind::Message),
            (Form::TopUp, 1) => Some(Kind::Moment),
            (Form::TopUp, 2) => Some(Kind::Sub),
            (Form::TopUp, 3) => Some(Kind::Number),
            (Form::TopUp, 4) => Some(Kind::Amount),
            (Form::Sweep, 1) => Some(Kind::Moment),
            (Form::Ask | Form::AskAt, 0) => Some(Kind::Sub),
            (Form::Ask | Form::AskAt, 1) => Some(Kind::Number),
            (Form::Ask | Form::AskAt, 2) => Some(Kind::Amount),
            (Form::AskAt, 3) => Some(Kind::Moment),
            _ => None,
        }
    }

    /// How it is written.
    fn text(self) -> &'static str {
        match self {
            Form::Connect => "connect P",
            Form::Open => "open P HOST",
            Form::Disconnect => "disconnect P",
            Form::Message => "message P MOMENT HEX",
            Form::TopUp => "topup MOMENT SUB TICKET AMOUNT",
            Form::Sweep => "sweep MOMENT",
            Form::Ask | Form::AskAt => "SUB TICKET AMOUNT [MOMENT]",
        }
    }
}

/// The explanation of a line of a script that has none of the forms.
pub fn explain_line(alloc: Global, line: &[u8]) -> Result<LineNote, AllocError>
    ensures { IfOk result (λ note. IfSome note.misfit (IsMisfit line.now)) }
{
    let words = parts(alloc, line, b' ')?;
    let LineNote { misfit, words } = note_of_verb(alloc, line, words.as_slice())?;
    let words = with_unseen(words, line)?;
    Ok(LineNote { misfit, words })
}

/// The explanation of a line that is no top-up.
pub fn explain_ask(alloc: Global, line: &[u8]) -> Result<LineNote, AllocError>
    ensures { IfOk result (λ note. IfSome note.misfit (IsMisfit line.now)) }
{
    let words = parts(alloc, line, b' ')?;
    let form = if words.len() == Form::AskAt.count() {
        Form::AskAt
    } else {
        Form::Ask
    };
    let LineNote { misfit, words } = note_of(alloc, form, words.as_slice())?;
    let words = with_unseen(words, line)?;
    Ok(LineNote { misfit, words })
}

/// The words of an explanation, and behind them the octets of the line that an editor doesn't show.
fn with_unseen(words: String, line: &[u8]) -> Result<String, AllocError> {
    let mut words = words;
    if line.ends_with(b"\r") {
        words.push_str("; the line ends in a carriage return, which belongs to no form")?;
    }
    if line.contains(&b'\t') {
        words.push_str("; a tab separates no words")?;
    }
    Ok(words)
}

/// The explanation of the words of a line that has none of the forms with a verb.
fn note_of_verb(alloc: Global, line: &[u8], words: &[&[u8]]) -> Result<LineNote, AllocError>
    ensures { IfOk result (λ note. IfSome note.misfit (λ m. IfSome (slice_get words.now m.at) (λ word. is_read m.kind word.now ≡ false))) }
{
    let verb = match words.first() {
        Some(verb) => *verb,
        None => line,
    };
    match Form::of(verb) {
        Some(form) => note_of(alloc, form, words),
        None => {
            let words = words_of_verb(alloc, verb)?;
            Ok(LineNote {
                misfit: None,
                words,
            })
        }
    }
}

/// The explanation of words that do not have this form.
fn note_of(alloc: Global, form: Form, words: &[&[u8]]) -> Result<LineNote, AllocError>
    ensures { IfOk result (λ note. IfSome note.misfit (λ m. IfSome (slice_get words.now m.at) (λ word. is_read m.kind word.now ≡ false))) }
{
    if words.len() != form.count() {
        let words = words_of_count(alloc, form, words)?;
        return Ok(LineNote {
            misfit: None,
            words,
        });
    }
    let misfit = misfit_in(alloc, form, words)?;
    let words = words_of_misfit(alloc, form, words, misfit)?;
    Ok(LineNote { misfit, words })
}

/// The first word of a line that isn't read as what its place asks for.
fn misfit_in(alloc: Global, form: Form, words: &[&[u8]]) -> Result<Option<Misfit>, AllocError>
    ensures { IfOk result (λ misfit. IfSome misfit (λ m. IfSome (slice_get words.now m.at) (λ word. is_read m.kind word.now ≡ false))) }
{
    for (at, word) in words.iter().enumerate() {
        if let Some(kind) = form.kind(at) {
            if !kind.reads(alloc, word)? {
                return Ok(Some(Misfit { at, kind }));
            }
        }
    }
    Ok(None)
}

/// A word that begins no form.
fn words_of_verb(alloc: Global, verb: &[u8]) -> Result<String, AllocError> {
    let fault = if verb.is_empty() {
        String::from_str(alloc, LEADING_SPACE)?
    } else {
        let verb = quoted(alloc, verb)?;
        format!(in alloc; "{verb} begins no form")?
    };
    format!(in alloc;
        "{fault}; the forms are: connect P, open P HOST, disconnect P, message P MOMENT HEX, topup MOMENT SUB TICKET AMOUNT, sweep MOMENT"
    )
}

/// Another number of words than the form has. A word is empty if two spaces stand together, or a space at the end.
fn words_of_count(alloc: Global, form: Form, words: &[&[u8]]) -> Result<String, AllocError> {
    let (count, wanted, text) = (words.len(), form.count(), form.text());
    let Some(at) = words.iter().position(|word| word.is_empty()) else {
        let noun = if count == 1 { "word" } else { "words" };
        return format!(in alloc;
            "it has {count} {noun}, with one space between them, in place of {wanted}; its form is: {text}"
        );
    };
    if at == 0 {
        return format!(in alloc; "{LEADING_SPACE}; its form is: {text}");
    }
    let number = at.saturating_add(1);
    format!(in alloc;
        "word {number} is empty: one space stands between two words, and none at the end; its form is: {text}"
    )
}

/// The word that doesn't fit.
fn words_of_misfit(
    alloc: Global,
    form: Form,
    words: &[&[u8]],
    misfit: Option<Misfit>,
) -> Result<String, AllocError> {
    let text = form.text();
    let Some(misfit) = misfit else {
        return format!(in alloc; "its form is: {text}");
    };
    let word = match words.get(misfit.at) {
        Some(word) => *word,
        None => b"".as_slice(),
    };
    let is_first = misfit.at == 0;
    let is_last = misfit.at.saturating_add(1) == words.len();
    let mut words = if word.is_empty() && (is_first || is_last) {
        String::from_str(alloc, if is_first { LEADING_SPACE } else { LAST_SPACE })?
    } else {
        words_of_kind(alloc, word, misfit.kind)?
    };
    write!(words, "; its form is: {text}")?;
    Ok(words)
}

/// What is wrong with a word that is not of this kind.
fn words_of_kind(alloc: Global, word: &[u8], kind: Kind) -> Result<String, AllocError> {
    let (shown, wanted) = (quoted(alloc, word)?, kind.wanted());
    let mut words = format!(in alloc; "{shown} has to be {wanted}")?;
    if kind == Kind::Message {
        push_slip(alloc, &mut words, word)?;
    }
    Ok(words)
}

/// What is wrong with the hex digits of a message: their count if it is odd, else the first octet that is no digit and its place, from 1; else the
/// count, which is that of too many octets.
fn push_slip(alloc: Global, words: &mut String, word: &[u8]) -> Result<(), AllocError> {
    let count = word.len();
    if count == 0 {
        return Ok(());
    }
    if count % 2 == 1 {
        return write!(words, ": it has {count} digits, an odd number");
    }
    match word.iter().position(|octet| !octet.is_ascii_hexdigit()) {
        Some(at) => {
            let place = at.saturating_add(1);
            let found = quoted(alloc, word.get(at..place).unwrap_or(&[]))?;
            write!(words, ": {found} at place {place} is no hex digit")
        }
        None => write!(words, ": it has {count} digits"),
    }
}
