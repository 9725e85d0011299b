//! The words of a plan's explanation.

use crate::key::{Key, PLAN_KEYS, TABLE_KEYS};
use crate::lines::{Sought, bare, line_of};
use crate::place::Place;
use crate::tariffs::{Spot, tables_of};
use crate::text::{quoted, shortened};
use dcc_tariff::PlanFault;
use dcc_words::parts;
use std::alloc::{AllocError, Global};
use toml::{Table, Value};

/// Octets that are no text from one on.
pub(crate) fn words_of_octets(
    alloc: Global,
    octets: &[u8],
    from: usize,
) -> Result<String, AllocError> {
    let (line, column) = place_at(octets, from);
    format!(in alloc; "the plan is no text in UTF-8 (line {line}, octet {column})")
}

/// A text that is no TOML document.
pub(crate) fn words_of_text(
    alloc: Global,
    text: &[u8],
    error: &toml::de::Error,
) -> Result<String, AllocError> {
    let from = match error.span() {
        Some(span) => span.start,
        None => 0,
    };
    let (line, column) = place_at(text, from);
    let reason = error.message();
    let mut words = format!(in alloc; "the plan is no TOML document: {reason}")?;
    match reason {
        "number out of range" => words.push_str(
            "; a number is from -9223372036854775808 to 9223372036854775807",
        )?,
        "duplicate key" => push_duplicate(alloc, &mut words, text, line)?,
        _ => push_hint(&mut words, reason)?,
    }
    write!(words, " (line {line}, octet {column})")?;
    Ok(words)
}

/// How texts and numbers are written, if the reason says that a value can't be read.
fn push_hint(words: &mut String, reason: &str) -> Result<(), AllocError> {
    if reason.as_bytes().starts_with(b"invalid value") {
        return words.push_str(
            "; a text stands between two quotation marks (\"), and a number has no leading zero",
        );
    }
    if reason.as_bytes().starts_with(b"invalid string") {
        return words.push_str("; a text ends on its line, with a quotation mark (\")");
    }
    Ok(())
}

/// What a line repeats and the line that had it first, and a line in front of it that makes one table of what is a list: `[tariff]`.
fn push_duplicate(
    alloc: Global,
    words: &mut String,
    text: &[u8],
    line: usize,
) -> Result<(), AllocError> {
    let lines = parts(alloc, text, b'\n')?;
    let before = lines
        .as_slice()
        .get(..line.saturating_sub(1))
        .unwrap_or(&[]);
    if let Some(repeated) = lines.get(line.saturating_sub(1)) {
        let shown = quoted(alloc, repeated.trim_ascii())?;
        write!(words, " in {shown}")?;
        push_first(words, before, repeated)?;
    }
    if let Some(at) = before.iter().position(|line| is_single_header(line)) {
        let number = at.saturating_add(1);
        write!(
            words,
            "; line {number} is [tariff], and each tariff has a header [[tariff]]"
        )?;
    }
    Ok(())
}

/// The number of the first of these lines that has what a line behind them repeats, if one has it.
fn push_first(words: &mut String, before: &[&[u8]], repeated: &[u8]) -> Result<(), AllocError> {
    match first_of(before, repeated) {
        Some(number) => write!(words, "; line {number} has it first"),
        None => Ok(()),
    }
}

/// The number, from 1, of the first line that has the key or the header of a line behind these. A key is sought behind the last header alone, since
/// each table has keys of its own.
fn first_of(before: &[&[u8]], repeated: &[u8]) -> Option<usize> {
    let from = if is_header(repeated) {
        0
    } else {
        behind_header(before)
    };
    let at = before
        .get(from..)?
        .iter()
        .position(|line| key_in(line) == key_in(repeated))?;
    Some(from.saturating_add(at).saturating_add(1))
}

/// The place behind the last header of these lines, or the first place.
fn behind_header(lines: &[&[u8]]) -> usize {
    match lines.iter().rposition(|line| is_header(line)) {
        Some(at) => at.saturating_add(1),
        None => 0,
    }
}

/// Whether a line is a header.
fn is_header(line: &[u8]) -> bool {
    line.trim_ascii().starts_with(b"[")
}

/// What a line has in front of its first equals sign: a key, or else a header.
fn key_in(line: &[u8]) -> &[u8] {
    let end = match line.iter().position(|octet| *octet == b'=') {
        Some(at) => at,
        None => line.len(),
    };
    bare(line.get(..end).unwrap_or(&[]))
}

/// Whether a line is the header of one table in place of that of a list's element.
fn is_single_header(line: &[u8]) -> bool {
    line.trim_ascii().starts_with(b"[tariff]")
}

/// The line of an octet, and its number in that line, both from 1.
fn place_at(text: &[u8], at: usize) -> (usize, usize) {
    let mut line = 1usize;
    let mut column = 1usize;
    for octet in text.iter().take(at) {
        if *octet == b'\n' {
            line = line.saturating_add(1);
            column = 1;
        } else {
            column = column.saturating_add(1);
        }
    }
    (line, column)
}

/// What is wrong at a place of a plan's tables.
pub(crate) fn words_of(
    alloc: Global,
    text: &[u8],
    table: &Table,
    place: Place,
    fault: PlanFault,
) -> Result<String, AllocError> {
    match place {
        Place::Text => format!(in alloc; "the plan is no TOML document"),
        Place::Key(key) => words_in_plan(alloc, text, table, key, fault),
        Place::NoAddress => words_in_plan(alloc, text, table, Key::Address, fault),
        Place::Tariffs(spot) => words_of_spot(alloc, text, table, spot, fault),
    }
}

/// What is wrong with a key of the plan.
fn words_in_plan(
    alloc: Global,
    text: &[u8],
    table: &Table,
    key: Key,
    fault: PlanFault,
) -> Result<String, AllocError> {
    let value = table.get(key.name());
    let line = line_of(text, Sought::Key(key.name()));
    let words = words_of_key(alloc, value, key, line, fault)?;
    match value {
        Some(_) => Ok(words),
        None => with_hint(alloc, text, table, key, words),
    }
}

/// What is wrong with a key that has this value.
fn words_of_key(
    alloc: Global,
    value: Option<&Value>,
    key: Key,
    line: Option<usize>,
    fault: PlanFault,
) -> Result<String, AllocError> {
    let (name, kind, wanted) = (key.name(), key.kind(), key.wanted());
    let Some(value) = value else {
        return format!(in alloc; "{name} is missing; it has to be {kind}, {wanted}");
    };
    let found = found(alloc, value)?;
    let (kind, comma) = if fault == PlanFault::MissingKey {
        (kind, ", ")
    } else {
        ("", "")
    };
    let without = if let Value::Float(_) = value {
        ", without a point and without an exponent"
    } else {
        ""
    };
    let mut words = format!(in alloc;
        "{name} is {found}; it has to be {kind}{comma}{wanted}{without}"
    )?;
    push_line(&mut words, line)?;
    Ok(words)
}

/// The words of a key that the plan lacks, and where a tariff has the key, or else a key that no plan has: a plan's keys belong in front of
/// the first tariff, and a key may be misspelt.
fn with_hint(
    alloc: Global,
    text: &[u8],
    table: &Table,
    key: Key,
    words: String,
) -> Result<String, AllocError> {
    let mut words = words;
    let name = key.name();
    if let Some(at) = tables_of(table)
        .iter()
        .position(|value| value.get(name).is_some())
    {
        let number = at.saturating_add(1);
        write!(
            words,
            "; tariff {number} has it, and it belongs in front of the first tariff"
        )?;
        push_line(&mut words, line_of(text, Sought::KeyOf(number, name)))?;
    } else if let Some(other) = stranger_in(table, &PLAN_KEYS) {
        let found = quoted(alloc, other.as_bytes())?;
        write!(words, "; a plan has no key {found}")?;
        push_line(&mut words, line_of(text, Sought::Key(other)))?;
    }
    Ok(words)
}

/// The first key of a table, by its name, that is none of these.
fn stranger_in<'t>(table: &'t Table, keys: &[Key]) -> Option<&'t str> {
    for name in table.keys() {
        if !keys.iter().any(|key| key.name() == name.as_str()) {
            return Some(name.as_str());
        }
    }
    None
}

/// What is wrong at a place of the list of tariffs.
fn words_of_spot(
    alloc: Global,
    text: &[u8],
    table: &Table,
    spot: Spot,
    fault: PlanFault,
) -> Result<String, AllocError> {
    match spot {
        Spot::Key(number, key) => words_in_table(alloc, text, table, number, key, fault),
        Spot::NoMoment(number) => words_in_table(alloc, text, table, number, Key::Begin, fault),
        Spot::Element(number) => {
            let line = line_of(text, Sought::Key("tariff"));
            let head = format!(in alloc;
                "tariff {number} is no table; tariff has to be a list of 1 to 1000 tables"
            )?;
            with_line(head, line)
        }
        Spot::Count(count) => {
            let line = line_of(text, Sought::Key("tariff"));
            let head = format!(in alloc; "tariff has {count} tables; it has to have 1 to 1000")?;
            with_line(head, line)
        }
        Spot::Units(one, other) => {
            let line = line_of(text, Sought::KeyOf(other, "unit"));
            let head = format!(in alloc;
                "tariff {other}: its unit is not that of tariff {one}, which has the same group; a group has one unit"
            )?;
            with_line(head, line)
        }
        Spot::Moments(one, other) => {
            let line = line_of(text, Sought::KeyOf(other, "from"));
            let head = format!(in alloc;
                "tariff {other}: its from is that of tariff {one}, which has the same group; each table of a group has a moment of its own"
            )?;
            with_line(head, line)
        }
        Spot::Default => words_of_default(alloc, text, table),
    }
}

/// A default group without a table.
fn words_of_default(alloc: Global, text: &[u8], table: &Table) -> Result<String, AllocError> {
    let line = line_of(text, Sought::Key("default_group"));
    let found = match table.get("default_group") {
        Some(value) => found(alloc, value)?,
        None => String::new(alloc),
    };
    let head = format!(in alloc; "default_group is {found}; it has to be the group of a tariff")?;
    with_line(head, line)
}

/// What is wrong with a key of a table of tariffs.
fn words_in_table(
    alloc: Global,
    text: &[u8],
    table: &Table,
    number: usize,
    key: Key,
    fault: PlanFault,
) -> Result<String, AllocError> {
    let value = value_in(table, number, key);
    let line = line_of(text, Sought::KeyOf(number, key.name()));
    let words = words_of_key(alloc, value, key, line, fault)?;
    let mut all = format!(in alloc; "tariff {number}: ")?;
    all.push_str(words.as_str())?;
    if value.is_none() {
        push_line(&mut all, line_of(text, Sought::Table(number)))?;
        push_stranger(alloc, &mut all, text, table, number)?;
    }
    Ok(all)
}

/// Behind the words of a key that a table of tariffs lacks: a key that no such table has, if there is one.
fn push_stranger(
    alloc: Global,
    words: &mut String,
    text: &[u8],
    table: &Table,
    number: usize,
) -> Result<(), AllocError> {
    let Some(inner) = table_of(table, number) else {
        return Ok(());
    };
    let Some(other) = stranger_in(inner, &TABLE_KEYS) else {
        return Ok(());
    };
    let found = quoted(alloc, other.as_bytes())?;
    write!(words, "; a tariff has no key {found}")?;
    push_line(words, line_of(text, Sought::KeyOf(number, other)))
}

/// A table of tariffs.
fn table_of(table: &Table, number: usize) -> Option<&Table> {
    let at = number.checked_sub(1)?;
    tables_of(table).get(at)?.as_table()
}

/// The value of a key of a table of tariffs.
fn value_in(table: &Table, number: usize, key: Key) -> Option<&Value> {
    let at = number.checked_sub(1)?;
    tables_of(table).get(at)?.get(key.name())
}

/// A value as it stands in a plan, shortened, or what it is where it is no single value.
fn found(alloc: Global, value: &Value) -> Result<String, AllocError> {
    if value.is_table() {
        return String::from_str(alloc, "a table");
    }
    if value.is_array() {
        return String::from_str(alloc, "a list");
    }
    let text = format!(in alloc; "{value}")?;
    shortened(alloc, text.as_str())
}

/// The words, and behind them the line, if it is known.
fn with_line(words: String, line: Option<usize>) -> Result<String, AllocError> {
    let mut words = words;
    push_line(&mut words, line)?;
    Ok(words)
}

fn push_line(words: &mut String, line: Option<usize>) -> Result<(), AllocError> {
    match line {
        Some(line) => write!(words, " (line {line})"),
        None => Ok(()),
    }
}
