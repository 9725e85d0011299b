//! The part of a command in the text of help.

use std::alloc::{AllocError, Global};

/// What stands in front of the first command line in the list of a help text.
const FIRST: &str = "usage: ";

/// What stands in front of each other one.
const OTHER: &str = "       ";

/// So many empty lines of a help text stand in front of the parts that belong to every command: behind what the program is, the list of
/// command lines, and the part of each command.
const PARTS_OF_ALL: usize = 3;

/// The lines of a command in the list of a help text, each without what stands in front of it: as `dcc replay PLAN`. There are none if the list
/// has no such command. The only error is want of memory.
pub fn usage_lines<'h>(
    alloc: Global,
    help: &'h str,
    name: &str,
) -> Result<Vec<&'h str>, AllocError> {
    let mut lines = Vec::new(alloc);
    for line in help.lines() {
        if let Some(usage) = usage_in(line) {
            if is_of(usage, name) {
                lines.push(usage)?;
            }
        }
    }
    Ok(lines)
}

/// The command line that a line of the list has.
fn usage_in(line: &str) -> Option<&str> {
    match line.strip_prefix(FIRST) {
        Some(usage) => Some(usage),
        None => line.strip_prefix(OTHER),
    }
}

/// The help of a command: its lines of the list, its part of the text, and the parts that belong to every command. Its part begins with its name
/// at the left margin, and ends before that of the next command. None if the list has no such command. The only error is want of memory.
pub fn help_of(alloc: Global, help: &str, name: &str) -> Result<Option<String>, AllocError> {
    let usages = usage_lines(alloc, help, name)?;
    if usages.is_empty() {
        return Ok(None);
    }
    let mut shown = list_of(alloc, usages.as_slice())?;
    push_parts(&mut shown, help, name)?;
    Ok(Some(shown))
}

/// The list of these command lines, and an empty line behind it.
fn list_of(alloc: Global, usages: &[&str]) -> Result<String, AllocError> {
    let mut shown = String::new(alloc);
    let mut front = FIRST;
    for usage in usages {
        write!(shown, "{front}{usage}\n")?;
        front = OTHER;
    }
    shown.push_str("\n")?;
    Ok(shown)
}

/// Adds the part of a command and the parts that belong to every command.
fn push_parts(shown: &mut String, help: &str, name: &str) -> Result<(), AllocError> {
    let mut is_inside = false;
    let mut empty = 0usize;
    for line in help.lines() {
        if line.is_empty() {
            empty = empty.saturating_add(1);
        }
        if empty >= PARTS_OF_ALL {
            is_inside = true;
        } else if !line.starts_with(' ') {
            is_inside = is_of(line, name);
        }
        if is_inside {
            shown.push_str(line)?;
            shown.push_str("\n")?;
        }
    }
    Ok(())
}

/// Whether a line begins with this command.
fn is_of(line: &str, name: &str) -> bool {
    match line.strip_prefix("dcc ") {
        Some(rest) => match rest.strip_prefix(name) {
            Some(rest) => rest.is_empty() || rest.starts_with(' '),
            None => false,
        },
        None => false,
    }
}
