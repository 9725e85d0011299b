//! The line of an entry, column by column.

ghost use Rattle.std.specs.Prelude.{◌≡◌, ◌++◌, OnOk, codes};
ghost use Rattle.std.specs.Fmt.{decimal, signed_decimal};
ghost use Rattle.dcc_ledger.specs.Columns.{padded_left, padded_right, with_sign};
ghost use Rattle.dcc_ledger.specs.Moments.{moment_text};
ghost use Rattle.dcc_ledger.specs.Ledger.{word_of, group_text, is_shown, session_text, name_text, entry_line};

use crate::moment::moment_text;
use dcc_act::{Entry, EntryKind, EntryName};
use dcc_octets::are_visible;
use std::alloc::{AllocError, Global};

/// The octets before a Session-Id in hexadecimal digits.
const HEX: &[u8] = b"hex:";

/// Appends the line of an entry, after which the funds are `funds`. The only error is want of memory.
pub(crate) fn put_entry(
    text: &mut Vec<u8>,
    alloc: Global,
    entry: &Entry,
    funds: i128,
) -> Result<(), AllocError>
    ensures { OnOk result (text.new.items ≡ text.old.items ++ entry_line entry.now funds) }
{
    put_act(text, alloc, entry)?;
    put_group(text, alloc, entry.group)?;
    put_amounts(text, alloc, entry, funds)?;
    put_name(text, alloc, &entry.name)?;
    text.extend_from_slice(b"\n")
}

/// Appends the place and the moment of the act, and the entry's kind.
fn put_act(text: &mut Vec<u8>, alloc: Global, entry: &Entry) -> Result<(), AllocError>
    ensures { OnOk result (text.new.items ≡ text.old.items
        ++ (padded_left 8 (decimal entry.now.place) ++ codes " "
        ++ moment_text entry.now.moment ++ codes " "
        ++ padded_right 6 (word_of entry.now.kind) ++ codes " ")) }
{
    let place = entry.place;
    let moment = moment_text(alloc, entry.moment)?;
    let kind = word_of(entry.kind);
    let columns = format!(in alloc; "{place:>8} {moment} {kind:<6} ")?;
    text.extend_from_slice(columns.as_bytes())
}

fn word_of(kind: EntryKind) -> &'static str
    ensures { result.now ≡ word_of kind }
{
    match kind {
        EntryKind::TopUp => "TOPUP",
        EntryKind::Debit => "DEBIT",
        EntryKind::Refund => "REFUND",
        EntryKind::Charge => "CHARGE",
    }
}

/// Appends the Rating-Group; a dash if there is none.
fn put_group(text: &mut Vec<u8>, alloc: Global, group: Option<u32>) -> Result<(), AllocError>
    ensures { OnOk result (text.new.items ≡ text.old.items ++ (padded_left 10 (group_text group) ++ codes " ")) }
{
    let column = match group {
        Some(group) => format!(in alloc; "{group:>10} ")?,
        None => format!(in alloc; "{:>10} ", "-")?,
    };
    text.extend_from_slice(column.as_bytes())
}

/// Appends the units, the change of the funds, and the funds after the change.
fn put_amounts(
    text: &mut Vec<u8>,
    alloc: Global,
    entry: &Entry,
    funds: i128,
) -> Result<(), AllocError>
    ensures { OnOk result (text.new.items ≡ text.old.items
        ++ (padded_left 13 (decimal entry.now.units) ++ codes " "
        ++ padded_left 20 (with_sign entry.now.amount) ++ codes " "
        ++ padded_left 20 (signed_decimal funds) ++ codes " ")) }
{
    let units = entry.units;
    let amount = entry.amount;
    let columns = format!(in alloc; "{units:>13} {amount:>+20} {funds:>20} ")?;
    text.extend_from_slice(columns.as_bytes())
}

/// Appends the name of the entry: its ticket or its session.
fn put_name(text: &mut Vec<u8>, alloc: Global, name: &EntryName) -> Result<(), AllocError>
    ensures { OnOk result (text.new.items ≡ text.old.items ++ name_text name.now) }
{
    match name {
        EntryName::Ticket(ticket) => {
            let name = format!(in alloc; "ticket {ticket}")?;
            text.extend_from_slice(name.as_bytes())
        }
        EntryName::Session(sid) => put_session(text, alloc, sid.as_slice()),
    }
}

/// Appends the name of a session: as it is if it is visible ASCII and doesn't begin with `hex:`, and otherwise in hexadecimal digits
/// behind `hex:`.
fn put_session(text: &mut Vec<u8>, alloc: Global, sid: &[u8]) -> Result<(), AllocError>
    ensures { OnOk result (text.new.items ≡ text.old.items ++ session_text sid.now) }
{
    if is_shown(sid) {
        return text.extend_from_slice(sid);
    }
    let digits = hex::encode(alloc, sid)?;
    text.extend_from_slice(HEX)?;
    text.extend_from_slice(digits.as_bytes())
}

/// Whether the name of a session is shown as it is.
fn is_shown(sid: &[u8]) -> bool
    ensures { result ≡ is_shown sid.now }
{
    are_visible(sid) && !sid.starts_with(HEX)
}
