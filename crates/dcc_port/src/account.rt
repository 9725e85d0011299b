//! The text of an account.

ghost use Rattle.std.specs.Prelude.{◌≡◌, ◌++◌, IfOk, OnOk, string_bytes, codes};
ghost use Rattle.std.specs.List.{flat_map};
ghost use Rattle.dcc_session.specs.Grants.{held_price};
ghost use Rattle.dcc_port.specs.Accounts.{account_text, deadline_text, escaped, grant_text, key_text, money_text, name_octet, name_text, session_text, sub_text, unit_word, units_text, with_commas};

use dcc_act::{Looks, Sub};
use dcc_session::{Held, price_held};
use dcc_state::OpenSession;
use dcc_tariff::UnitKind;
use std::alloc::{AllocError, Global};

/// The money of an account, in minor units, and the number of its acts.
#[derive(Clone, Copy)]
pub(crate) struct Money {
    pub funds: i128,
    pub reserved: i128,
    pub free: i128,
    pub overrun: i128,
    pub acts: u64,
}

/// The text of an account with this money and these open sessions. The only error is want of memory.
#[tactic(auto, unfolding(crate::specs::Accounts::account_text))]
pub(crate) fn account_text(
    alloc: Global,
    sub: &Sub,
    money: &Money,
    sessions: &[OpenSession],
) -> Result<Vec<u8>, AllocError>
    ensures { IfOk result (λ text. text.items ≡ account_text sub.now money.now sessions.now) }
{
    let mut text = Vec::from_slice(alloc, b"{\"subscriber\":")?;
    put_sub(alloc, &mut text, sub)?;
    put_money(alloc, &mut text, money)?;
    text.extend_from_slice(b",\"sessions\":[")?;
    put_sessions(alloc, &mut text, sessions)?;
    text.extend_from_slice(b"]}")?;
    Ok(text)
}

/// Adds a subscriber in JSON to a text.
fn put_sub(alloc: Global, text: &mut Vec<u8>, sub: &Sub) -> Result<(), AllocError>
    ensures { OnOk result (text.new.items ≡ text.old.items ++ sub_text sub.now) }
{
    let kind = sub.kind();
    let head = format!(in alloc; "\"{kind}:")?;
    text.extend_from_slice(head.as_bytes())?;
    put_escaped(text, sub.name())?;
    text.extend_from_slice(b"\"")
}

/// Adds octets to a text in JSON.
pub(crate) fn put_escaped(text: &mut Vec<u8>, octets: &[u8]) -> Result<(), AllocError>
    ensures { OnOk result (text.new.items ≡ text.old.items ++ flat_map escaped octets.now) }
{
    for octet in octets {
        put_octet(text, *octet)?;
    }
    Ok(())
}

/// Adds an octet to a text in JSON.
fn put_octet(text: &mut Vec<u8>, octet: u8) -> Result<(), AllocError>
    ensures { OnOk result (text.new.items ≡ text.old.items ++ escaped octet) }
{
    if octet == b'"' || octet == b'\\' {
        text.extend_from_slice(&[b'\\', octet])
    } else {
        text.extend_from_slice(&[octet])
    }
}

/// Adds the money of an account to a text.
fn put_money(alloc: Global, text: &mut Vec<u8>, money: &Money) -> Result<(), AllocError>
    ensures { OnOk result (text.new.items ≡ text.old.items ++ money_text money.now) }
{
    let line = money_line(
        alloc,
        money.funds,
        money.reserved,
        money.free,
        money.overrun,
        money.acts,
    )?;
    text.extend_from_slice(line.as_bytes())
}

/// The money of an account as text.
fn money_line(
    alloc: Global,
    funds: i128,
    reserved: i128,
    free: i128,
    overrun: i128,
    acts: u64,
) -> Result<String, AllocError>
    ensures { IfOk result (λ line. string_bytes line
        ≡ money_text (record { funds = funds; reserved = reserved; free = free; overrun = overrun; acts = acts })) }
{
    let line = format!(in alloc;
        ",\"funds\":{funds},\"reserved\":{reserved},\"free\":{free},\"overrun\":{overrun},\"acts\":{acts}"
    )?;
    Ok(line)
}

/// Adds open sessions to a text, with commas between them.
#[tactic(auto, unfolding(crate::specs::Accounts::with_commas))]
fn put_sessions(
    alloc: Global,
    text: &mut Vec<u8>,
    sessions: &[OpenSession],
) -> Result<(), AllocError>
    ensures { OnOk result (text.new.items ≡ text.old.items ++ with_commas session_text sessions.now) }
{
    let Some((first, rest)) = sessions.split_first() else {
        return Ok(());
    };
    put_session(alloc, text, first)?;
    put_more_sessions(alloc, text, rest)
}

/// Adds open sessions to a text, with a comma before each.
fn put_more_sessions(
    alloc: Global,
    text: &mut Vec<u8>,
    sessions: &[OpenSession],
) -> Result<(), AllocError>
    ensures { OnOk result (text.new.items ≡ text.old.items ++ flat_map (λ one. codes "," ++ session_text one) sessions.now) }
{
    for session in sessions {
        text.extend_from_slice(b",")?;
        put_session(alloc, text, session)?;
    }
    Ok(())
}

/// Adds an open session to a text: its name, its deadline and its live grants.
#[tactic(auto, unfolding(crate::specs::Accounts::session_text))]
fn put_session(alloc: Global, text: &mut Vec<u8>, session: &OpenSession) -> Result<(), AllocError>
    ensures { OnOk result (text.new.items ≡ text.old.items ++ session_text session.now) }
{
    put_name(alloc, text, session.sid().as_slice(), session.deadline())?;
    put_grants(alloc, text, session.grants(&mut Looks::new()))?;
    text.extend_from_slice(b"]}")
}

/// Adds the name and the deadline of an open session to a text.
#[tactic(auto, unfolding(crate::specs::Accounts::name_text))]
fn put_name(alloc: Global, text: &mut Vec<u8>, sid: &[u8], deadline: u64) -> Result<(), AllocError>
    ensures { OnOk result (text.new.items ≡ text.old.items ++ name_text sid.now deadline) }
{
    text.extend_from_slice(b"{\"session\":\"")?;
    put_octets(alloc, text, sid)?;
    put_deadline(alloc, text, deadline)
}

/// Adds a deadline to a text.
fn put_deadline(alloc: Global, text: &mut Vec<u8>, deadline: u64) -> Result<(), AllocError>
    ensures { OnOk result (text.new.items ≡ text.old.items ++ deadline_text deadline) }
{
    let line = deadline_line(alloc, deadline)?;
    text.extend_from_slice(line.as_bytes())
}

/// A deadline as text.
#[tactic(auto, unfolding(crate::specs::Accounts::deadline_text))]
fn deadline_line(alloc: Global, deadline: u64) -> Result<String, AllocError>
    ensures { IfOk result (λ line. string_bytes line ≡ deadline_text deadline) }
{
    let line = format!(in alloc; "\",\"deadline\":{deadline},\"grants\":[")?;
    Ok(line)
}

/// Adds a name of any octets to a text in JSON.
fn put_octets(alloc: Global, text: &mut Vec<u8>, name: &[u8]) -> Result<(), AllocError>
    ensures { OnOk result (text.new.items ≡ text.old.items ++ flat_map name_octet name.now) }
{
    for octet in name {
        put_name_octet(alloc, text, *octet)?;
    }
    Ok(())
}

/// Adds an octet of a name of any octets to a text in JSON.
fn put_name_octet(alloc: Global, text: &mut Vec<u8>, octet: u8) -> Result<(), AllocError>
    ensures { OnOk result (text.new.items ≡ text.old.items ++ name_octet octet) }
{
    if octet < 32 || 126 < octet {
        let digits = hex::encode(alloc, &[octet])?;
        text.extend_from_slice(b"\\u00")?;
        text.extend_from_slice(digits.as_bytes())
    } else {
        put_octet(text, octet)
    }
}

/// Adds grants to a text, with commas between them.
#[tactic(auto, unfolding(crate::specs::Accounts::with_commas))]
fn put_grants(alloc: Global, text: &mut Vec<u8>, grants: &[Held]) -> Result<(), AllocError>
    ensures { OnOk result (text.new.items ≡ text.old.items ++ with_commas grant_text grants.now) }
{
    let Some((first, rest)) = grants.split_first() else {
        return Ok(());
    };
    put_grant(alloc, text, first)?;
    put_more_grants(alloc, text, rest)
}

/// Adds grants to a text, with a comma before each.
fn put_more_grants(alloc: Global, text: &mut Vec<u8>, grants: &[Held]) -> Result<(), AllocError>
    ensures { OnOk result (text.new.items ≡ text.old.items ++ flat_map (λ one. codes "," ++ grant_text one) grants.now) }
{
    for grant in grants {
        text.extend_from_slice(b",")?;
        put_grant(alloc, text, grant)?;
    }
    Ok(())
}

/// Adds a grant to a text: the key of its service, its units, and the money that is held for them.
fn put_grant(alloc: Global, text: &mut Vec<u8>, held: &Held) -> Result<(), AllocError>
    ensures { OnOk result (text.new.items ≡ text.old.items ++ grant_text held.now) }
{
    text.extend_from_slice(b"{")?;
    put_key(alloc, text, "group", held.key.group)?;
    put_key(alloc, text, "service", held.key.id)?;
    put_units(alloc, text, held)
}

/// Adds a part of the key of a grant's service to a text, if the key has it.
#[tactic(auto, unfolding(crate::specs::Accounts::key_text))]
fn put_key(
    alloc: Global,
    text: &mut Vec<u8>,
    name: &str,
    number: Option<u32>,
) -> Result<(), AllocError>
    ensures { OnOk result (text.new.items ≡ text.old.items ++ key_text name.now number) }
{
    let Some(number) = number else {
        return Ok(());
    };
    let line = format!(in alloc; "\"{name}\":{number},")?;
    text.extend_from_slice(line.as_bytes())
}

/// Adds the units of a grant to a text, with the money that is held for them.
fn put_units(alloc: Global, text: &mut Vec<u8>, held: &Held) -> Result<(), AllocError>
    ensures { OnOk result (text.new.items
        ≡ text.old.items ++ units_text (unit_word held.now.grant.unit) held.now.grant.units (held_price held.now)) }
{
    let line = units_line(
        alloc,
        unit_word(held.grant.unit),
        held.grant.units,
        price_held(held),
    )?;
    text.extend_from_slice(line.as_bytes())
}

/// Units as text, with the money that is held for them.
#[tactic(auto, unfolding(crate::specs::Accounts::units_text))]
fn units_line(alloc: Global, unit: &str, units: u64, price: u64) -> Result<String, AllocError>
    ensures { IfOk result (λ line. string_bytes line ≡ units_text unit.now units price) }
{
    let line = format!(in alloc; "\"unit\":\"{unit}\",\"units\":{units},\"price\":{price}}}")?;
    Ok(line)
}

/// The word of a unit in plans.
fn unit_word(unit: UnitKind) -> &'static str
    ensures { result.now ≡ unit_word unit }
{
    match unit {
        UnitKind::Octets => "octets",
        UnitKind::Time => "time",
        UnitKind::Units => "units",
    }
}
