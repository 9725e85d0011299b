//! The groups that are walked, each read once.

ghost use Rattle.std.specs.Prelude.{◌≡◌, option_map};
ghost use Rattle.dcc_request.specs.Answers.{Gives};
ghost use Rattle.dcc_request.specs.Layout.{layout_fault};
ghost use Rattle.dcc_request.specs.Walk.{ListView, GroupView, in_group, list_of, is_units, is_walked, group_of, groups_of};

use crate::command::Command;
use crate::layout::stop_at;
use crate::parts::{Parts, read_each};
use crate::stop::Stop;
use dcc_avp::{Avp, AvpFault, codes, group};
use std::alloc::Global;
use std::marker::Model;

/// The list of a walked group. Contracts see it as a `ListView`.
#[derive(Debug, Drop)]
pub struct List<'a> {
    code: u32,
    avps: Vec<Avp<'a>>,
}

impl<'a> Model for List<'a> {
    ghost use Rattle.dcc_request.specs.Walk.{ListView};

    ghost Value = { ListView };

    ghost view = { λ l. record { code = l.code; avps = l.avps.items } };
}

impl<'a> List<'a> {
    /// The AVP Code of the group.
    pub fn code(&self) -> u32
        ensures { result ≡ self.now.code }
    {
        self.code
    }

    /// The AVPs in it, as they stand.
    pub fn avps(&self) -> &[Avp<'a>]
        ensures { result.now ≡ self.now.avps }
    {
        &self.avps
    }
}

/// A walked group of a message's list, with the walked groups inside it. Contracts see it as a `GroupView`.
#[derive(Debug, Drop)]
pub struct Group<'a> {
    list: List<'a>,
    inside: Vec<List<'a>>,
}

impl<'a> Model for Group<'a> {
    ghost use Rattle.dcc_request.specs.Walk.{GroupView};

    ghost Value = { GroupView };

    ghost view = { λ g. record { list = g.list; inside = g.inside.items } };
}

impl<'a> Group<'a> {
    /// Its list.
    pub fn list(&self) -> &List<'a>
        ensures { result.now ≡ self.now.list }
    {
        &self.list
    }

    /// The walked groups inside it, in their order: the units of a Multiple-Services-Credit-Control, and none in another group.
    pub fn inside(&self) -> &[List<'a>]
        ensures { result.now ≡ self.now.inside }
    {
        &self.inside
    }
}

/// Whether an AVP is an amount of units, asked for or used.
fn is_units(avp: &Avp<'_>) -> bool
    ensures { result ≡ is_units avp.now }
{
    avp.has_code(codes::REQUESTED_SERVICE_UNIT) || avp.has_code(codes::USED_SERVICE_UNIT)
}

/// Whether an AVP of the message's list is a group that is walked.
fn is_walked(command: Command, avp: &Avp<'_>) -> bool
    ensures { result ≡ is_walked command avp.now }
{
    match command {
        Command::CapabilitiesExchange => avp.has_code(codes::VENDOR_SPECIFIC_APPLICATION_ID),
        Command::DeviceWatchdog | Command::DisconnectPeer => false,
        Command::CreditControl => {
            avp.has_code(codes::SUBSCRIPTION_ID)
                || avp.has_code(codes::MULTIPLE_SERVICES_CREDIT_CONTROL)
                || is_units(avp)
        }
    }
}

/// A fault of a group's list: if too few octets are left for a header, the code and flags are those of the group.
fn in_group(avp: &Avp<'_>, fault: AvpFault) -> AvpFault
    ensures { layout_fault result ≡ option_map (in_group avp.now) (layout_fault fault) }
{
    match fault {
        AvpFault::Short { .. } => AvpFault::Short {
            code: avp.code(),
            flags: avp.flags(),
        },
        other => other,
    }
}

/// The list of a group, or the refusal of its layout.
#[tactic(auto, unfolding(crate::specs::Walk::list_of))]
fn list_of<'a>(alloc: Global, avp: &Avp<'a>) -> Result<List<'a>, Stop<'a>>
    ensures { Gives (λ list. list) result (list_of avp.now) }
{
    match group(alloc, avp) {
        Ok(avps) => Ok(List {
            code: avp.code(),
            avps,
        }),
        Err(fault) => Err(stop_at(&in_group(avp, fault))),
    }
}

/// Amounts of units, each the list of its AVP.
#[derive(Drop)]
struct Units;

impl<'a> Parts<'a> for Units {
    ghost use Rattle.dcc_request.specs.Walk.{list_of, is_units};

    type Part = List<'a>;

    ghost holds = { λ _. is_units };

    ghost part_of = { list_of };

    fn holds(&self, avp: &Avp<'a>) -> bool {
        is_units(avp)
    }

    fn read(&self, alloc: Global, avp: &Avp<'a>) -> Result<List<'a>, Stop<'a>> {
        list_of(alloc, avp)
    }
}

/// A group, and the walked groups inside it; or the refusal of the first that can't be read.
#[tactic(auto, unfolding(crate::specs::Walk::group_of))]
fn group_of<'a>(alloc: Global, avp: &Avp<'a>) -> Result<Group<'a>, Stop<'a>>
    ensures { Gives (λ group. group) result (group_of avp.now) }
{
    let list = list_of(alloc, avp)?;
    let inside = if list.code == codes::MULTIPLE_SERVICES_CREDIT_CONTROL {
        read_each(alloc, &Units, &list.avps)?
    } else {
        Vec::new(alloc)
    };
    Ok(Group { list, inside })
}

/// The walked groups of a message of this command.
#[derive(Drop)]
struct Walked(Command);

impl<'a> Parts<'a> for Walked {
    ghost use Rattle.dcc_request.specs.Walk.{is_walked, group_of};

    type Part = Group<'a>;

    ghost holds = { λ walked. is_walked walked.0 };

    ghost part_of = { group_of };

    fn holds(&self, avp: &Avp<'a>) -> bool {
        is_walked(self.0, avp)
    }

    fn read(&self, alloc: Global, avp: &Avp<'a>) -> Result<Group<'a>, Stop<'a>> {
        group_of(alloc, avp)
    }
}

/// The walked groups of a message's list, or the refusal of the first that can't be read.
pub(crate) fn groups_of<'a>(
    alloc: Global,
    command: Command,
    avps: &[Avp<'a>],
) -> Result<Vec<Group<'a>>, Stop<'a>>
    ensures { Gives (λ groups. groups.items) result (groups_of command avps.now) }
{
    read_each(alloc, &Walked(command), avps)
}
