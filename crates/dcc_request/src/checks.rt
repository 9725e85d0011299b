//! The checks of each list of a message: for unknown AVPs, for AVPs that stand too often, and for missing AVPs.

ghost use Rattle.std.specs.Prelude.{◌≡◌, [], ◌∷◌, count_by, find, option_copied};
ghost use Rattle.dcc_avp.specs.Spelling.{has_code};
ghost use Rattle.dcc_request.specs.declared.cause.Cause.TheVariants.{MissingAvp};
ghost use Rattle.dcc_request.specs.Refusals.{first_some, refusal};
ghost use Rattle.dcc_request.specs.declared.checks.Check.TheVariants.{TooMany, Missing};
ghost use Rattle.dcc_request.specs.Checks.{is_unknown, unknown_in, beyond, is_over, row_beyond, too_many_in};
ghost use Rattle.dcc_request.specs.Checks.{is_lacking, missing_flags, missing_avp, missing_in};
ghost use Rattle.dcc_request.specs.Checks.{fault_in, fault_of, fault_in_group, fault_anywhere, first_fault};

use crate::cause::Cause;
use crate::fits::all_fit;
use crate::layout::least_data;
use crate::refused::Refused;
use crate::table::{Row, table_of};
use crate::walk::{Group, List};
use dcc_avp::{Avp, codes, flags, known};

/// A check of every list of a message, made before the next check.
#[derive(Clone, Copy, Debug)]
pub enum Check {
    /// Unknown AVPs that have M.
    Unknown,
    /// AVPs beyond the most that there may be.
    TooMany,
    /// Missing AVPs that have to be there.
    Missing,
}

/// Whether an AVP is unknown: it has M and no vendor, and the dictionary doesn't have its code.
fn is_unknown(avp: &Avp<'_>) -> bool
    ensures { result ≡ is_unknown avp.now }
{
    avp.vendor().is_none() && avp.is_mandatory() && known(avp.code()).is_none()
}

/// The refusal of the first unknown AVP.
fn unknown_in<'a>(avps: &[Avp<'a>]) -> Option<Refused<'a>>
    ensures { result ≡ unknown_in avps.now }
{
    avps.iter()
        .find(|avp| is_unknown(avp))
        .map(|avp| Refused::one(Cause::AvpUnsupported, avp.copy()))
}

/// The first AVP of a code behind so many others of the code.
fn beyond<'m, 'a>(avps: &'m [Avp<'a>], code: u32, most: usize) -> Option<&'m Avp<'a>>
    ensures { option_copied result ≡ beyond avps.now code most }
{
    avps.iter().filter(|avp| avp.has_code(code)).nth(most)
}

/// Whether there are more AVPs of a row's code than there may be.
fn is_over(avps: &[Avp<'_>], row: &Row) -> bool
    ensures { result ≡ is_over avps.now row.now }
{
    let count = count_of(avps, row.0);
    row.1.most().map_or(false, |most| most < count)
}

/// The first AVP of a row's code beyond the most that there may be.
fn row_beyond<'m, 'a>(avps: &'m [Avp<'a>], row: &Row) -> Option<&'m Avp<'a>>
    ensures { option_copied result ≡ row_beyond avps.now row.now }
{
    beyond(avps, row.0, row.1.most()?)
}

/// The first row of which there are too many.
fn first_over<'t>(table: &'t [Row], avps: &[Avp<'_>]) -> Option<&'t Row>
    ensures { option_copied result ≡ find (is_over avps.now) table.now }
{
    table.iter().find(|row| is_over(avps, row))
}

/// The refusal of the first AVP beyond the most, by the table's rows.
fn too_many_in<'a>(table: &[Row], avps: &[Avp<'a>]) -> Option<Refused<'a>>
    ensures { result ≡ too_many_in table.now avps.now }
{
    let avp = row_beyond(avps, first_over(table, avps)?)?;
    Some(Refused::one(Cause::AvpOccursTooManyTimes, avp.copy()))
}

/// How many AVPs have a code and no vendor.
pub(crate) fn count_of(avps: &[Avp<'_>], code: u32) -> usize
    ensures { result ≡ count_by (has_code code) avps.now }
{
    avps.iter().filter(|avp| avp.has_code(code)).count()
}

/// Whether there are fewer AVPs of a row's code than there have to be.
fn is_lacking(avps: &[Avp<'_>], row: &Row) -> bool
    ensures { result ≡ is_lacking avps.now row.now }
{
    count_of(avps, row.0) < row.1.least()
}

/// The AVP that stands for a missing one.
fn missing_avp(code: u32) -> Avp<'static>
    ensures { result ≡ missing_avp code }
{
    let flags = if code == codes::PRODUCT_NAME {
        0
    } else {
        flags::MANDATORY
    };
    Avp::new(code, flags, least_data(code))
}

/// The refusal of a request without a required AVP of this code: `MissingAvp`, with the AVP that stands for it.
pub fn missing(code: u32) -> Refused<'static>
    ensures { result ≡ refusal MissingAvp (missing_avp code) }
{
    Refused::one(Cause::MissingAvp, missing_avp(code))
}

/// The refusal of the first row of which there are too few.
fn missing_in<'a>(table: &[Row], avps: &[Avp<'a>]) -> Option<Refused<'a>>
    ensures { result ≡ missing_in table.now avps.now }
{
    table
        .iter()
        .find(|row| is_lacking(avps, row))
        .map(|row| missing(row.0))
}

impl Check {
    /// The fault that the check finds in a list.
    #[tactic(auto, unfolding(crate::specs::Checks::fault_in))]
    fn fault_in<'a>(self, table: &[Row], avps: &[Avp<'a>]) -> Option<Refused<'a>>
        ensures { result ≡ fault_in self table.now avps.now }
    {
        match self {
            Check::Unknown => unknown_in(avps),
            Check::TooMany => too_many_in(table, avps),
            Check::Missing => missing_in(table, avps),
        }
    }

    /// The fault in the list of a walked group.
    fn fault_of<'a>(self, list: &List<'a>) -> Option<Refused<'a>>
        ensures { result ≡ fault_of self list.now }
    {
        self.fault_in(table_of(list.code()), list.avps())
    }

    /// The fault in the first of several lists that has any.
    fn fault_in_lists<'a>(self, lists: &[List<'a>]) -> Option<Refused<'a>>
        ensures { result ≡ first_some (fault_of self) lists.now }
    {
        for list in lists {
            if let Some(refused) = self.fault_of(list) {
                return Some(refused);
            }
        }
        None
    }

    /// The fault in a walked group, or else in the groups inside it.
    fn fault_in_group<'a>(self, group: &Group<'a>) -> Option<Refused<'a>>
        ensures { result ≡ fault_in_group self group.now }
    {
        match self.fault_of(group.list()) {
            Some(refused) => Some(refused),
            None => self.fault_in_lists(group.inside()),
        }
    }

    /// The fault in the first of the walked groups that has any.
    fn fault_in_groups<'a>(self, groups: &[Group<'a>]) -> Option<Refused<'a>>
        ensures { result ≡ first_some (fault_in_group self) groups.now }
    {
        for group in groups {
            if let Some(refused) = self.fault_in_group(group) {
                return Some(refused);
            }
        }
        None
    }

    /// The fault in the message's list, or else in the walked groups.
    #[tactic(auto, unfolding(crate::specs::Checks::fault_anywhere))]
    fn fault_anywhere<'a>(
        self,
        table: &[Row],
        avps: &[Avp<'a>],
        groups: &[Group<'a>],
    ) -> Option<Refused<'a>>
        ensures { result ≡ fault_anywhere table.now avps.now groups.now self }
    {
        match self.fault_in(table, avps) {
            Some(refused) => Some(refused),
            None => self.fault_in_groups(groups),
        }
    }
}

/// The first fault of the checks that count AVPs. If all lists fit, each row is counted once.
fn count_fault<'a>(table: &[Row], avps: &[Avp<'a>], groups: &[Group<'a>]) -> Option<Refused<'a>>
    ensures { result ≡ first_some (fault_anywhere table.now avps.now groups.now) (TooMany ∷ Missing ∷ []) }
{
    if all_fit(table, avps, groups) {
        return None;
    }
    for check in [Check::TooMany, Check::Missing] {
        if let Some(refused) = check.fault_anywhere(table, avps, groups) {
            return Some(refused);
        }
    }
    None
}

/// The first fault: each check is made over the whole message before the next.
pub(crate) fn first_fault<'a>(
    table: &[Row],
    avps: &[Avp<'a>],
    groups: &[Group<'a>],
) -> Option<Refused<'a>>
    ensures { result ≡ first_fault table.now avps.now groups.now }
{
    match Check::Unknown.fault_anywhere(table, avps, groups) {
        Some(refused) => Some(refused),
        None => count_fault(table, avps, groups),
    }
}
