//! The versions of the groups' tariffs, kept in order.

ghost use Rattle.std.specs.Prelude.{◌≡◌, true, option_copied, filter, Some, IfSome};
ghost use Rattle.std.specs.List.{find};
ghost use Rattle.dcc_tariff.specs.Plans.{precedes, agrees, are_ordered, all_agree, is_of, has_begun, latest};

use crate::tariff::{Tariff, UnitKind};

/// One version of a rating group's tariff.
#[derive(Clone, Copy, Debug, PartialEq, Eq)]
pub struct Version {
    /// The Rating-Group (RFC 8506, section 8.29).
    pub group: u32,
    /// The unit that the group counts, the same in each version of the group.
    pub unit: UnitKind,
    /// The moment from which the version holds, in seconds since 1970.
    pub from: u64,
    /// The price of units from then on, until the next version of the group.
    pub tariff: Tariff,
}

impl Version {
    /// Whether this version stands before the other: by group, and in a group by the moment from which they hold.
    pub(crate) fn precedes(&self, other: &Version) -> bool
        ensures { result ≡ precedes self.now other.now }
    {
        self.group < other.group || self.group == other.group && self.from < other.from
    }

    /// Whether this version belongs to the group, and holds at the moment or held before it.
    fn has_begun(&self, group: u32, moment: u64) -> bool
        ensures { result ≡ has_begun group moment self.now }
    {
        self.group == group && self.from <= moment
    }

    /// Whether the two versions agree: versions of one group count the same unit and hold from different moments.
    pub(crate) fn agrees_with(&self, other: &Version) -> bool
        ensures { result ≡ agrees self.now other.now }
    {
        self.group != other.group || self.unit == other.unit && self.from != other.from
    }
}

/// Whether each two of the versions agree.
pub(crate) fn agree(versions: &[Version]) -> bool
    requires { are_ordered versions.now ≡ true }
    ensures { result ≡ all_agree versions.now }
{
    for i in 1..versions.len() {
        if !versions[i - 1].agrees_with(&versions[i]) {
            return false;
        }
    }
    true
}

/// The first version of the group, if there is any.
pub(crate) fn version_of_group(versions: &[Version], group: u32) -> Option<&Version>
    requires { are_ordered versions.now ≡ true }
    ensures { option_copied result ≡ find (is_of group) versions.now }
{
    let start = versions.partition_point(|version| version.group < group);
    let first = versions[start..].first()?;
    if first.group == group {
        Some(first)
    } else {
        None
    }
}

/// The version at a place, if it is the version of the group that holds at the moment.
fn version_if(versions: &[Version], place: u16, group: u32, moment: u64) -> Option<&Version>
    requires { are_ordered versions.now ≡ true }
    ensures { IfSome result (λ version. latest (filter (has_begun group moment) versions.now) ≡ Some version.now) }
{
    let place = place as usize;
    let version = versions.get(place)?;
    if !version.has_begun(group, moment) {
        return None;
    }
    if let Some(next) = versions.get(place + 1) {
        if next.has_begun(group, moment) {
            return None;
        }
    }
    Some(version)
}

/// The version of the group that holds at the moment. The version at the place is tested first, and then the versions
/// are searched by halving: the place changes the time alone.
pub(crate) fn version_at(
    versions: &[Version],
    place: u16,
    group: u32,
    moment: u64,
) -> Option<&Version>
    requires { are_ordered versions.now ≡ true }
    ensures { option_copied result ≡ latest (filter (has_begun group moment) versions.now) }
{
    if let Some(version) = version_if(versions, place, group, moment) {
        return Some(version);
    }
    // A processor can't predict the outcome of the test, so a branch on it would cost more than both halves of it.
    let end = versions.partition_point(|version| {
        (version.group < group) | (version.group == group) & (version.from <= moment)
    });
    let last = versions[..end].last()?;
    if last.group == group {
        Some(last)
    } else {
        None
    }
}
