//! Whether all lists of a message have the AVPs that their tables require and no more. Most messages fit, and one count of
//! each row shows it.

ghost use Rattle.std.specs.Prelude.{◌≡◌};
ghost use Rattle.std.specs.List.{list_all};
ghost use Rattle.dcc_request.specs.inner.Fits.{row_fits, fits, list_fits, group_fits, all_fit};

use crate::checks::count_of;
use crate::table::{Row, table_of};
use crate::walk::{Group, List};
use dcc_avp::Avp;

/// Whether there are neither too few nor too many AVPs of a row's code, by one count.
fn row_fits(avps: &[Avp<'_>], row: &Row) -> bool
    ensures { result ≡ row_fits avps.now row.now }
{
    let count = count_of(avps, row.0);
    row.1.least() <= count && row.1.most().map_or(true, |most| count <= most)
}

/// Whether all rows of a table fit a list.
#[tactic(auto, unfolding(crate::specs::inner::Fits::fits))]
fn fits(table: &[Row], avps: &[Avp<'_>]) -> bool
    ensures { result ≡ fits table.now avps.now }
{
    table.iter().all(|row| row_fits(avps, row))
}

/// Whether the list of a walked group fits its own table.
fn list_fits(list: &List<'_>) -> bool
    ensures { result ≡ list_fits list.now }
{
    fits(table_of(list.code()), list.avps())
}

/// Whether the lists of these walked groups fit their own tables.
fn lists_fit(lists: &[List<'_>]) -> bool
    ensures { result ≡ list_all list_fits lists.now }
{
    lists.iter().all(|list| list_fits(list))
}

/// Whether the lists of a group and of the groups inside it fit.
#[tactic(auto, unfolding(crate::specs::inner::Fits::group_fits))]
fn group_fits(group: &Group<'_>) -> bool
    ensures { result ≡ group_fits group.now }
{
    list_fits(group.list()) && lists_fit(group.inside())
}

/// Whether the lists of these groups, and of the groups inside them, fit.
fn groups_fit(groups: &[Group<'_>]) -> bool
    ensures { result ≡ list_all group_fits groups.now }
{
    groups.iter().all(|group| group_fits(group))
}

/// Whether the message's list and the lists of all walked groups fit.
#[tactic(auto, unfolding(crate::specs::inner::Fits::all_fit))]
pub(crate) fn all_fit(table: &[Row], avps: &[Avp<'_>], groups: &[Group<'_>]) -> bool
    ensures { result ≡ all_fit table.now avps.now groups.now }
{
    fits(table, avps) && groups_fit(groups)
}
