//! The rows of a store that is opened, judged.

ghost use Rattle.std.specs.Prelude.{◌≡◌, ◌⊎◌, All, List, map, Err, IfOk, OnOk, OnErr};
ghost use Rattle.std.specs.List.{AllByRecursion};
ghost use Rattle.dcc_act_codec.specs.Limits.{IsAct};
ghost use Rattle.dcc_store.specs.Books.{PageView, acts_in};
ghost use Rattle.dcc_sqlite_rows.specs.Pages.{IsSub, IsOwn, book_entry_rows, book_account_rows};
ghost use Rattle.dcc_sqlite_rows.specs.Stored.{line_row, IsDamaged, AreOfBook};
ghost use Rattle.dcc_sqlite_store.specs.inner.Tallies.{AreTallies};

use crate::fault::OpenFault;
use crate::tally::tallies_of;
use dcc_act::Sub;
use dcc_sqlite_rows::{Line, ReadFault, Tally, are_of_subs, book_of, judge, read_lines};
use dcc_store::Page;
use dcc_tariff::Terms;
use sqlite::Row;
use std::alloc::{AllocError, Global};
use std::collections::BTreeMap;
use std::hash::RandomState;

/// The tallies of the book whose rows these are, of the tables of acts, of entries and of accounts, each in the order of its
/// key.
///
/// Errors: [`OpenFault::Memory`]; [`OpenFault::Damaged`], a row is no act's, or is of nobody; [`OpenFault::Disagree`], no row
/// is damaged, and they are not those of a book under these terms.
///
/// The rows of acts end once their lines are read, so memory holds no act more than twice.
pub fn judge_rows(
    alloc: Global,
    terms: &Terms,
    hasher: RandomState,
    acts: Vec<Row>,
    entries: &[Row],
    accounts: &[Row],
) -> Result<BTreeMap<Sub, Tally>, OpenFault>
    ensures book { IfOk result (λ tallies. (pages : List PageView)
        × AreOfBook terms.now pages (record { acts = acts.items; entries = entries.now; accounts = accounts.now })
        × AreTallies terms.now tallies.entries (acts_in pages)) }
    ensures damaged { result ≡ Err OpenFault.Damaged → IsDamaged (record { acts = acts.items; entries = entries.now; accounts = accounts.now }) }
    ensures disagree { result ≡ Err OpenFault.Disagree
        → (¬ IsDamaged (record { acts = acts.items; entries = entries.now; accounts = accounts.now }))
        × ((pages : List PageView) → ¬ AreOfBook terms.now pages (record { acts = acts.items; entries = entries.now; accounts = accounts.now })) }
    ensures faults { OnErr result ((result ≡ Err OpenFault.Memory) ⊎ ((result ≡ Err OpenFault.Damaged) ⊎ (result ≡ Err OpenFault.Disagree))) }
{
    let lines = lines_in(alloc, acts, entries, accounts)?;
    judge_lines(alloc, terms, hasher, lines, entries, accounts)
}

/// The lines of the rows of acts, where no row is damaged.
fn lines_in(
    alloc: Global,
    acts: Vec<Row>,
    entries: &[Row],
    accounts: &[Row],
) -> Result<Vec<Line>, OpenFault>
    ensures lines { IfOk result (λ lines. acts.items ≡ map line_row lines.items) }
    ensures subs { IfOk result (λ lines. All (λ line. IsSub line.sub) lines.items) }
    ensures fit { IfOk result (λ lines. All (λ line. IsAct line.act) lines.items) }
    ensures whole { OnOk result (¬ IsDamaged (record { acts = acts.items; entries = entries.now; accounts = accounts.now })) }
    ensures damaged { result ≡ Err OpenFault.Damaged → IsDamaged (record { acts = acts.items; entries = entries.now; accounts = accounts.now }) }
    ensures faults { OnErr result ((result ≡ Err OpenFault.Memory) ⊎ (result ≡ Err OpenFault.Damaged)) }
{
    let read = read_lines(alloc, &acts);
    drop(acts);
    let lines = match read {
        Ok(lines) => lines,
        Err(ReadFault::Memory) => return Err(OpenFault::Memory),
        Err(ReadFault::Damaged) => return Err(OpenFault::Damaged),
    };
    if !are_of_subs(entries) {
        return Err(OpenFault::Damaged);
    }
    if !are_of_subs(accounts) {
        return Err(OpenFault::Damaged);
    }
    Ok(lines)
}

/// The tallies of the book of these lines, whose rows of entries and of accounts these are.
fn judge_lines(
    alloc: Global,
    terms: &Terms,
    hasher: RandomState,
    lines: Vec<Line>,
    entries: &[Row],
    accounts: &[Row],
) -> Result<BTreeMap<Sub, Tally>, OpenFault>
    requires subs { All (λ line. IsSub line.sub) lines.items }
    requires fit { All (λ line. IsAct line.act) lines.items }
    ensures book { IfOk result (λ tallies. (pages : List PageView)
        × AreOfBook terms.now pages (record { acts = map line_row lines.items; entries = entries.now; accounts = accounts.now })
        × AreTallies terms.now tallies.entries (acts_in pages)) }
    ensures disagree { result ≡ Err OpenFault.Disagree
        → (pages : List PageView) → ¬ AreOfBook terms.now pages (record { acts = map line_row lines.items; entries = entries.now; accounts = accounts.now }) }
    ensures faults { OnErr result ((result ≡ Err OpenFault.Memory) ⊎ (result ≡ Err OpenFault.Disagree)) }
{
    let Some(book) = book_of(alloc, lines)? else {
        return Err(OpenFault::Disagree);
    };
    judge_pages(alloc, terms, hasher, book.as_slice(), entries, accounts)
}

/// The tallies of pages whose acts are those that each list itself makes, and whose rows of entries and of accounts these are.
fn judge_pages(
    alloc: Global,
    terms: &Terms,
    hasher: RandomState,
    pages: &[Page],
    entries: &[Row],
    accounts: &[Row],
) -> Result<BTreeMap<Sub, Tally>, OpenFault>
    ensures own { OnOk result (AllByRecursion (IsOwn terms.now) pages.now) }
    ensures entries { OnOk result (entries.now ≡ book_entry_rows terms.now pages.now) }
    ensures accounts { OnOk result (accounts.now ≡ book_account_rows terms.now pages.now) }
    ensures tallies { IfOk result (λ tallies. AreTallies terms.now tallies.entries (acts_in pages.now)) }
    ensures disagree { result ≡ Err OpenFault.Disagree → AllByRecursion (IsOwn terms.now) pages.now
        → ¬ ((entries.now ≡ book_entry_rows terms.now pages.now) × (accounts.now ≡ book_account_rows terms.now pages.now)) }
    ensures faults { OnErr result ((result ≡ Err OpenFault.Memory) ⊎ (result ≡ Err OpenFault.Disagree)) }
{
    match judge(alloc, terms, hasher, pages, entries, accounts)? {
        Some(counts) => Ok(tallies_of(alloc, pages, &counts)?),
        None => Err(OpenFault::Disagree),
    }
}

impl From<AllocError> for OpenFault {
    ghost use Rattle.std.specs.Prelude.{◌≡◌};
    ghost use Rattle.dcc_sqlite_store.specs.declared.fault.OpenFault.TheVariants.{Memory};

    ghost from_gives = { λ _ fault. fault ≡ Memory };

    fn from(_error: AllocError) -> OpenFault {
        OpenFault::Memory
    }
}
