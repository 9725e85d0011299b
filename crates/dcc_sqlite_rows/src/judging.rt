//! Pages, judged.

ghost use Rattle.std.specs.Prelude.{◌≡◌, ◌≢◌, ◌↔◌, true, length, map, None, IfOk, IfSome};
ghost use Rattle.std.specs.List.{AllByRecursion};
ghost use Rattle.dcc_sqlite_rows.specs.Pages.{IsOwn, book_entry_rows, book_account_rows};
ghost use Rattle.dcc_sqlite_rows.specs.Tallies.{tally_of, account_rows_by};

use crate::entries::is_account_row;
use crate::page::{is_own, judge_page};
use crate::tally::Tally;
use dcc_store::Page;
use dcc_tariff::Terms;
use sqlite::Row;
use std::alloc::{AllocError, Global};
use std::hash::RandomState;

/// Whether the acts of each page are exactly those that its own list makes. The only error is want of memory.
pub fn are_own(
    alloc: Global,
    terms: &Terms,
    hasher: RandomState,
    pages: &[Page],
) -> Result<bool, AllocError>
    ensures { IfOk result (λ own. own ≡ true ↔ AllByRecursion (IsOwn terms.now) pages.now) }
{
    for page in pages {
        if !is_own(alloc, terms, hasher, page)? {
            return Ok(false);
        }
    }
    Ok(true)
}

/// The tallies of pages. None if the acts of a page aren't exactly those that its own list makes, or if the rows of entries or of
/// accounts aren't exactly the rows of these pages. The only error is want of memory.
#[tactic(auto, using(crate::proofs::Judgements::accounts_by))]
pub fn judge(
    alloc: Global,
    terms: &Terms,
    hasher: RandomState,
    pages: &[Page],
    entries: &[Row],
    accounts: &[Row],
) -> Result<Option<Vec<Tally>>, AllocError>
    ensures own { IfOk result (λ found. IfSome found (λ tallies. AllByRecursion (IsOwn terms.now) pages.now)) }
    ensures entries { IfOk result (λ found. IfSome found (λ tallies. entries.now ≡ book_entry_rows terms.now pages.now)) }
    ensures accounts { IfOk result (λ found. IfSome found (λ tallies. accounts.now ≡ book_account_rows terms.now pages.now)) }
    ensures tallies { IfOk result (λ found. IfSome found (λ tallies. tallies.items ≡ map (tally_of terms.now) pages.now)) }
    ensures none { IfOk result (λ found. found ≡ None → AllByRecursion (IsOwn terms.now) pages.now
        → ¬ ((entries.now ≡ book_entry_rows terms.now pages.now) × (accounts.now ≡ book_account_rows terms.now pages.now))) }
{
    let Some(tallies) = judge_pages(alloc, terms, hasher, pages, entries)? else {
        return Ok(None);
    };
    if !are_accounts(accounts, pages, &tallies) {
        return Ok(None);
    }
    Ok(Some(tallies))
}

/// The same without a look at the rows of accounts.
fn judge_pages(
    alloc: Global,
    terms: &Terms,
    hasher: RandomState,
    pages: &[Page],
    entries: &[Row],
) -> Result<Option<Vec<Tally>>, AllocError>
    ensures own { IfOk result (λ found. IfSome found (λ tallies. AllByRecursion (IsOwn terms.now) pages.now)) }
    ensures entries { IfOk result (λ found. IfSome found (λ tallies. entries.now ≡ book_entry_rows terms.now pages.now)) }
    ensures tallies { IfOk result (λ found. IfSome found (λ tallies. tallies.items ≡ map (tally_of terms.now) pages.now)) }
    ensures none { IfOk result (λ found. found ≡ None → AllByRecursion (IsOwn terms.now) pages.now → entries.now ≢ book_entry_rows terms.now pages.now) }
{
    let end = entries.len();
    let mut tallies = Vec::with_capacity(alloc, pages.len())?;
    let mut at = 0;
    for i in 0..pages.len() {
        let Some(judged) = judge_page(alloc, terms, hasher, &pages[i], &entries[at..end])? else {
            return Ok(None);
        };
        at += judged.rows;
        tallies.push(judged.tally)?;
    }
    if at != entries.len() {
        return Ok(None);
    }
    Ok(Some(tallies))
}

/// Whether the rows are the rows of the accounts of pages that have these tallies.
fn are_accounts(accounts: &[Row], pages: &[Page], tallies: &[Tally]) -> bool
    requires { length tallies.now ≡ length pages.now }
    ensures { result ≡ true ↔ accounts.now ≡ account_rows_by pages.now tallies.now }
{
    if accounts.len() != pages.len() {
        return false;
    }
    for i in 0..pages.len() {
        if !is_account_row(&accounts[i], pages[i].sub(), tallies[i]) {
            return false;
        }
    }
    true
}
