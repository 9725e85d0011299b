//! One page, judged.

ghost use Rattle.std.specs.Prelude.{◌≢◌, ◌+◌, ◌^◌, ◌<◌, ◌≤◌, List, None, length, take, IfSome, ◌≡◌, ◌↔◌, true, false, [], ◌∷◌, ◌++◌, IfOk, OnOk};
ghost use Rattle.dcc_model.specs.Outcomes.{acts, funds};
ghost use Rattle.sqlite.specs.Order.{Row as Values};
ghost use Rattle.dcc_sqlite_rows.specs.Rows.{sub_octets};
ghost use Rattle.dcc_sqlite_rows.specs.Pages.{IsOwn, page_entry_rows};
ghost use Rattle.dcc_sqlite_rows.specs.Tallies.{tally_of};
ghost use Rattle.dcc_sqlite_rows.specs.inner.Judged.{IsTaken, IsOther};

use crate::entries::begin_with;
use crate::tally::Tally;
use dcc_account::Account;
use dcc_act::{Act, Sub};
use dcc_model::{leaving_out_changes_nothing, one_more_act};
use dcc_store::Page;
use dcc_tariff::Terms;
use sqlite::Row;
use std::alloc::{AllocError, Global};
use std::hash::RandomState;

/// Whether the acts of a page are exactly those that its own list makes. The only error is want of memory.
pub fn is_own(
    alloc: Global,
    terms: &Terms,
    hasher: RandomState,
    page: &Page,
) -> Result<bool, AllocError>
    ensures { IfOk result (λ own. own ≡ true ↔ IsOwn terms.now page.now) }
{
    one_more_act();
    leaving_out_changes_nothing();
    let mut account = Account::new(alloc, terms, hasher);
    let acts = page.acts();
    for act in acts {
        if !make(&mut account, act)? {
            return Ok(false);
        }
    }
    acts_are_own(&account);
    Ok(true)
}

/// Makes an act if it is new, and returns whether it is new. The only error is want of memory.
fn make(account: &mut Account, act: &Act) -> Result<bool, AllocError>
    ensures terms { OnOk result (account.new.terms ≡ account.old.terms) }
    ensures new { IfOk result (λ new. new ≡ true → account.new.acts ≡ account.old.acts ++ act.now ∷ []) }
    ensures old { IfOk result (λ new. new ≡ false → acts account.old.terms (account.old.acts ++ act.now ∷ []) ≡ account.old.acts) }
{
    let step = account.prepare(act.copy()?)?;
    let is_new = step.is_new();
    account.install(step);
    Ok(is_new)
}

/// Does nothing: the acts of an account are exactly those that their own list makes.
fn acts_are_own(account: &Account)
    ensures { acts account.now.terms account.now.acts ≡ account.now.acts }
{
    let _acts = account.acts();
}

/// The result of a page's judgement.
#[derive(Clone, Copy)]
pub(crate) struct Judged {
    /// The number of the page's rows of entries.
    pub rows: usize,
    /// The number of its acts, and its funds.
    pub tally: Tally,
}

/// Judges a page by its acts, and by rows of entries that have to begin with the page's own. None if the acts aren't exactly those that
/// their own list makes, or if the rows begin with others. The only error is want of memory.
pub(crate) fn judge_page(
    alloc: Global,
    terms: &Terms,
    hasher: RandomState,
    page: &Page,
    rows: &[Row],
) -> Result<Option<Judged>, AllocError>
    ensures own { IfOk result (λ found. IfSome found (λ judged. IsOwn terms.now page.now)) }
    ensures rows { IfOk result (λ found. IfSome found (λ judged. take judged.rows rows.now ≡ page_entry_rows terms.now page.now)) }
    ensures within { IfOk result (λ found. IfSome found (λ judged. judged.rows ≤ length rows.now)) }
    ensures tally { IfOk result (λ found. IfSome found (λ judged. judged.tally ≡ tally_of terms.now page.now)) }
    ensures none { IfOk result (λ found. found ≡ None → IsOwn terms.now page.now
        → (rest : List Values) → rows.now ≢ page_entry_rows terms.now page.now ++ rest) }
{
    one_more_act();
    leaving_out_changes_nothing();
    let sub = page.sub();
    let acts = page.acts();
    let mut account = Account::new(alloc, terms, hasher);
    let end = rows.len();
    let mut at = 0;
    for i in 0..acts.len() {
        let Some(count) = judge_act(&mut account, sub, &acts[i], &rows[at..end])? else {
            return Ok(None);
        };
        at += count;
    }
    acts_are_own(&account);
    let tally = tally_of(&account);
    Ok(Some(Judged { rows: at, tally }))
}

/// Makes an act if it is new. It returns the number of the act's entries if the act is new and the rows begin with the rows of these
/// entries, and otherwise none. The only error is want of memory.
fn judge_act(
    account: &mut Account,
    sub: Sub,
    act: &Act,
    rows: &[Row],
) -> Result<Option<usize>, AllocError>
    ensures terms { OnOk result (account.new.terms ≡ account.old.terms) }
    ensures acts { IfOk result (λ found. IfSome found (λ count. account.new.acts ≡ account.old.acts ++ act.now ∷ [])) }
    ensures taken { IfOk result (λ found. IfSome found (λ count. IsTaken account.old.terms (sub_octets sub) account.old.acts act.now rows.now count)) }
    ensures other { IfOk result (λ found. found ≡ None → IsOther account.old.terms (sub_octets sub) account.old.acts act.now rows.now) }
{
    let place = count_of(account) + 1;
    let step = account.prepare(act.copy()?)?;
    let count = step.entries().len();
    let begins = begin_with(rows, sub, place, step.entries());
    let is_new = step.is_new();
    account.install(step);
    if is_new && begins {
        Ok(Some(count))
    } else {
        Ok(None)
    }
}

/// The number of acts of an account.
fn count_of(account: &Account) -> u64
    ensures value { result ≡ length account.now.acts }
    ensures small { result < 2 ^ 63 }
{
    account.acts().len() as u64
}

/// The number of acts and the funds of an account.
fn tally_of(account: &Account) -> Tally
    ensures { result ≡ record { acts = length account.now.acts; funds = funds account.now.terms account.now.acts } }
{
    Tally {
        acts: count_of(account),
        funds: i64::try_from(account.funds()).unwrap(),
    }
}
