//! The accounts of a shard's subscribers. An act of a subscriber is prepared, and then installed. Only the preparation can be refused,
//! and it changes no held act. The acts of all other subscribers stay as they were.

ghost use Rattle.std.specs.Prelude.{◌≡◌, ◌≢◌, ◌<◌, ◌≤◌, ◌+◌, ◌==◌, ◌↔◌, [], true, false, Some, IfOk, OnOk, IfSome, IfNone, if◌then◌else◌};
ghost use Rattle.indexmap.specs.IndexMap.{spare};
ghost use Rattle.dcc_act.specs.Subs.{same_sub};
ghost use Rattle.std.specs.List.{list_all};
ghost use Rattle.std.specs.List.Sorted.{IsStrictlySortedBy};
ghost use Rattle.std.specs.Map.{keys_of};
ghost use Rattle.dcc_act.specs.declared.sub.Sub.{Sub};
ghost use Rattle.dcc_model.specs.Outcomes.{acts};
ghost use Rattle.dcc_store.specs.Books.{sub_order};
ghost use Rattle.dcc_shard.specs.Shards.{account_in, held_in, is_among};
ghost use Rattle.dcc_shard.specs.Routes.{shard_of};
ghost use Rattle.dcc_shard.specs.inner.Books.{IsStepOfBooks, StayApart};
ghost use Rattle.dcc_shard.specs.inner.Pending.{step_of, Stands, IsPending};

use crate::pending::Pending;
use crate::route::shard_of;
use dcc_account::Account;
use dcc_act::{Act, Sub, same_subscribers_are_equal};
use dcc_model::{leaving_out_changes_nothing, one_more_act};
use dcc_tariff::Terms;
use indexmap::IndexMap;
use std::alloc::{AllocError, Global};
use std::hash::RandomState;
use std::marker::Model;

/// The accounts of the subscribers, each with at least one act, and the terms by which all of them are judged. A subscriber is
/// found by a hash that nobody outside can know beforehand.
#[derive(Drop)]
pub(crate) struct Books {
    terms: Terms,
    accounts: IndexMap<Sub, Account, RandomState>,
}

impl Model for Books {
    ghost use Rattle.indexmap.specs.IndexMap.{spare};
    ghost use Rattle.dcc_shard.specs.inner.Books.{BooksView, AreBooks};

    ghost Value = { BooksView };

    ghost view = { λ b. record { terms = b.terms; rows = b.accounts.entries; room = spare b.accounts } };

    ghost invariant = { λ b. AreBooks b.accounts.entries b.terms };
}

impl Books {
    /// Books without accounts. It takes no memory.
    pub(crate) fn new(alloc: Global, terms: &Terms, hasher: RandomState) -> Books
        ensures terms { result.terms ≡ terms.now }
        ensures rows { result.rows ≡ [] }
    {
        leaving_out_changes_nothing();
        Books {
            terms: *terms,
            accounts: IndexMap::with_hasher(alloc, hasher),
        }
    }

    /// The subscribers of the accounts, each once, in their order. The only error is want of memory.
    pub(crate) fn subs(&self, alloc: Global) -> Result<Vec<Sub>, AllocError>
        ensures order { IfOk result (λ subs. IsStrictlySortedBy sub_order subs.items) }
        ensures some { IfOk result (λ subs. (sub : Sub) → is_among sub subs.items ≡ true → held_in self.now.rows sub ≢ []) }
        ensures none { IfOk result (λ subs. (sub : Sub) → is_among sub subs.items ≡ false → held_in self.now.rows sub ≡ []) }
    {
        let mut subs = Vec::with_capacity(alloc, self.accounts.len())?;
        for sub in self.accounts.keys() {
            subs.push_reserved(*sub);
        }
        subs.sort()?;
        Ok(subs)
    }

    /// Whether [`shard_of`] gives each subscriber of the accounts the shard of this index, of so many shards.
    pub(crate) fn are_placed(&self, index: usize, count: usize) -> bool
        requires { 0 < count }
        ensures { result ≡ true ↔ ((sub : Sub) → held_in self.now.rows sub ≢ [] → shard_of sub count ≡ index) }
    {
        same_subscribers_are_equal();
        let _accounts = &self.accounts;
        self.keys_are_placed(index, count)
    }

    /// The same by the keys of the accounts.
    fn keys_are_placed(&self, index: usize, count: usize) -> bool
        requires { 0 < count }
        ensures { result ≡ list_all (λ sub. shard_of sub count == index) (keys_of self.now.rows) }
    {
        for sub in self.accounts.keys() {
            if shard_of(sub, count) != index {
                return false;
            }
        }
        true
    }

    /// The terms by which the accounts are judged.
    pub(crate) fn terms(&self) -> &Terms
        ensures { result.now ≡ self.now.terms }
    {
        &self.terms
    }

    /// Does nothing: the held acts of each subscriber are exactly those that their own list makes.
    pub(crate) fn acts_are_own(&self)
        ensures { (sub : Sub) → acts self.now.terms (held_in self.now.rows sub) ≡ held_in self.now.rows sub }
    {
        let _accounts = &self.accounts;
    }

    /// The account of a subscriber, if there is one: if an act of the subscriber was made.
    pub(crate) fn account(&self, sub: &Sub) -> Option<&Account>
        ensures terms { IfSome result (λ account. account.now.terms ≡ self.now.terms) }
        ensures acts { IfSome result (λ account. account.now.acts ≡ held_in self.now.rows sub.now) }
        ensures some { IfSome result (λ account. account.now.acts ≢ []) }
        ensures none { IfNone result (held_in self.now.rows sub.now ≡ []) }
    {
        self.accounts.get(sub)
    }

    /// Takes the memory for this number of further accounts. The only error is want of memory.
    pub(crate) fn make_room(&mut self, number: usize) -> Result<(), AllocError>
        ensures room { OnOk result (number ≤ self.new.room) }
        ensures kept { self.old.room ≤ self.new.room }
        ensures terms { self.new.terms ≡ self.old.terms }
        ensures rows { self.new.rows ≡ self.old.rows }
    {
        self.accounts.reserve(number)
    }

    /// Prepares an act of a subscriber, who has an account or none. A new account has memory for this number of acts. The only error is
    /// want of memory. The room stays, also after the error.
    pub(crate) fn prepare(
        &mut self,
        alloc: Global,
        sub: &Sub,
        act: Act,
        acts: usize,
    ) -> Result<Pending, AllocError>
        ensures pending { IfOk result (IsPending self.new sub.now act) }
        ensures terms { self.new.terms ≡ self.old.terms }
        ensures rows { self.new.rows ≡ self.old.rows }
        ensures room { self.old.room ≤ self.new.room }
    {
        if let Some(account) = self.accounts.get(sub) {
            let step = account.prepare(act)?;
            return Ok(Pending::Known { step });
        }
        if let Err(error) = self.accounts.reserve(1) {
            // By a call, here and below: values that are let go in place are proved part by part.
            drop(act);
            return Err(error);
        }
        let account = match Account::with_room(alloc, &self.terms, *self.accounts.hasher(), acts) {
            Ok(account) => account,
            Err(error) => {
                drop(act);
                return Err(error);
            }
        };
        let step = match account.prepare(act) {
            Ok(step) => step,
            Err(error) => {
                drop(account);
                return Err(error);
            }
        };
        Ok(Pending::First { account, step })
    }

    /// Installs a step that was prepared. It takes no memory, and uses the room for one account at most. The accounts of other subscribers
    /// stay.
    pub(crate) fn install(&mut self, sub: Sub, pending: Pending)
        requires { Stands self.old sub pending }
        ensures step { IsStepOfBooks self.old self.new sub (step_of pending).act }
        ensures others { StayApart self.old.rows self.new.rows sub }
        ensures room { self.old.room ≤ self.new.room + 1 }
    {
        leaving_out_changes_nothing();
        one_more_act();
        same_subscribers_are_equal();
        match pending {
            Pending::Known { step } => {
                let account = self.accounts.get_mut(&sub).unwrap();
                account.install(step);
            }
            Pending::First { account, step } => {
                let mut account = account;
                account.install(step);
                if has_acts(&account) {
                    add(&mut self.accounts, sub, account);
                } else {
                    // By a call: an account that is let go in place is proved part by part.
                    drop(account);
                }
            }
        }
    }
}

/// Whether an act of the account was made.
fn has_acts(account: &Account) -> bool
    ensures some { result ≡ true → account.now.acts ≢ [] }
    ensures none { result ≡ false → account.now.acts ≡ [] }
{
    account.acts().len() > 0
}

/// Adds an account, for which there is room. It takes no memory.
fn add(accounts: &mut IndexMap<Sub, Account, RandomState>, sub: Sub, account: Account)
    requires { 0 < spare accounts.old }
    ensures added { (other : Sub) → account_in accounts.new.entries other
        ≡ (if same_sub sub other then Some account else account_in accounts.old.entries other) }
    ensures room { spare accounts.old ≤ spare accounts.new + 1 }
{
    // By a call: an account that is let go in place is proved part by part.
    drop(accounts.insert(sub, account).unwrap());
}
