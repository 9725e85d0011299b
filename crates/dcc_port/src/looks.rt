//! Looks at a shard under its lock.

ghost use Rattle.std.specs.Prelude.{◌≡◌, ◌≢◌, [], Some, IfOk, option_map};
ghost use Rattle.dcc_port.specs.Found.{IsFoundOf, money_of, page_of};
ghost use Rattle.dcc_shard.specs.Shards.{held};

use crate::account::{Money, account_text};
use crate::port::{CopyFault, Server};
use dcc_account::Account;
use dcc_act::Sub;
use dcc_ledger::ledger_text;
use dcc_running::Look;
use dcc_shard::Shard;
use dcc_store::Records;
use std::alloc::{AllocError, Global};

/// A look at the account of a subscriber.
#[derive(Drop)]
pub(crate) struct AccountLook {
    pub alloc: Global,
    pub sub: Sub,
}

impl<R: Records> Look<R> for AccountLook {
    type Found = Result<Option<Vec<u8>>, AllocError>;

    ghost finds = { λ look _ shard found. IfOk found
        (λ text. IsFoundOf shard.shard.terms look.sub (held shard.shard look.sub) (option_map (λ text. text.items) text)) };

    fn look(self, _index: usize, shard: &Shard<R>) -> Result<Option<Vec<u8>>, AllocError> {
        text_of(self.alloc, shard, self.sub)
    }
}

/// A look at the ledger of a subscriber.
#[derive(Drop)]
pub(crate) struct PageLook {
    pub alloc: Global,
    pub sub: Sub,
}

impl<R: Records> Look<R> for PageLook {
    type Found = Result<Option<Vec<u8>>, AllocError>;

    ghost finds = { λ look _ shard found. IfOk found
        (λ page. option_map (λ text. text.items) page ≡ page_of shard.shard.terms look.sub (held shard.shard look.sub)) };

    fn look(self, _index: usize, shard: &Shard<R>) -> Result<Option<Vec<u8>>, AllocError> {
        page_of(self.alloc, shard, self.sub)
    }
}

/// A copy of a shard's store.
#[derive(Drop)]
pub(crate) struct CopyLook<'a, S> {
    pub server: &'a S,
    pub folder: &'a [u8],
}

impl<'a, R: Records, S: Server> Look<R> for CopyLook<'a, S> {
    type Found = Result<(), CopyFault>;

    ghost finds = { λ look index _ found. S.rules.copies look.server.now look.folder.now index found };

    fn look(self, index: usize, shard: &Shard<R>) -> Result<(), CopyFault> {
        self.server.copy(self.folder, index, shard)
    }
}

/// The account of a subscriber as text, if acts are held for it. The only error is want of memory.
fn text_of<R: Records>(
    alloc: Global,
    shard: &Shard<R>,
    sub: Sub,
) -> Result<Option<Vec<u8>>, AllocError>
    ensures { IfOk result (λ text. IsFoundOf shard.now.shard.terms sub (held shard.now.shard sub) (option_map (λ text. text.items) text)) }
{
    match shard.account(sub) {
        Some(account) => Ok(Some(text_in(alloc, account, sub)?)),
        None => Ok(None),
    }
}

/// An account as text. The only error is want of memory.
fn text_in(alloc: Global, account: &Account, sub: Sub) -> Result<Vec<u8>, AllocError>
    requires { account.now.acts ≢ [] }
    ensures { IfOk result (λ text. IsFoundOf account.now.terms sub account.now.acts (Some text.items)) }
{
    account_text(alloc, &sub, &money_in(account), account.sessions())
}

/// The money of an account.
fn money_in(account: &Account) -> Money
    ensures { result ≡ money_of account.now.terms account.now.acts }
{
    Money {
        funds: account.funds(),
        reserved: i128::from(account.reserved()),
        free: account.free(),
        overrun: account.overrun(),
        acts: account.acts().len() as u64,
    }
}

/// The ledger of a subscriber, if acts are held for it. The only error is want of memory.
fn page_of<R: Records>(
    alloc: Global,
    shard: &Shard<R>,
    sub: Sub,
) -> Result<Option<Vec<u8>>, AllocError>
    ensures { IfOk result (λ page. option_map (λ text. text.items) page ≡ page_of shard.now.shard.terms sub (held shard.now.shard sub)) }
{
    match shard.account(sub) {
        Some(account) => Ok(Some(page_in(alloc, account, sub)?)),
        None => Ok(None),
    }
}

/// The ledger of an account. The only error is want of memory.
fn page_in(alloc: Global, account: &Account, sub: Sub) -> Result<Vec<u8>, AllocError>
    requires { account.now.acts ≢ [] }
    ensures { IfOk result (λ page. Some page.items ≡ page_of account.now.terms sub account.now.acts) }
{
    ledger_text(
        alloc,
        &sub,
        account.entries(),
        i128::from(account.reserved()),
        account.overrun(),
    )
}
