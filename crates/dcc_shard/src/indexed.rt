//! The books of a shard, with the index of who opened which session from which host.

ghost use Rattle.std.specs.Prelude.{◌≡◌, ◌≤◌, ◌+◌, ℕ, true, List, [], ◌∷◌, length, map, vec_capacity, IfOk, OnOk, option_map};
ghost use Rattle.std.specs.List.{AllByRecursion};
ghost use Rattle.dcc_model.specs.Outcomes.{acts, was_opened_from};
ghost use Rattle.dcc_openers.specs.Openers.{found_at, KeepsRoom, UsesOneRoom};
ghost use Rattle.dcc_store.specs.Books.{acts_in, IsBook};
ghost use Rattle.dcc_act.specs.declared.sub.Sub.{Sub};
ghost use Rattle.dcc_shard.specs.Openers.{IsFound};
ghost use Rattle.dcc_shard.specs.Shards.{held_in, are_apart};
ghost use Rattle.dcc_shard.specs.Stored.{held_then_all};
ghost use Rattle.dcc_shard.specs.inner.Books.{IsStepOfBooks, StayApart};
ghost use Rattle.dcc_shard.specs.inner.Indexed.{opening, IsReady, IsPageOf, noted_at};
ghost use Rattle.dcc_shard.specs.inner.Pending.{step_of, IsPending};
ghost use Rattle.dcc_shard.specs.inner.Plans.{IsStanding, StayBeside, steps_in, subs_in, reply_in};

use crate::books::Books;
use crate::call::Reply;
use crate::pending::Pending;
use crate::plan::Plan;
use dcc_account::Step;
use dcc_act::{Act, Kind, SessionId, Sub, same_subscribers_are_equal};
use dcc_model::{has_succeeded, leaving_out_changes_nothing, one_more_act_opens};
use dcc_octets::Host;
use dcc_openers::{Found, Openers};
use dcc_store::Book;
use dcc_tariff::Terms;
use std::alloc::{AllocError, Global};
use std::hash::RandomState;
use std::marker::Model;

/// The books of a shard, with the index of who opened which session from which host, by the acts in the books.
#[derive(Drop)]
pub(crate) struct IndexedBooks {
    books: Books,
    openers: Openers,
}

impl Model for IndexedBooks {
    ghost use Rattle.dcc_shard.specs.inner.Indexed.{IndexedView, AreOpeners};

    ghost Value = { IndexedView };

    ghost view = { λ i. record { books = i.books; openers = i.openers } };

    ghost invariant = { λ i. AreOpeners i.books.terms i.books.rows i.openers };
}

/// A prepared step, with the name of the session that it opens from a host. The index has room for the session.
#[derive(Drop)]
pub(crate) struct Ready {
    pub(crate) pending: Pending,
    pub(crate) opens: Option<SessionId>,
}

impl Ready {
    /// The step of the account.
    pub(crate) fn step(&self) -> &Step
        ensures { result.now ≡ step_of self.now.pending }
    {
        self.pending.step()
    }
}

impl IndexedBooks {
    /// Books without accounts. It takes no memory.
    pub(crate) fn new(alloc: Global, terms: &Terms, hasher: RandomState) -> IndexedBooks
        ensures terms { result.books.terms ≡ terms.now }
        ensures rows { result.books.rows ≡ [] }
    {
        leaving_out_changes_nothing();
        IndexedBooks {
            books: Books::new(alloc, terms, hasher),
            openers: Openers::new(alloc, hasher),
        }
    }

    /// The accounts of a book that was loaded from records, each made anew from its acts. The only error is want of memory.
    pub(crate) fn of_book(
        alloc: Global,
        terms: &Terms,
        hasher: RandomState,
        book: Book,
    ) -> Result<IndexedBooks, AllocError>
        requires { IsBook terms.now (acts_in book) }
        ensures terms { IfOk result (λ indexed. indexed.books.terms ≡ terms.now) }
        ensures held { IfOk result (λ indexed. (sub : Sub) → held_in indexed.books.rows sub ≡ acts_in book sub) }
    {
        leaving_out_changes_nothing();
        same_subscribers_are_equal();
        let mut indexed = IndexedBooks::new(alloc, terms, hasher);
        let mut pages = book.into_vec();
        for _ in 0..pages.len() {
            let (sub, acts) = pages.pop().unwrap().into_parts();
            match indexed.add_page(alloc, sub, acts) {
                Ok(()) => {}
                Err(error) => {
                    // By calls: accounts and pages that are let go in place are proved part by part.
                    drop(indexed);
                    drop(pages);
                    return Err(error);
                }
            }
        }
        drop(pages);
        Ok(indexed)
    }

    /// Makes these acts, in order, of a subscriber who has no acts yet. The only error is want of memory.
    fn add_page(&mut self, alloc: Global, sub: Sub, all: Vec<Act>) -> Result<(), AllocError>
        requires { held_in self.old.books.rows sub ≡ [] }
        ensures terms { self.new.books.terms ≡ self.old.books.terms }
        ensures page { OnOk result (IsPageOf self.old.books self.new.books sub all.items) }
    {
        leaving_out_changes_nothing();
        let count = all.len();
        for act in all {
            let ready = self.prepare(alloc, &sub, act, 1, count)?;
            self.install(sub, ready);
        }
        Ok(())
    }

    /// The books.
    pub(crate) fn books(&self) -> &Books
        ensures { result.now ≡ self.now.books }
    {
        &self.books
    }

    /// Does nothing: the held acts of each subscriber are exactly those that their own list makes.
    pub(crate) fn acts_are_own(&self)
        ensures { (sub : Sub) → acts self.now.books.terms (held_in self.now.books.rows sub) ≡ held_in self.now.books.rows sub }
    {
        self.books.acts_are_own();
    }

    /// Who opened the session from the host, by the held acts. It takes no memory.
    pub(crate) fn find(&self, host: &Host, sid: &SessionId) -> Found
        ensures { IsFound (λ sub. was_opened_from self.now.books.terms (held_in self.now.books.rows sub) host.now sid.now) result }
    {
        self.openers.find(host, sid)
    }

    /// Takes the memory for this number of further accounts. The only error is want of memory.
    pub(crate) fn make_room(&mut self, number: usize) -> Result<(), AllocError>
        ensures room { OnOk result (number ≤ self.new.books.room) }
        ensures kept { self.old.books.room ≤ self.new.books.room }
        ensures terms { self.new.books.terms ≡ self.old.books.terms }
        ensures rows { self.new.books.rows ≡ self.old.books.rows }
        ensures openers { self.new.openers ≡ self.old.openers }
    {
        self.books.make_room(number)
    }

    /// Prepares an act of a subscriber, who has an account or none. A new account has memory for so many acts. If the act opens a session
    /// from a host, there is then room for this number of sessions of the host. The only error is want of memory. All room stays, also
    /// after the error.
    pub(crate) fn prepare(
        &mut self,
        alloc: Global,
        sub: &Sub,
        act: Act,
        number: usize,
        acts: usize,
    ) -> Result<Ready, AllocError>
        ensures pending { IfOk result (λ ready. IsPending self.new.books sub.now act ready.pending) }
        ensures ready { IfOk result (λ ready. IsReady self.new.openers number (opening (step_of ready.pending)) ready.opens) }
        ensures terms { self.new.books.terms ≡ self.old.books.terms }
        ensures rows { self.new.books.rows ≡ self.old.books.rows }
        ensures room { self.old.books.room ≤ self.new.books.room }
        ensures openers { KeepsRoom self.old.openers self.new.openers }
    {
        let pending = self.books.prepare(alloc, sub, act, acts)?;
        match make_room(&mut self.openers, alloc, pending.step(), number) {
            Ok(opens) => Ok(Ready { pending, opens }),
            Err(error) => {
                // By a call: a step that is let go in place is proved part by part.
                drop(pending);
                Err(error)
            }
        }
    }

    /// Installs a step that was prepared. It takes no memory, and uses the room for one account and for one session of each host at most.
    /// The accounts of other subscribers stay.
    pub(crate) fn install(&mut self, sub: Sub, ready: Ready)
        requires pending { IsPending self.old.books sub (step_of ready.pending).act ready.pending }
        requires ready { IsReady self.old.openers 1 (opening (step_of ready.pending)) ready.opens }
        ensures step { IsStepOfBooks self.old.books self.new.books sub (step_of ready.pending).act }
        ensures others { StayApart self.old.books.rows self.new.books.rows sub }
        ensures room { self.old.books.room ≤ self.new.books.room + 1 }
        ensures openers { UsesOneRoom self.old.openers self.new.openers }
    {
        leaving_out_changes_nothing();
        one_more_act_opens();
        same_subscribers_are_equal();
        let Ready { pending, opens } = ready;
        note(&mut self.openers, sub, pending.step(), opens);
        self.books.install(sub, pending);
    }
}

impl IndexedBooks {
    /// Installs the planned steps, and adds the replies to an empty list, in order. It takes no memory.
    pub(crate) fn install_all(&mut self, plans: Vec<Plan>, replies: &mut Vec<Reply>)
        requires standing { AllByRecursion (IsStanding self.old.books self.old.openers (length plans.items)) plans.items }
        requires accounts { length plans.items ≤ self.old.books.room }
        requires apart { are_apart (subs_in plans.items) ≡ true }
        requires empty { replies.old.items ≡ [] }
        requires room { length plans.items ≤ vec_capacity replies.old }
        ensures held { (sub : Sub) → held_in self.new.books.rows sub
            ≡ held_then_all self.old.books.terms (steps_in plans.items) (held_in self.old.books.rows) sub }
        ensures terms { self.new.books.terms ≡ self.old.books.terms }
        ensures replies { replies.new.items ≡ map reply_in plans.items }
    {
        same_subscribers_are_equal();
        for plan in plans {
            replies.push_reserved(self.install_next(plan));
        }
    }

    /// Installs the step of a plan, if there is one, and returns the reply. It takes no memory, and uses the room for one account and for
    /// one session of each host at most.
    fn install_next(&mut self, plan: Plan) -> Reply
        requires { IsStanding self.old.books self.old.openers 1 plan }
        ensures reply { result ≡ reply_in plan }
        ensures held { (sub : Sub) → held_in self.new.books.rows sub
            ≡ held_then_all self.old.books.terms (steps_in (plan ∷ [])) (held_in self.old.books.rows) sub }
        ensures others { StayBeside self.old.books.rows self.new.books.rows plan }
        ensures terms { self.new.books.terms ≡ self.old.books.terms }
        ensures room { self.old.books.room ≤ self.new.books.room + 1 }
        ensures openers { UsesOneRoom self.old.openers self.new.openers }
    {
        same_subscribers_are_equal();
        match plan {
            Plan::Refused { reply } => reply,
            Plan::Step {
                sub,
                ready,
                way,
                reply,
            } => {
                // By a call: a way that is let go in place is proved part by part.
                drop(way);
                self.install(sub, ready);
                reply
            }
        }
    }
}

/// The host and the session that a step opens, if it opens a session from a known host.
fn opened(step: &Step) -> Option<(&Host, &SessionId)>
    ensures { option_map (λ found. (found.0.now, found.1.now)) result ≡ opening step.now }
{
    let Kind::Initial {
        request,
        host: Some(host),
        ..
    } = &step.act().kind
    else {
        return None;
    };
    if step.is_new() && has_succeeded(step.outcome()) {
        Some((host, &request.key.sid))
    } else {
        None
    }
}

/// Takes the memory to note this number of sessions of the host from which a step opens a session. The only error is want of memory.
/// Every finding and all room stay, also after the error.
fn make_room(
    openers: &mut Openers,
    alloc: Global,
    step: &Step,
    number: usize,
) -> Result<Option<SessionId>, AllocError>
    ensures same { (host sid : List ℕ) → found_at openers.new host sid ≡ found_at openers.old host sid }
    ensures ready { IfOk result (λ opens. IsReady openers.new number (opening step.now) opens) }
    ensures kept { KeepsRoom openers.old openers.new }
{
    let Some((host, sid)) = opened(step) else {
        return Ok(None);
    };
    openers.make_room(alloc, host, number)?;
    Ok(Some(sid.copy()?))
}

/// Notes the session that a step of a subscriber opens. It takes no memory, and uses the room for one session of each host at most.
fn note(openers: &mut Openers, sub: Sub, step: &Step, opens: Option<SessionId>)
    requires { IsReady openers.old 1 (opening step.now) opens }
    ensures noted { (host sid : List ℕ) → found_at openers.new host sid ≡ noted_at (opening step.now) sub openers.old host sid }
    ensures room { UsesOneRoom openers.old openers.new }
{
    if let (Some((host, _)), Some(sid)) = (opened(step), opens) {
        openers.note(host, sid, sub);
    }
}
