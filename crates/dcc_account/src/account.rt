//! Accounts.

ghost use Rattle.std.specs.Prelude.{◌≡◌, [], ◌∷◌, ◌++◌, reverse, pos, neg_ℤ, ◌+◌, ◌+ℤ◌, ◌<◌, ◌^◌, ◌≤ℤ◌, ◌≤◌, if◌then◌else◌, true, length, IfOk};
ghost use Rattle.std.specs.Option.{option_copied};
ghost use Rattle.dcc_model.specs.Outcomes.{history, acts, standing, funds, overrun, free, kept};
ghost use Rattle.dcc_model.specs.Entries.{entries};
ghost use Rattle.dcc_state.specs.Looks.{most_looks, least_looks};
ghost use Rattle.dcc_state.specs.OpenSessions.{AreOpen};
ghost use Rattle.dcc_account.specs.Accounts.{outcomes, reserved};
ghost use Rattle.dcc_model.specs.declared.decide.TheConstants.{CEILING};

use crate::growth::{LEAST, append, grow, grow_journal, larger, larger_journal};
use crate::indexes::Indexes;
use crate::kept::outcome_at;
use crate::larger::Larger;
use crate::new_keys::NewKeys;
use crate::step::Step;
use dcc_act::{Act, Entry, Journal, Looks, Outcome, RequestKey};
use dcc_escrow::Pool;
use dcc_expiry::Due;
use dcc_model::{Standing, funds_are_accounted_for, keys_are_apart, one_more_act};
use dcc_state::{
    Facts, Judgement, OpenSession, POOL, judge, money_is_within, sessions_hold_what_is_reserved,
};
use dcc_tariff::Terms;
use std::alloc::{AllocError, Global};
use std::hash::RandomState;
use std::marker::Model;

/// The account of one subscriber.
#[derive(Drop)]
pub struct Account {
    terms: Terms,
    acts: Journal,
    outcomes: Vec<Outcome>,
    entries: Vec<Entry>,
    pub(crate) pool: Pool,
    overrun: i128,
    sessions: Vec<OpenSession>,
    due: Due,
    indexes: Indexes,
}

impl Model for Account {
    ghost use Rattle.std.specs.Prelude.{◌-◌, vec_len, vec_capacity};
    ghost use Rattle.indexmap.specs.IndexMap as map;
    ghost use Rattle.indexmap.specs.IndexSet as set;
    ghost use Rattle.dcc_expiry.specs.Deadlines.{count_of};
    ghost use Rattle.dcc_account.specs.Accounts.{AccountView};
    ghost use Rattle.dcc_account.specs.inner.Kept.{IsRunning};

    ghost Value = { AccountView };

    ghost view = { λ a. record {
      terms = a.terms;
      acts = a.acts.acts;
      sessions = a.sessions.items;
      room = record {
        acts = a.acts.spare;
        outcomes = vec_capacity a.outcomes - vec_len a.outcomes;
        entries = vec_capacity a.entries - vec_len a.entries;
        sessions = vec_capacity a.sessions - vec_len a.sessions;
        due = record { count = count_of a.due; room = a.due.room };
        requests = record { count = map.index_map_len a.indexes.requests; room = map.spare a.indexes.requests };
        tickets = record { count = map.index_map_len a.indexes.tickets; room = map.spare a.indexes.tickets };
        opened = record { count = set.index_set_len a.indexes.opened; room = set.spare a.indexes.opened };
      };
    } };

    ghost invariant = { λ a. IsRunning a.terms a.acts.acts a.outcomes.items a.entries.items a.pool a.overrun a.sessions.items a.due a.indexes };
}

impl Account {
    ghost use Rattle.dcc_account.specs.Fits.{Fits};
    ghost use Rattle.dcc_account.specs.Prepared.{IsPrepared, IsJudged, in_view};
    ghost use Rattle.dcc_account.specs.inner.Brought.{IsEmpty, space_of};
    ghost use Rattle.dcc_account.specs.inner.Indexed.{AreKeysOf};
    ghost use Rattle.dcc_state.specs.Known.{IsKnown, IsWithin};

    /// An account without acts, whose indexes hash by `hasher`. It takes no memory.
    pub fn new(alloc: Global, terms: &Terms, hasher: RandomState) -> Account
        ensures terms { result.terms ≡ terms.now }
        ensures acts { result.acts ≡ [] }
    {
        let journal = Journal::new(alloc);
        Account::of_lists(
            alloc,
            terms,
            hasher,
            journal,
            Vec::new(alloc),
            Vec::new(alloc),
        )
    }

    /// The same, with memory for so many acts and for an entry of each. The only error is want of memory.
    pub fn with_room(
        alloc: Global,
        terms: &Terms,
        hasher: RandomState,
        acts: usize,
    ) -> Result<Account, AllocError>
        ensures terms { IfOk result (λ account. account.terms ≡ terms.now) }
        ensures acts { IfOk result (λ account. account.acts ≡ []) }
        ensures room { IfOk result (λ account. acts ≤ account.room.acts) }
    {
        let journal = Journal::with_room(alloc, acts)?;
        match lists_with_room(alloc, acts) {
            Ok((outcomes, entries)) => Ok(Account::of_lists(
                alloc, terms, hasher, journal, outcomes, entries,
            )),
            Err(error) => {
                // By a call: a journal that is let go in place is proved part by part.
                drop(journal);
                Err(error)
            }
        }
    }

    /// An account with these lists, which are empty.
    fn of_lists(
        alloc: Global,
        terms: &Terms,
        hasher: RandomState,
        journal: Journal,
        outcomes: Vec<Outcome>,
        entries: Vec<Entry>,
    ) -> Account
        requires acts { journal.acts ≡ [] }
        requires outcomes { outcomes.items ≡ [] }
        requires entries { entries.items ≡ [] }
        ensures terms { result.terms ≡ terms.now }
        ensures acts { result.acts ≡ [] }
        ensures room { result.room.acts ≡ journal.spare }
    {
        Account {
            terms: *terms,
            acts: journal,
            outcomes,
            entries,
            pool: Pool::new(POOL),
            overrun: 0,
            sessions: Vec::new(alloc),
            due: Due::new(alloc),
            indexes: Indexes::new(alloc, hasher),
        }
    }

    /// The terms by which the acts are judged.
    pub fn terms(&self) -> &Terms
        ensures { result.now ≡ self.now.terms }
    {
        &self.terms
    }

    /// The acts that were made, in order. Only a call that counts a look reads one.
    pub fn acts(&self) -> &Journal
        ensures acts { result.now.acts ≡ self.now.acts }
        ensures own { acts self.now.terms self.now.acts ≡ self.now.acts }
    {
        &self.acts
    }

    /// The outcomes of the made acts, in order.
    pub fn outcomes(&self) -> &[Outcome]
        ensures { result.now ≡ outcomes self.now.terms self.now.acts }
    {
        &self.outcomes
    }

    /// The entries of the acts, in order.
    pub fn entries(&self) -> &[Entry]
        ensures { result.now ≡ entries self.now.terms self.now.acts }
    {
        &self.entries
    }

    /// The funds, in minor units: from -10^18 to 10^18.
    pub fn funds(&self) -> i128
        ensures value { result ≡ funds self.now.terms self.now.acts }
        ensures low { neg_ℤ CEILING ≤ℤ result }
        ensures high { result ≤ℤ CEILING }
    {
        funds_are_accounted_for();
        self.pool.committed()
    }

    /// The free money: the funds less the prices of all live grants, in minor units. Only overrun takes it below 0.
    pub fn free(&self) -> i128
        ensures value { result ≡ free self.now.terms self.now.acts }
        ensures covered { pos 0 ≤ℤ (result +ℤ pos (overrun self.now.terms self.now.acts)) }
    {
        funds_are_accounted_for();
        sessions_hold_what_is_reserved();
        self.pool.free()
    }

    /// The reserved money: the prices of all live grants, in minor units. No other grant and no debit can take it.
    pub fn reserved(&self) -> u64
        ensures { pos result ≡ reserved self.now.terms self.now.acts }
    {
        sessions_hold_what_is_reserved();
        self.pool.reserved()
    }

    /// The overrun: the sum of the parts of charges beyond their reservations, in minor units.
    pub fn overrun(&self) -> i128
        ensures { result ≡ pos (overrun self.now.terms self.now.acts) }
    {
        self.overrun
    }

    /// The open sessions, each once, in any order.
    pub fn sessions(&self) -> &[OpenSession]
        ensures { AreOpen self.now.terms (history self.now.terms (reverse self.now.acts)) result.now }
    {
        &self.sessions
    }

    /// The outcome of the first request of this key, if it was made.
    pub fn kept(&self, key: &RequestKey) -> Option<&Outcome>
        ensures { option_copied result ≡ kept self.now.terms self.now.acts key.now }
    {
        outcome_at(&self.outcomes, self.indexes.place_of_request(key))
    }

    /// Prepares the step of an act: its outcome after the acts that were made, whether it is made, its place and its entries, with all
    /// the memory that its installation takes. It reads the grants of the act's own session alone, an expiry at most those of the
    /// sessions that it ends, and no made act, whatever else the account holds. The only error is want of memory.
    pub fn prepare(&self, act: Act) -> Result<Step, AllocError>
        ensures act { IfOk result (λ step. step.act ≡ act) }
        ensures prepared { IfOk result (λ step. IsPrepared self.now step) }
        ensures acts { IfOk result (λ step. acts self.now.terms (self.now.acts ++ act ∷ [])
            ≡ (if step.is_new then self.now.acts ++ act ∷ [] else self.now.acts)) }
        ensures looks { IfOk result (λ step. step.looks
            ≤ most_looks self.now.terms (history self.now.terms (reverse self.now.acts)) act.moment act.kind) }
        ensures counted { IfOk result (λ step. least_looks self.now.terms (history self.now.terms (reverse self.now.acts)) act.kind
            ≤ step.looks) }
    {
        one_more_act();
        // The call is made for its clause alone: the acts are those that their own list makes.
        self.acts();
        let mut looks = Looks::new();
        let judgement = match self.judged(&act, &mut looks) {
            Ok(judgement) => judgement,
            Err(error) => {
                // By a call, here and below: values that are let go in place are proved part by part.
                drop(act);
                return Err(error);
            }
        };
        let (larger, keys) = match self.brought(&act, &judgement) {
            Ok(brought) => brought,
            Err(error) => {
                drop((act, judgement));
                return Err(error);
            }
        };
        let Judgement {
            outcome,
            is_new,
            place,
            entries,
            change,
        } = judgement;
        Ok(Step {
            larger,
            keys,
            act,
            outcome,
            is_new,
            place,
            entries,
            change,
            looks: looks.count(),
        })
    }

    /// The memory and the keys that the step of this judgement of an act brings. The only error is want of memory.
    fn brought(&self, act: &Act, judgement: &Judgement) -> Result<(Larger, NewKeys), AllocError>
        ensures empty { IfOk result (λ brought. IsEmpty brought.0) }
        ensures fits { IfOk result (λ brought. judgement.now.is_new ≡ true
            → Fits self.now (space_of brought.0) (length judgement.now.entries.items)) }
        ensures keys { IfOk result (λ brought. AreKeysOf act.now.kind judgement.now.outcome brought.1) }
    {
        let larger = self.larger(usize::from(judgement.is_new), judgement.entries.len())?;
        match NewKeys::of(&act.kind, &judgement.outcome) {
            Ok(keys) => Ok((larger, keys)),
            Err(error) => {
                drop(larger);
                Err(error)
            }
        }
    }

    /// Memory for so many more acts, 0 or 1, for so many entries and for a session, if the account has no room for them. The only error
    /// is want of memory.
    fn larger(&self, more: usize, entries: usize) -> Result<Larger, AllocError>
        requires one { more ≤ 1 }
        requires few { entries < 2 ^ 63 }
        ensures empty { IfOk result IsEmpty }
        ensures fits { IfOk result (λ larger. more ≡ 1 → Fits self.now (space_of larger) entries) }
    {
        let alloc = *self.outcomes.allocator();
        Ok(Larger {
            acts: larger_journal(alloc, &self.acts, more)?,
            outcomes: larger(alloc, &self.outcomes, more, LEAST)?,
            entries: larger(alloc, &self.entries, entries, LEAST)?,
            sessions: larger(alloc, &self.sessions, 1, 1)?,
            due: self.due.larger(more)?,
            indexes: self.indexes.larger(alloc, more)?,
        })
    }

    /// Makes the act of a step that was prepared of this account as it is. It takes no memory.
    pub fn install(&mut self, step: Step)
        requires { IsPrepared self.old step }
        ensures terms { self.new.terms ≡ self.old.terms }
        ensures acts { self.new.acts ≡ acts self.old.terms (self.old.acts ++ step.act ∷ []) }
    {
        one_more_act();
        if !step.is_new {
            // The call is made for its clause alone, as in `prepare`.
            self.acts();
            drop(step);
            return;
        }
        keys_are_apart(&step.act);
        sessions_hold_what_is_reserved();
        let Step {
            larger,
            keys,
            act,
            outcome,
            entries,
            change,
            ..
        } = step;
        grow_journal(&mut self.acts, larger.acts);
        grow(&mut self.outcomes, larger.outcomes);
        grow(&mut self.entries, larger.entries);
        grow(&mut self.sessions, larger.sessions);
        self.due.grow(larger.due);
        self.indexes.grow(larger.indexes);
        self.indexes.add(keys, self.acts.len() as u64 + 1);
        self.acts.push(act);
        self.outcomes.push_reserved(outcome);
        append(&mut self.entries, entries);
        let overrun = change.apply(&mut self.sessions, &mut self.due, &mut self.pool);
        self.overrun += i128::from(overrun);
    }

    /// The outcome of an act after the acts that were made, and the change that it makes. The only error is want of memory.
    fn judged(&self, act: &Act, looks: &mut Looks) -> Result<Judgement, AllocError>
        requires { looks.old ≡ 0 }
        ensures judged { IfOk result (λ judgement. IsJudged self.now act.now (in_view judgement)) }
        ensures looks { looks.new
            ≤ most_looks self.now.terms (history self.now.terms (reverse self.now.acts)) act.now.moment act.now.kind }
        ensures counted { least_looks self.now.terms (history self.now.terms (reverse self.now.acts)) act.now.kind ≤ looks.new }
    {
        let (facts, first) = self.known(act);
        judge(
            *self.outcomes.allocator(),
            &self.terms,
            &facts,
            first,
            &self.sessions,
            &self.due,
            act,
            looks,
        )
    }

    /// The facts of the made acts by which one more is judged, and the outcome of the act that has its key.
    fn known(&self, act: &Act) -> (Facts, Option<&Outcome>)
        ensures known { IsKnown self.now.terms self.now.acts act.now result.0 (option_copied result.1) self.now.sessions }
        ensures within { IsWithin result.0.standing self.now.sessions }
        ensures few { result.0.count + 1 < 2 ^ 64 }
    {
        money_is_within();
        let place = self.indexes.place(&act.kind);
        let facts = Facts {
            count: self.acts.len() as u64,
            has_account: !self.outcomes.is_empty(),
            was_opened: self.indexes.was_opened(&act.kind),
            place,
            standing: self.standing(),
        };
        (facts, outcome_at(&self.outcomes, place))
    }

    /// The money of the account.
    fn standing(&self) -> Standing
        ensures { result ≡ standing self.now.terms self.now.acts }
    {
        Standing {
            funds: self.funds(),
            free: self.free(),
            overrun: self.overrun(),
        }
    }

    /// Drops a step, which leaves its account as it is.
    pub fn discard(step: Step) {
        drop(step);
    }
}

/// Lists of outcomes and of entries, without items, with memory for so many each. The only error is want of memory.
fn lists_with_room(alloc: Global, count: usize) -> Result<(Vec<Outcome>, Vec<Entry>), AllocError>
    ensures outcomes { IfOk result (λ lists. lists.0.items ≡ []) }
    ensures entries { IfOk result (λ lists. lists.1.items ≡ []) }
{
    let outcomes = Vec::with_capacity(alloc, count)?;
    match Vec::with_capacity(alloc, count) {
        Ok(entries) => Ok((outcomes, entries)),
        Err(error) => {
            drop(outcomes);
            Err(error)
        }
    }
}
