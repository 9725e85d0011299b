//! The shard.

ghost use Rattle.std.specs.Prelude.{◌≡◌, ◌≢◌, ◌≤◌, ◌+◌, ◌<◌, ◌↔◌, [], true, false, length, map, vec_capacity, IfOk, IfErr, IfSome, IfNone, OnOk, IsErr, Err, is_some};
ghost use Rattle.std.specs.List.{AllByRecursion, list_all};
ghost use Rattle.std.specs.List.Sorted.{IsStrictlySortedBy};
ghost use Rattle.dcc_act.specs.declared.sub.Sub.{Sub};
ghost use Rattle.dcc_model.specs.Keys.{request_key};
ghost use Rattle.dcc_store.specs.Books.{sub_order};
ghost use Rattle.dcc_store.specs.Contents.{Content};
ghost use Rattle.dcc_store.specs.Stops.{LeavesOnly};
ghost use Rattle.dcc_store.specs.declared.fault.StoreFault.TheVariants.{Device, Stopped};
ghost use Rattle.dcc_shard.specs.Openers.{IsFound, opened};
ghost use Rattle.dcc_shard.specs.Shards.{held, held_in, AreOwn, IsStep, is_among, are_apart};
ghost use Rattle.dcc_shard.specs.Stored.{IsKept, IsLeft, LeavesHeld, LeavesBatch};
ghost use Rattle.dcc_shard.specs.Batches.{sub_of, has_request_act, AreReplies, is_one_judged, IsReplyToldApart, IsReplyBounded, IsBatch, AreKept};
ghost use Rattle.dcc_shard.specs.Routes.{shard_of};
ghost use Rattle.dcc_shard.specs.Answers.{IsAnswer, IsToldApart, IsTold, octets_of, is_judged, is_judged_top_up, top_up_act};
ghost use Rattle.dcc_shard.specs.Answers.{IsExpired, is_judged_expiry, expiry_act};

use crate::answers::{ExpiryAnswer, RequestAnswer, TopUpAnswer};
use crate::batch::make_all;
use crate::call::{Call, Reply};
use crate::indexed::IndexedBooks;
use crate::kept::KeptBooks;
use crate::serve::{Envelope, answer, busy, copied, end, session_of_act, tell};
use dcc_account::Account;
use dcc_act::{Act, Kind, Moment, SessionId, Sub, TopUp};
use dcc_answer::{MAX_ANSWER, Proxies};
use dcc_message::{Header, Identity};
use dcc_octets::Host;
use dcc_openers::Found;
use dcc_store::{Records, StoreFault, content_has_one_book};
use std::alloc::{AllocError, Global};
use std::hash::RandomState;
use std::marker::Model;

/// The accounts of the shard's subscribers under one plan's terms, the identity of the server that answers for them, and the records
/// that keep their acts.
#[derive(Drop)]
pub struct Shard<R: Records> {
    identity: Identity,
    kept: KeptBooks<R>,
}

impl<R: Records> Model for Shard<R> {
    ghost use Rattle.dcc_shard.specs.Stored.{StoredView};

    ghost Value = { StoredView R };

    ghost view = { λ s. record {
      shard = record { terms = s.kept.books.terms; identity = s.identity; rows = s.kept.books.rows };
      records = s.kept.records;
    } };
}

impl<R: Records> Shard<R> {
    /// A shard of the acts that the records hold, under the records' terms, that answers as this server. Each account is made anew from its
    /// acts. Subscribers, and the sessions and keys of their accounts, are found by hashes under `hasher`.
    ///
    /// Errors, with the records handed back: [`StoreFault::Memory`], the records may be used; [`StoreFault::Device`], the records failed in
    /// this call, and are stopped from then on; [`StoreFault::Stopped`], they were stopped before.
    pub fn new(
        alloc: Global,
        identity: &Identity,
        records: R,
        hasher: RandomState,
    ) -> Result<Shard<R>, (StoreFault, R)>
        ensures terms { IfOk result (λ shard. shard.shard.terms ≡ R.terms records) }
        ensures identity { IfOk result (λ shard. shard.shard.identity ≡ identity.now) }
        ensures own { IfOk result (λ shard. AreOwn shard.shard) }
        // The shard holds the acts that a stop leaves. A stop before the call left the same.
        ensures found { IfOk result (λ shard. LeavesOnly shard.shard.terms (held shard.shard) (R.may_leave shard.records)) }
        ensures there { IfOk result (λ shard. R.is_honest shard.records → IsLeft shard.shard.terms (held shard.shard) (R.may_leave shard.records)) }
        ensures same { IfOk result (λ shard. (found : Content) → R.may_leave shard.records found → R.may_leave records found) }
        ensures going { IfOk result (λ shard. R.is_stopped shard.records ≡ R.is_stopped records) }
        // After an error the records are handed back, and a stop leaves no further content of them.
        ensures left { IfErr result (λ refused. (found : Content) → R.may_leave refused.1 found → R.may_leave records found) }
        ensures back { IfErr result (λ refused. R.terms refused.1 ≡ R.terms records) }
        ensures device { IfErr result (λ refused. refused.0 ≡ Device
            → (R.is_stopped records ≡ false) × (R.is_stopped refused.1 ≡ true) × (R.faults refused.1 ≡ R.faults records + 1)) }
        ensures usable { IfErr result (λ refused. refused.0 ≢ Device
            → (R.is_stopped refused.1 ≡ R.is_stopped records) × (R.faults refused.1 ≡ R.faults records)) }
        ensures stopped { IfErr result (λ refused. refused.0 ≡ Stopped → R.is_stopped records ≡ true) }
        ensures frozen { R.is_stopped records ≡ true → IsErr result }
        // Records that were stopped before are reported as stopped, and by no other fault. So after want of memory they may be used.
        ensures told { IfErr result (λ refused. R.is_stopped records ≡ true → refused.0 ≡ Stopped) }
    {
        let mut records = records;
        match read(alloc, identity, &mut records, hasher) {
            Ok((identity, books)) => Ok(Shard {
                identity,
                kept: KeptBooks::of(books, records),
            }),
            Err(fault) => Err((fault, records)),
        }
    }

    /// The identity of the server that answers.
    pub fn identity(&self) -> &Identity
        ensures { result.now ≡ self.now.shard.identity }
    {
        &self.identity
    }

    /// Does nothing: the held acts of each subscriber are exactly those that their own list makes.
    pub fn acts_are_own(&self)
        ensures { AreOwn self.now.shard }
    {
        self.kept.acts_are_kept();
    }

    /// The records that keep the acts. If they are not stopped, a stop leaves exactly the held acts. If they are stopped, it leaves these,
    /// or these and all acts of the append on which the records failed: one act, or the acts of a batch, which are of different
    /// subscribers. So every content that a stop leaves has all held acts.
    pub fn records(&self) -> &R
        ensures value { result.now ≡ self.now.records }
        ensures terms { R.terms result.now ≡ self.now.shard.terms }
        ensures kept { R.is_stopped result.now ≡ false → LeavesOnly self.now.shard.terms (held self.now.shard) (R.may_leave result.now) }
        ensures beyond { R.is_stopped result.now ≡ true → LeavesBatch self.now.shard.terms (held self.now.shard) (R.may_leave result.now) }
        ensures left { LeavesHeld (held self.now.shard) (R.may_leave result.now) }
    {
        self.kept.acts_are_kept();
        self.kept.records()
    }

    /// The records, moved out.
    pub fn into_records(self) -> R
        ensures value { result ≡ self.records }
        ensures terms { R.terms result ≡ self.shard.terms }
        ensures kept { R.is_stopped result ≡ false → LeavesOnly self.shard.terms (held self.shard) (R.may_leave result) }
        ensures beyond { R.is_stopped result ≡ true → LeavesBatch self.shard.terms (held self.shard) (R.may_leave result) }
        ensures left { LeavesHeld (held self.shard) (R.may_leave result) }
    {
        self.kept.acts_are_kept();
        self.kept.into_records()
    }

    /// The account of a subscriber, if there is one: if an act of the subscriber was made.
    pub fn account(&self, sub: Sub) -> Option<&Account>
        ensures terms { IfSome result (λ account. account.now.terms ≡ self.now.shard.terms) }
        ensures acts { IfSome result (λ account. account.now.acts ≡ held self.now.shard sub) }
        ensures some { IfSome result (λ account. account.now.acts ≢ []) }
        ensures none { IfNone result (held self.now.shard sub ≡ []) }
    {
        self.kept.books().account(&sub)
    }

    /// Whether [`shard_of`] gives each subscriber with held acts the shard of this index, of `count` shards. [`Shards`](crate::Shards) and
    /// stores require it of each shard. The condition: `count` is at least 1.
    pub fn is_placed(&self, index: usize, count: usize) -> bool
        requires { 0 < count }
        ensures { result ≡ true ↔ ((sub : Sub) → held self.now.shard sub ≢ [] → shard_of sub count ≡ index) }
    {
        self.kept.books().are_placed(index, count)
    }

    /// The subscribers that have acts, each once, in their order: by type, and then by the data, octet by octet. The only error is want of
    /// memory.
    pub fn subs(&self, alloc: Global) -> Result<Vec<Sub>, AllocError>
        ensures order { IfOk result (λ subs. IsStrictlySortedBy sub_order subs.items) }
        ensures some { IfOk result (λ subs. (sub : Sub) → is_among sub subs.items ≡ true → held self.now.shard sub ≢ []) }
        ensures none { IfOk result (λ subs. (sub : Sub) → is_among sub subs.items ≡ false → held self.now.shard sub ≡ []) }
    {
        self.kept.books().subs(alloc)
    }

    /// Who opened the session from the host, by the held acts: nobody, one subscriber, or several. It takes no memory. It finds host and
    /// session by their hashes, and reads no acts.
    pub fn find(&self, host: &Host, sid: &SessionId) -> Found
        ensures { IsFound (opened self.now.shard host.now sid.now) result }
    {
        self.kept.find(host, sid)
    }

    /// Makes a request's act, and answers the request under its header and with its proxies: by the outcome of the act; or busy; or not at
    /// all if memory is short for the busy answer too. The condition: the act is a request's.
    pub fn step(
        &mut self,
        alloc: Global,
        sub: Sub,
        act: Act,
        header: &Header,
        proxies: &Proxies,
    ) -> RequestAnswer
        requires { is_some (request_key act.kind) ≡ true }
        ensures answer { IsAnswer self.old.shard sub act header.now proxies.now result }
        ensures step { IsStep self.old.shard self.new.shard (is_judged result) sub act }
        ensures own { AreOwn self.new.shard }
        ensures kept { IsKept self.old.shard.terms (held self.old.shard) sub act (R.may_leave self.old.records) (R.may_leave self.new.records)
            (R.is_stopped self.old.records) (R.is_stopped self.new.records) (R.faults self.old.records) (R.faults self.new.records) }
        // If the records are not stopped, a stop leaves exactly the acts that are then held, each made act among them. A shard whose records are
        // stopped judges nothing.
        ensures left { R.is_stopped self.new.records ≡ false → LeavesOnly self.new.shard.terms (held self.new.shard) (R.may_leave self.new.records) }
        ensures going { is_judged result ≡ true → R.is_stopped self.new.records ≡ false }
        ensures stopped { R.is_stopped self.old.records ≡ true → is_judged result ≡ false }
        ensures apart { IsToldApart result }
        // No answer has more octets.
        ensures bounded { length (octets_of result) ≤ MAX_ANSWER }
    {
        self.kept.acts_are_kept();
        let envelope = Envelope {
            identity: &self.identity,
            header,
            proxies,
        };
        // The act is gone once it is prepared, and a busy answer needs its session.
        let Ok(session) = copied(session_of_act(&act)) else {
            return busy(alloc, &envelope, session_of_act(&act));
        };
        let answered = answer(&mut self.kept, alloc, &envelope, sub, act);
        self.kept.acts_are_kept();
        match answered {
            Ok(answer) => answer,
            Err(_) => busy(alloc, &envelope, session.as_ref()),
        }
    }

    /// Puts money into a subscriber's account, in minor units. An amount that isn't 1 to 10^18 is answered by [`TopUpAnswer::BadAmount`].
    /// A ticket that comes again has its first answer, which is not fresh any more.
    pub fn top_up(
        &mut self,
        alloc: Global,
        sub: Sub,
        moment: Moment,
        ticket: u64,
        amount: u64,
    ) -> TopUpAnswer
        ensures answer { IsTold self.old.shard sub moment ticket amount result }
        ensures step { IsStep self.old.shard self.new.shard (is_judged_top_up result) sub (top_up_act moment ticket amount) }
        ensures own { AreOwn self.new.shard }
        ensures kept { IsKept self.old.shard.terms (held self.old.shard) sub (top_up_act moment ticket amount) (R.may_leave self.old.records) (R.may_leave self.new.records)
            (R.is_stopped self.old.records) (R.is_stopped self.new.records) (R.faults self.old.records) (R.faults self.new.records) }
        // If the records are not stopped, a stop leaves exactly the acts that are then held, each made act among them. A shard whose records are
        // stopped judges nothing.
        ensures left { R.is_stopped self.new.records ≡ false → LeavesOnly self.new.shard.terms (held self.new.shard) (R.may_leave self.new.records) }
        ensures going { is_judged_top_up result ≡ true → R.is_stopped self.new.records ≡ false }
        ensures stopped { R.is_stopped self.old.records ≡ true → is_judged_top_up result ≡ false }
    {
        self.kept.acts_are_kept();
        let Some(top_up) = TopUp::new(ticket, amount) else {
            return TopUpAnswer::BadAmount;
        };
        let act = Act {
            moment,
            kind: Kind::TopUp(top_up),
        };
        let told = tell(&mut self.kept, alloc, sub, act);
        self.kept.acts_are_kept();
        match told {
            Ok(answer) => answer,
            Err(_) => TopUpAnswer::Refused,
        }
    }

    /// Ends the subscriber's sessions whose deadline is this moment or an earlier moment.
    pub fn expire(&mut self, alloc: Global, sub: Sub, moment: Moment) -> ExpiryAnswer
        ensures answer { IsExpired self.old.shard sub moment result }
        ensures step { IsStep self.old.shard self.new.shard (is_judged_expiry result) sub (expiry_act moment) }
        ensures own { AreOwn self.new.shard }
        ensures kept { IsKept self.old.shard.terms (held self.old.shard) sub (expiry_act moment) (R.may_leave self.old.records) (R.may_leave self.new.records)
            (R.is_stopped self.old.records) (R.is_stopped self.new.records) (R.faults self.old.records) (R.faults self.new.records) }
        // If the records are not stopped, a stop leaves exactly the acts that are then held, each made act among them. A shard whose records are
        // stopped judges nothing.
        ensures left { R.is_stopped self.new.records ≡ false → LeavesOnly self.new.shard.terms (held self.new.shard) (R.may_leave self.new.records) }
        ensures going { is_judged_expiry result ≡ true → R.is_stopped self.new.records ≡ false }
        ensures stopped { R.is_stopped self.old.records ≡ true → is_judged_expiry result ≡ false }
    {
        self.kept.acts_are_kept();
        let act = Act {
            moment,
            kind: Kind::Expiry,
        };
        let ended = end(&mut self.kept, alloc, sub, act);
        self.kept.acts_are_kept();
        match ended {
            Ok(answer) => answer,
            Err(_) => ExpiryAnswer::Refused,
        }
    }

    /// Makes calls of different subscribers by one append of their new acts, all or none. Each reply is that of the call alone; the list
    /// of replies is then in the order of the calls. If memory refuses a call, that call is refused by itself and left out. If memory
    /// refuses the append, each call with a new act is refused, and no held act changes. If the records are stopped, or fail in the append,
    /// all calls are refused. Without a new act nothing is appended. The conditions: the calls are of different subscribers, the act of
    /// each request is a request's, and the list of replies is empty and has room for them.
    pub fn step_all(&mut self, alloc: Global, calls: Vec<Call>, replies: &mut Vec<Reply>)
        requires apart { are_apart (map sub_of calls.items) ≡ true }
        requires requests { list_all has_request_act calls.items ≡ true }
        requires empty { replies.old.items ≡ [] }
        requires room { length calls.items ≤ vec_capacity replies.old }
        ensures replies { AreReplies self.old.shard calls.items replies.new.items }
        ensures batch { IsBatch self.old.shard self.new.shard calls.items replies.new.items }
        ensures own { AreOwn self.new.shard }
        ensures kept { AreKept self.old.shard.terms (held self.old.shard) calls.items (R.may_leave self.old.records) (R.may_leave self.new.records)
            (R.is_stopped self.old.records) (R.is_stopped self.new.records) (R.faults self.old.records) (R.faults self.new.records) }
        // If the records are not stopped, a stop leaves exactly the acts that are then held, each made act among them. A shard whose records are
        // stopped judges nothing: not even repeats, if the records failed in this call.
        ensures left { R.is_stopped self.new.records ≡ false → LeavesOnly self.new.shard.terms (held self.new.shard) (R.may_leave self.new.records) }
        ensures going { is_one_judged replies.new.items ≡ true → R.is_stopped self.new.records ≡ false }
        ensures stopped { R.is_stopped self.old.records ≡ true → is_one_judged replies.new.items ≡ false }
        ensures apart { AllByRecursion IsReplyToldApart replies.new.items }
        // No answer has more octets.
        ensures bounded { AllByRecursion IsReplyBounded replies.new.items }
    {
        self.kept.acts_are_kept();
        make_all(&mut self.kept, alloc, &self.identity, calls, replies);
        self.kept.acts_are_kept();
    }
}

/// A copy of the identity, and the books of the acts that the records hold.
fn read<R: Records>(
    alloc: Global,
    identity: &Identity,
    records: &mut R,
    hasher: RandomState,
) -> Result<(Identity, IndexedBooks), StoreFault>
    ensures identity { IfOk result (λ read. read.0 ≡ identity.now) }
    ensures terms { IfOk result (λ read. read.1.books.terms ≡ R.terms records.old) }
    ensures stays { R.terms records.new ≡ R.terms records.old }
    ensures found { IfOk result (λ read. LeavesOnly read.1.books.terms (held_in read.1.books.rows) (R.may_leave records.new)) }
    ensures there { IfOk result (λ read. R.is_honest records.new → IsLeft read.1.books.terms (held_in read.1.books.rows) (R.may_leave records.new)) }
    ensures same { (found : Content) → R.may_leave records.new found → R.may_leave records.old found }
    ensures going { OnOk result (R.is_stopped records.new ≡ R.is_stopped records.old) }
    ensures open { OnOk result (R.is_stopped records.new ≡ false) }
    ensures device { result ≡ Err Device
        → (R.is_stopped records.old ≡ false) × (R.is_stopped records.new ≡ true) × (R.faults records.new ≡ R.faults records.old + 1) }
    ensures usable { result ≢ Err Device
        → (R.is_stopped records.new ≡ R.is_stopped records.old) × (R.faults records.new ≡ R.faults records.old) }
    ensures stopped { result ≡ Err Stopped → R.is_stopped records.old ≡ true }
    ensures frozen { R.is_stopped records.old ≡ true → result ≡ Err Stopped }
{
    let book = records.load()?;
    let identity = match identity.copy() {
        Ok(identity) => identity,
        Err(_) => {
            // By a call: a book that is let go in place is proved part by part.
            drop(book);
            return Err(StoreFault::Memory);
        }
    };
    content_has_one_book();
    let books = IndexedBooks::of_book(alloc, records.terms(), hasher, book)?;
    Ok((identity, books))
}
