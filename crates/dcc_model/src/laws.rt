//! Laws of the definitions: the facts of outcomes and acts that the crates above use without the definitions
//! themselves. Each is the contract of a function that does nothing.

ghost use Rattle.std.specs.Prelude.{◌≡◌, pos};
ghost use Rattle.dcc_model.specs.Laws.{LaterChangesNothing, OneMoreAct, AfterStays, NewStays, PlaceStays, OutcomesStay, ActsStay};
ghost use Rattle.dcc_model.specs.Laws.{ActsAreActs, NoActs, KeptStay, OpenersStay, OneMoreOpens, AccountStays, NewIsLast, PlaceHolds, UnknownHasNoPlace};
ghost use Rattle.dcc_model.specs.Laws.{IdleExpiryHasNoPlace, LastComesAfter, UnknownBefore, NewAreDecided, RepeatsAreFirsts, RepeatsAreOld};
ghost use Rattle.dcc_model.specs.Laws.{RequestsAreAnswered, TopUpsAreAdded, ExpiriesEnd};
ghost use Rattle.dcc_model.specs.Laws.{IsKeyed, FundsAreLimited, ChargesAreBorne, FreeIsCovered, GrantsAreCovered, EntriesAddUp, FewAreOpen, SessionsOpenOnce, LiveAreOpen, LiveIsFound};

use crate::decide::CEILING;
use crate::money::services_of;
use dcc_act::Act;

/// The limit that definitions cite by name: funds are at most 10^18 minor units.
pub fn numbers_are_given()
    ensures { CEILING ≡ pos 1_000_000_000_000_000_000 }
{}

/// Later acts change no outcome.
pub fn later_acts_change_no_outcome()
    ensures { LaterChangesNothing }
{}

/// One more act stands behind the acts before it if it is new, and else changes nothing.
pub fn one_more_act()
    ensures { OneMoreAct }
{}

/// One more act opens its session from its host if it is new and its outcome opens a session. An opened session stays opened.
pub fn one_more_act_opens()
    ensures { OneMoreOpens }
{}

/// Leaving out acts that aren't made changes neither the outcome of one more act, nor whether it is new, nor its place, nor
/// the outcomes of later acts, nor which acts are made, nor the outcomes that are kept, nor who opened which session from
/// which host, nor the account.
pub fn leaving_out_changes_nothing()
    ensures after { AfterStays }
    ensures is_new { NewStays }
    ensures place { PlaceStays }
    ensures outcomes { OutcomesStay }
    ensures acts { ActsStay }
    ensures whole { ActsAreActs }
    ensures none { NoActs }
    ensures kept { KeptStay }
    ensures openers { OpenersStay }
    ensures account { AccountStays }
{}

/// A new act's place is behind all others. At the place of an act stands that act or an act of its key, with its outcome.
/// An act that is no expiry has no place if and only if it is of an unknown user. An expiry has no place if and only if
/// it ends nothing.
pub fn places_hold()
    ensures last { NewIsLast }
    ensures stands { PlaceHolds }
    ensures unknown { UnknownHasNoPlace }
    ensures idle { IdleExpiryHasNoPlace }
{}

/// The last act has its outcome after the acts before it. Before the first top-up a request is of an unknown user and isn't
/// made. The outcome of a made act is that of its decision. The outcome of a request is one that a request may have. A
/// top-up is added, or passes the ceiling. An expiry ends some number of sessions. A repeat of a made act has the outcome of
/// that act. It isn't made again.
pub fn acts_come_to_their_own()
    ensures last { LastComesAfter }
    ensures unknown { UnknownBefore }
    ensures decided { NewAreDecided }
    ensures requests { RequestsAreAnswered }
    ensures top_ups { TopUpsAreAdded }
    ensures expiries { ExpiriesEnd }
    ensures repeats { RepeatsAreFirsts }
    ensures old { RepeatsAreOld }
{}

/// An act's services have keys of their own.
#[tactic(auto, using(crate::proofs::Answering::apart_of))]
pub fn keys_are_apart(act: &Act)
    ensures { IsKeyed act.now }
{
    let _services = services_of(&act.kind);
}

/// The funds stay from -10^18 to 10^18 minor units. If each act's services have keys of their own, only overrun takes the
/// free money below 0. The price of each grant of a new act is 0, or is within its room, or of a one-time event within the
/// free money. The entries in the books add up to the funds.
pub fn funds_are_accounted_for()
    ensures limited { FundsAreLimited }
    ensures covered { FreeIsCovered }
    ensures granted { GrantsAreCovered }
    ensures entries { EntriesAddUp }
{}

/// The charges of a new act for all its reports are at most 2 * 10^18 minor units together: the funds were at most 10^18
/// before, and the floor bears the funds after it. So no sum of accepted charges depends on how many services a request may
/// have.
pub fn charges_are_borne()
    ensures { ChargesAreBorne }
{}

/// At most 1,024 sessions are open, whatever limits the acts have. A session is opened once, and never again, whether it is open or has ended. Each
/// live grant is of an open session. If each act's services have keys of their own, a service's live grant, which the last act that named the service
/// made, is the grant for it among all live grants.
pub fn sessions_open_once()
    ensures few { FewAreOpen }
    ensures once { SessionsOpenOnce }
    ensures live { LiveAreOpen }
    ensures found { LiveIsFound }
{}
