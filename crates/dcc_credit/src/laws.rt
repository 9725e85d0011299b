//! The laws of answers. Each is the contract of a function that does nothing.

ghost use Rattle.std.specs.Option.{ForSome};
ghost use Rattle.dcc_octets.specs.Names.{is_short};
ghost use Rattle.dcc_act.specs.declared.act.Act.{Act};
ghost use Rattle.std.specs.Prelude.{◌≡◌, ℕ, ◌≤◌, true, false, List, ◌++◌, length, drop, Ok};
ghost use Rattle.std.specs.List.{flat_map, sum_by, AllByRecursion};
ghost use Rattle.dcc_avp.specs.Spelling.{AvpView, HasSpelling, padded, padded_len};
ghost use Rattle.dcc_avp.specs.Reading.{FaultView, avps_of};
ghost use Rattle.dcc_message.specs.HeaderView.{HeaderView};
ghost use Rattle.dcc_message.specs.Headers.{IsHeader, header_of};
ghost use Rattle.dcc_message.specs.declared.identity.Identity.{Identity};
ghost use Rattle.dcc_message.specs.declared.length.TheConstants.{HEADER_LENGTH, MAX_LENGTH};
ghost use Rattle.dcc_request.specs.Refusals.{Refusal};
ghost use Rattle.dcc_answer.specs.Answers.{answer_header, IsServer};
ghost use Rattle.dcc_answer.specs.Proxies.{SpellProxies};
ghost use Rattle.dcc_answer.specs.Results.{is_busy};
ghost use Rattle.dcc_tariff.specs.Terms.{TermsView};
ghost use Rattle.dcc_act.specs.declared.outcome.Outcome.{Outcome};
ghost use Rattle.dcc_credit.specs.Answers.{answer_avps, answer_octets, HasLimits};
ghost use Rattle.dcc_credit.specs.Refusals.{Taken, taken_from, taken_of, refusal_octets, unread_octets, unfound_octets};

use crate::answer::USER_UNKNOWN;
use crate::use_of_grants::TERMINATE;
use dcc_answer::busy_by_result;
use dcc_request::shown_within;

/// The numbers that answers cite by name are those of RFC 8506: DIAMETER_USER_UNKNOWN (section 9.2) and TERMINATE (section 8.35).
pub fn numbers_are_given()
    ensures unknown { USER_UNKNOWN ≡ 5030 }
    ensures terminate { TERMINATE ≡ 0 }
{}

/// No answer of an outcome and no refusal is the busy answer, if the names, the outcome and the AVPs that a refusal shows are
/// within their limits, and the proxies are Proxy-Info that can be spelled. Each of them has at least a header.
pub fn told_apart()
    ensures answered { (identity : Identity) (terms : TermsView) (request : HeaderView) (proxies : List ℕ) (outcome : Outcome) →
        IsServer identity → HasLimits outcome → SpellProxies proxies →
        is_busy (answer_octets identity terms request proxies outcome) ≡ false }
    ensures answered_some { (identity : Identity) (terms : TermsView) (request : HeaderView) (proxies : List ℕ) (outcome : Outcome) →
        HEADER_LENGTH ≤ length (answer_octets identity terms request proxies outcome) }
    ensures refused { (identity : Identity) (request : HeaderView) (avps : List AvpView) (proxies : List ℕ) (refusal : Refusal) →
        IsServer identity → sum_by padded_len refusal.failed ≤ MAX_LENGTH → SpellProxies proxies →
        is_busy (refusal_octets identity request (taken_from avps) proxies refusal) ≡ false }
    ensures unread { (identity : Identity) (request : HeaderView) (fault : FaultView) →
        IsServer identity → is_busy (unread_octets identity request fault) ≡ false }
    ensures unfound { (identity : Identity) (request : HeaderView) (act : Act) (proxies : List ℕ) →
        IsServer identity → ForSome (taken_of act.kind).session (λ octets. is_short octets ≡ true) → SpellProxies proxies →
        is_busy (unfound_octets identity request act proxies) ≡ false }
    ensures refused_some { (identity : Identity) (request : HeaderView) (taken : Taken) (proxies : List ℕ) (refusal : Refusal) →
        HEADER_LENGTH ≤ length (refusal_octets identity request taken proxies refusal) }
{
    dcc_avp::read_back();
    dcc_answer::read_back();
    busy_by_result();
    shown_within();
}

/// A written answer is read back, if the names and the outcome are within their limits: the AVPs, with the proxies
/// behind the others, and the header with the length of the message, if that is at most 65,532 octets.
pub fn read_back()
    ensures answered { (identity : Identity) (terms : TermsView) (request : HeaderView) (proxies : List AvpView) (outcome : Outcome) →
        IsServer identity → HasLimits outcome → AllByRecursion HasSpelling proxies →
        avps_of (drop HEADER_LENGTH (answer_octets identity terms request (flat_map padded proxies) outcome))
        ≡ Ok (answer_avps identity terms outcome ++ proxies) }
    ensures answered_header { (identity : Identity) (terms : TermsView) (request : HeaderView)
        (proxies : List AvpView) (outcome : Outcome) →
        IsServer identity → HasLimits outcome → AllByRecursion HasSpelling proxies → IsHeader request →
        let answer = answer_octets identity terms request (flat_map padded proxies) outcome in
        length answer ≤ MAX_LENGTH → header_of answer ≡ Ok (record (answer_header request 0) { length = length answer }) }
{
    dcc_avp::read_back();
    dcc_answer::read_back();
}
