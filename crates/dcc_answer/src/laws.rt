//! The laws of answers. Each is the contract of a function that does nothing.

ghost use Rattle.std.specs.Prelude.{◌≡◌, ℕ, ◌≤◌, ◌<◌, ◌^◌, ◌==◌, true, List, ◌++◌, length, drop, Option, Ok};
ghost use Rattle.std.specs.List.{flat_map, sum_by, AllByRecursion};
ghost use Rattle.std.specs.Option.{ForSome};
ghost use Rattle.dcc_octets.specs.Names.{is_short};
ghost use Rattle.dcc_avp.specs.Spelling.{AvpView, HasSpelling, padded, padded_len, Spells};
ghost use Rattle.dcc_avp.specs.Reading.{avps_of};
ghost use Rattle.dcc_message.specs.HeaderView.{HeaderView};
ghost use Rattle.dcc_message.specs.Headers.{IsHeader, header_of};
ghost use Rattle.dcc_message.specs.declared.length.TheConstants.{HEADER_LENGTH, MAX_LENGTH};
ghost use Rattle.dcc_message.specs.declared.identity.Identity.{Identity};
ghost use Rattle.dcc_answer.specs.Answers.{answer_header, answer_with, error_avps, error_octets, IsServer};
ghost use Rattle.dcc_answer.specs.Failed.{failed_avps};
ghost use Rattle.dcc_answer.specs.Proxies.{proxies_of, SpellProxies};
ghost use Rattle.dcc_answer.specs.Results.{are_busy, is_busy};

use crate::answer::{MAX_ANSWER, MAX_OWN};
use crate::protocol_error::TOO_BUSY;

/// The numbers that definitions and clauses cite by name: DIAMETER_TOO_BUSY (RFC 6733, section 7.1.3), and the most octets of an answer, without its proxies
/// and with them.
pub fn numbers_are_given()
    ensures busy { TOO_BUSY ≡ 3004 }
    ensures own { MAX_OWN ≡ 100_000 }
    ensures answer { MAX_ANSWER ≡ 200_000 }
{}

/// Whether an answer is the busy one depends on its own AVPs alone, if they can be spelled: on its first Result-Code, since
/// proxies are Proxy-Info. So an answer that reports a protocol error is busy if and only if its code is TOO_BUSY. Each
/// answer has at least a header.
pub fn busy_by_result()
    ensures told { (request : HeaderView) (bits : ℕ) (avps : List AvpView) (proxies : List ℕ) →
        AllByRecursion HasSpelling avps → SpellProxies proxies →
        is_busy (answer_with request bits avps proxies) ≡ are_busy avps }
    ensures some { (request : HeaderView) (bits : ℕ) (avps : List AvpView) (proxies : List ℕ) →
        HEADER_LENGTH ≤ length (answer_with request bits avps proxies) }
    ensures error { (identity : Identity) (code : ℕ) (session : Option (List ℕ)) (request : HeaderView) (proxies : List ℕ) →
        IsServer identity → code < 2 ^ 32 → ForSome session (λ octets. is_short octets ≡ true) → SpellProxies proxies →
        is_busy (error_octets identity code session request proxies) ≡ (code == TOO_BUSY) }
    ensures error_some { (identity : Identity) (code : ℕ) (session : Option (List ℕ)) (request : HeaderView) (proxies : List ℕ) →
        HEADER_LENGTH ≤ length (error_octets identity code session request proxies) }
{
    dcc_avp::read_back();
}

/// The proxies that an answer copies from a list that was read are Proxy-Info that can be spelled.
pub fn proxies_are_spelled()
    ensures { (octets : List ℕ) (avps : List AvpView) → Spells octets avps → SpellProxies (proxies_of avps) }
{}

/// A written answer is read back, if its AVPs can be spelled: the AVPs, with the proxies behind the others, and the header
/// with the length of the message, if that is at most 65,532 octets. The AVPs of an answer that reports a protocol error
/// can be spelled, and so can a Failed-AVP of AVPs that fit a message.
pub fn read_back()
    ensures list { (request : HeaderView) (bits : ℕ) (avps proxies : List AvpView) →
        AllByRecursion HasSpelling avps → AllByRecursion HasSpelling proxies →
        avps_of (drop HEADER_LENGTH (answer_with request bits avps (flat_map padded proxies))) ≡ Ok (avps ++ proxies) }
    ensures header { (request : HeaderView) (bits : ℕ) (avps proxies : List AvpView) →
        AllByRecursion HasSpelling avps → AllByRecursion HasSpelling proxies → IsHeader request → bits < 2 ^ 8 →
        let answer = answer_with request bits avps (flat_map padded proxies) in
        length answer ≤ MAX_LENGTH → header_of answer ≡ Ok (record (answer_header request bits) { length = length answer }) }
    ensures error { (identity : Identity) (code : ℕ) (session : Option (List ℕ)) →
        IsServer identity → ForSome session (λ octets. is_short octets ≡ true) →
        AllByRecursion HasSpelling (error_avps identity code session) }
    ensures shown { (failed : List AvpView) → sum_by padded_len failed ≤ MAX_LENGTH → AllByRecursion HasSpelling (failed_avps failed) }
{
    dcc_avp::read_back();
    dcc_message::header_read_back();
}
