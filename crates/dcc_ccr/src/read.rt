//! Reading a request: the checks of its lists, then its values, then the contradictions between them.

ghost use Rattle.std.specs.Prelude.{◌≡◌, ◌+◌, ◌≤◌, true, length, filter, Some, None, IfOk, IfErr};
ghost use Rattle.std.specs.List.{sum_by, list_all};
ghost use Rattle.dcc_avp.specs.Spelling.{has_code, padded_len};
ghost use Rattle.dcc_avp.specs.declared.codes.TheConstants.{MULTIPLE_SERVICES_CREDIT_CONTROL};
ghost use Rattle.dcc_message.specs.declared.length.TheConstants.{HEADER_LENGTH, MAX_LENGTH};
ghost use Rattle.dcc_act.specs.Services.{is_multi};
ghost use Rattle.dcc_request.specs.Answers.{Gives};
ghost use Rattle.dcc_request.specs.Sessions.{session_of};
ghost use Rattle.dcc_ccr.specs.Types.{is_report};
ghost use Rattle.dcc_ccr.specs.Requests.{ValuesView, IsStopWithin, values_of, request_of};

use crate::contradiction::contradiction;
use crate::request::Request;
use crate::request_type::{RequestType, type_of};
use crate::service::{Service, multi_of, service_in, services_of};
use crate::subscription::subscriber_of;
use dcc_act::{Form, Sub};
use dcc_avp::{Avp, codes};
use dcc_message::applications;
use dcc_request::{
    Command, Stop, check, clear, list_within, name_octets, number, number_within, required,
    shown_within,
};
use std::alloc::Global;
use std::marker::Model;

/// All values of a message: those of the request, and the services at both places.
#[derive(Drop)]
struct Values<'a> {
    sub: Option<Sub>,
    session: &'a [u8],
    number: u32,
    kind: RequestType,
    single: Service,
    multi: Vec<Service>,
}

impl<'a> Model for Values<'a> {
    ghost use Rattle.std.specs.Prelude.{◌≡◌, true};
    ghost use Rattle.dcc_octets.specs.Names.{is_short};
    ghost use Rattle.dcc_ccr.specs.Requests.{ValuesView};

    ghost Value = { ValuesView };

    ghost view = { λ v. record {
      sub = v.sub;
      session = v.session.now;
      number = v.number;
      type = v.kind;
      single = v.single;
      multi = v.multi.items;
    } };

    ghost invariant = { λ v. is_short v.session.now ≡ true };
}

/// The values of a message whose lists passed their checks, in the order in which they are read.
#[tactic(auto, using(crate::proofs::Limits::multi_length, crate::proofs::Forms::multi_forms), unfolding(crate::specs::Requests::values_of))]
fn values_of<'a>(alloc: Global, avps: &[Avp<'a>]) -> Result<Values<'a>, Stop<'a>>
    ensures value { Gives (λ values. values) result (values_of avps.now) }
    ensures count { IfOk result (λ values. length values.multi ≡ length (filter (has_code MULTIPLE_SERVICES_CREDIT_CONTROL) avps.now)) }
    ensures forms { IfOk result (λ values. list_all (λ service. is_multi service.form) values.multi ≡ true) }
{
    let session = name_octets(required(avps, codes::SESSION_ID)?)?;
    let application = required(avps, codes::AUTH_APPLICATION_ID)?;
    number_within(
        application,
        applications::CREDIT_CONTROL,
        applications::CREDIT_CONTROL,
    )?;
    let kind = number_within(required(avps, codes::CC_REQUEST_TYPE)?, 1, 4)?;
    let number = number(required(avps, codes::CC_REQUEST_NUMBER)?)?;
    let kind = type_of(avps, kind)?;
    let sub = subscriber_of(alloc, avps)?;
    let single = service_in(alloc, Form::Single, None, avps)?;
    let multi = multi_of(alloc, avps)?;
    Ok(Values {
        sub,
        session,
        number,
        kind,
        single,
        multi,
    })
}

/// Reads the request in a message's list, or returns its first fault. Each check is made over the whole message before the
/// next (RFC 8506, section 3.1). The message's header has to be that of a credit-control request, which `command_of`
/// shows. The faults are:
///
/// - the faults of `dcc_request::check`;
/// - `InvalidAvpLength` and `InvalidAvpValue`, of the values as the crate's page orders them: an AVP that has another size
///   than its format, a Session-Id of no octets or over 255 octets; an Auth-Application-Id other than 4, a CC-Request-Type
///   outside 1 to 4, a Requested-Action outside 0 to 3 in an event, a Subscription-Id-Type over 4 or data other than 1 to
///   64 visible characters in the chosen Subscription-Id; a Requested-Service-Unit of more than 10^12 in any unit, and the
///   Used-Service-Unit with which the sum of its service passes 10^12;
/// - `ContradictingAvps`, with both AVPs: a Requested-Service-Unit or else a Used-Service-Unit at the level of the message
///   beside the first Multiple-Services-Credit-Control; the first two of these in an event; the first two of one service
///   key, which is the Rating-Group and the first Service-Identifier.
///
/// AVPs inside groups are shown without the groups. The only other error is want of memory.
///
/// The list and its message's header together have at most 65,532 octets, with the padding of the last AVP.
#[tactic(auto, unfolding(crate::specs::Requests::request_of))]
pub fn read_ccr<'a>(alloc: Global, avps: &[Avp<'a>]) -> Result<Request<'a>, Stop<'a>>
    requires small { HEADER_LENGTH + sum_by padded_len avps.now ≤ MAX_LENGTH }
    ensures value { Gives (λ request. request) result (request_of avps.now) }
    // The session that a busy answer would copy is the request's.
    ensures session { IfOk result (λ request. session_of avps.now ≡ Some request.session) }
    // Only an update or a termination names nobody.
    ensures named { IfOk result (λ request. request.sub ≡ None → is_report request.type ≡ true) }
    // The AVPs that a refusal shows fit a message.
    ensures shown { IfErr result IsStopWithin }
{
    shown_within();
    list_within();
    check(alloc, Command::CreditControl, avps)?;
    let values = values_of(alloc, avps)?;
    clear(contradiction(values.kind, &values.multi, avps))?;
    let services = services_of(values.kind, values.single, values.multi)?;
    Ok(Request {
        sub: values.sub,
        session: values.session,
        number: values.number,
        kind: values.kind,
        services,
    })
}
