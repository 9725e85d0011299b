//! Responses.

ghost use Rattle.std.specs.Prelude.{◌≡◌, ◌∷◌, ◌++◌, [], ◌≤◌, ◌+◌, length, vec_len, vec_capacity, IfOk, OnOk, OnErr};
ghost use Rattle.http_server.specs.Response.{IsBlank, IsResponse, fields_of};
ghost use Rattle.dcc_port.specs.Calls.{name_of};
ghost use Rattle.dcc_port.specs.Sheets.{IsSheet, IsShort, body_text, flaw_sheet, flaw_status, flaw_text, line_end, line_text, method_text, type_of, type_field};

use crate::call::{BodySlip, Flaw, LineSlip, Member, Verb};
use bytes::BufMut;
use http::{HeaderName, HeaderValue, StatusCode};
use http_server::Response;
use std::alloc::{AllocError, Global};

/// The media types of texts.
#[derive(Clone, Copy)]
pub(crate) enum Kind {
    Json,
    Plain,
    /// The counters of a server, in the format of Prometheus.
    Metrics,
}

/// Room for one field, and for a text of so many octets.
pub(crate) fn make_room(response: &mut Response, len: usize) -> Result<(), AllocError>
    requires { IsBlank response.old }
    ensures blank { IsBlank response.new }
    ensures field { OnOk result (vec_len response.new.headers + 1 ≤ vec_capacity response.new.headers) }
    ensures text { OnOk result (len ≤ response.new.body.spare) }
{
    response.headers.reserve(1)?;
    response.body.reserve(len)
}

/// Writes a response. The condition: there is room for its field and its text.
pub(crate) fn put_reserved(response: &mut Response, status: StatusCode, kind: Kind, text: &[u8])
    requires blank { IsBlank response.old }
    requires field { vec_len response.old.headers + 1 ≤ vec_capacity response.old.headers }
    requires text { length text.now ≤ response.old.body.spare }
    ensures { IsResponse status (type_field kind ∷ []) text.now response.new }
{
    let name = HeaderName::from_static("content-type");
    response.headers.push_reserved((name, content_type(kind)));
    let Ok(()) = response.body.put_slice(text) else {
        unreachable!()
    };
    response.status = status;
}

/// Writes a response. The only error is want of memory.
pub(crate) fn put(
    response: &mut Response,
    status: StatusCode,
    kind: Kind,
    text: &[u8],
) -> Result<(), AllocError>
    requires { IsBlank response.old }
    ensures { OnOk result (IsResponse status (type_field kind ∷ []) text.now response.new) }
{
    make_room(response, text.len())?;
    put_reserved(response, status, kind, text);
    Ok(())
}

/// Writes that memory was short. It takes no memory.
pub(crate) fn put_short(response: &mut Response)
    ensures { IsShort response.new }
{
    response.clear();
    response.status = StatusCode::INTERNAL_SERVER_ERROR;
}

/// Writes the refusal of a request. The only error is want of memory.
pub(crate) fn put_flaw(alloc: Global, response: &mut Response, flaw: Flaw) -> Result<(), AllocError>
    requires { IsBlank response.old }
    ensures { OnOk result (IsSheet (flaw_sheet flaw) response.new) }
{
    let text = flaw_text(alloc, flaw)?;
    put(response, flaw_status(flaw), Kind::Json, text.as_slice())?;
    if let Flaw::Method(verb) = flaw {
        response.add_header(HeaderName::from_static("allow"), allowed(verb))?;
    }
    Ok(())
}

fn flaw_status(flaw: Flaw) -> StatusCode
    ensures { result ≡ flaw_status flaw }
{
    match flaw {
        Flaw::Path => StatusCode::NOT_FOUND,
        Flaw::Method(_) => StatusCode::METHOD_NOT_ALLOWED,
        Flaw::Subscriber | Flaw::Body(_) | Flaw::Line(_, _) | Flaw::Folder => {
            StatusCode::BAD_REQUEST
        }
        Flaw::Origin | Flaw::Host => StatusCode::FORBIDDEN,
    }
}

/// The text of a refusal. The only error is want of memory.
fn flaw_text(alloc: Global, flaw: Flaw) -> Result<Vec<u8>, AllocError>
    ensures { IfOk result (λ text. text.items ≡ flaw_text flaw) }
{
    match flaw {
        Flaw::Path => Vec::from_slice(alloc, PATH_TEXT),
        Flaw::Method(verb) => Vec::from_slice(alloc, method_text(verb)),
        Flaw::Subscriber => Vec::from_slice(alloc, SUBSCRIBER_TEXT),
        Flaw::Body(slip) => Vec::from_slice(alloc, body_text(slip)),
        Flaw::Line(line, slip) => line_text(alloc, line, line_end(slip)),
        Flaw::Folder => Vec::from_slice(alloc, FOLDER_TEXT),
        Flaw::Origin => Vec::from_slice(alloc, ORIGIN_TEXT),
        Flaw::Host => Vec::from_slice(alloc, HOST_TEXT),
    }
}

/// The refusal of a line, with this end. The only error is want of memory.
#[tactic(auto, unfolding(crate::specs::Sheets::line_text))]
fn line_text(alloc: Global, line: u64, end: &str) -> Result<Vec<u8>, AllocError>
    ensures { IfOk result (λ text. text.items ≡ line_text line end.now) }
{
    let text = format!(in alloc; "{{\"error\":\"unreadable top-up\",\"in\":\"line {line}{end}")?;
    Vec::from_slice(alloc, text.as_bytes())
}

/// The end of the refusal of a line: the word at fault, and what its place expects.
fn line_end(slip: LineSlip) -> &'static str
    ensures { result.now ≡ line_end slip }
{
    match slip {
        LineSlip::Count => {
            "\",\"expected\":\"SUB TICKET AMOUNT, with one space between them, as 0:491700000001 1 1000\"}"
        }
        LineSlip::Subscriber => ", SUB\",\"expected\":\"TYPE:DATA, as 0:491700000001\"}",
        LineSlip::Ticket => ", TICKET\",\"expected\":\"0 to 18446744073709551615\"}",
        LineSlip::Amount => ", AMOUNT\",\"expected\":\"0 to 18446744073709551615\"}",
    }
}

/// The refusal of another method than the path's.
fn method_text(verb: Verb) -> &'static [u8]
    ensures { result.now ≡ method_text verb }
{
    match verb {
        Verb::Get => b"{\"error\":\"other method\",\"in\":\"method\",\"expected\":\"GET\"}",
        Verb::Post => b"{\"error\":\"other method\",\"in\":\"method\",\"expected\":\"POST\"}",
    }
}

/// The refusal of a top-up's body.
fn body_text(slip: BodySlip) -> &'static [u8]
    ensures { result.now ≡ body_text slip }
{
    match slip {
        BodySlip::NoJson => NO_JSON_TEXT,
        BodySlip::Missing(Member::Ticket) => NO_TICKET_TEXT,
        BodySlip::Missing(Member::Amount) => NO_AMOUNT_TEXT,
        BodySlip::NoNumber(Member::Ticket) => TICKET_TEXT,
        BodySlip::NoNumber(Member::Amount) => AMOUNT_TEXT,
    }
}

const PATH_TEXT: &[u8] =
    b"{\"error\":\"unknown path\",\"in\":\"path\",\"expected\":\"/health, /metrics, /subscribers/SUB, its /ledger or /topups, /topups, /sweep, /backup or /stop\"}";

const SUBSCRIBER_TEXT: &[u8] =
    b"{\"error\":\"unreadable subscriber\",\"in\":\"path\",\"expected\":\"TYPE:DATA, percent-encoded, as 0:491700000001 or 4:a%2Fb\"}";

const NO_JSON_TEXT: &[u8] =
    b"{\"error\":\"body is no JSON\",\"in\":\"body\",\"expected\":\"an object in ASCII, as {\\\"ticket\\\":1,\\\"amount\\\":1000}\"}";

const NO_TICKET_TEXT: &[u8] =
    b"{\"error\":\"missing member\",\"in\":\"ticket\",\"expected\":\"a whole number of 0 to 18446744073709551615\"}";

const NO_AMOUNT_TEXT: &[u8] =
    b"{\"error\":\"missing member\",\"in\":\"amount\",\"expected\":\"a whole number of 0 to 18446744073709551615\"}";

const TICKET_TEXT: &[u8] =
    b"{\"error\":\"no whole number\",\"in\":\"ticket\",\"expected\":\"0 to 18446744073709551615, without a point and without quotes\"}";

const AMOUNT_TEXT: &[u8] =
    b"{\"error\":\"no whole number\",\"in\":\"amount\",\"expected\":\"0 to 18446744073709551615, without a point and without quotes\"}";

const FOLDER_TEXT: &[u8] =
    b"{\"error\":\"unreadable folder\",\"in\":\"body\",\"expected\":\"{\\\"folder\\\":\\\"/PATH\\\"} in ASCII, with at most 1024 octets\"}";

const ORIGIN_TEXT: &[u8] =
    b"{\"error\":\"origin of a page\",\"in\":\"field origin\",\"expected\":\"no such field: a page of a browser sends it\"}";

const HOST_TEXT: &[u8] =
    b"{\"error\":\"host by name\",\"in\":\"field host\",\"expected\":\"an address in numbers, as 127.0.0.1 in place of localhost: a page of a browser may send a name\"}";

fn allowed(verb: Verb) -> HeaderValue
    ensures { result.bytes ≡ name_of verb }
{
    match verb {
        Verb::Get => HeaderValue::from_static("GET"),
        Verb::Post => HeaderValue::from_static("POST"),
    }
}

fn content_type(kind: Kind) -> HeaderValue
    ensures { result.bytes ≡ type_of kind }
{
    match kind {
        Kind::Json => HeaderValue::from_static("application/json"),
        Kind::Plain => HeaderValue::from_static("text/plain; charset=utf-8"),
        Kind::Metrics => HeaderValue::from_static("text/plain; version=0.0.4"),
    }
}
