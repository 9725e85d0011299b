//! The texts of answers.

ghost use Rattle.std.specs.Prelude.{◌≡◌, ◌++◌, [], IfOk, OnOk, string_bytes};
ghost use Rattle.http_server.specs.Response.{IsBlank};
ghost use Rattle.std.specs.List.{list_any};
ghost use Rattle.dcc_port.specs.Sheets.{gauge_text, gauge_value, gauges, listed, sweep_end, sweep_status, sweep_text, with_index};
ghost use Rattle.dcc_port.specs.Sheets.{IsSheet, health_sheet, metrics_sheet, stop_sheet, sweep_sheet, unknown_sheet};

use crate::sheet::{Kind, put};
use crate::sweeping::Swept;
use http::StatusCode;
use http_server::Response;
use std::alloc::{AllocError, Global};

/// Writes a sweep. The only error is want of memory.
pub(crate) fn put_sweep(
    alloc: Global,
    response: &mut Response,
    swept: Swept,
) -> Result<(), AllocError>
    requires { IsBlank response.old }
    ensures { OnOk result (IsSheet (sweep_sheet swept) response.new) }
{
    let tally = swept.tally;
    let text = sweep_text(alloc, tally.sessions, tally.refused, sweep_end(swept.whole))?;
    put(
        response,
        sweep_status(swept.whole),
        Kind::Json,
        text.as_bytes(),
    )
}

fn sweep_status(whole: bool) -> StatusCode
    ensures { result ≡ sweep_status whole }
{
    if whole {
        StatusCode::OK
    } else {
        StatusCode::SERVICE_UNAVAILABLE
    }
}

fn sweep_end(whole: bool) -> &'static str
    ensures { result.now ≡ sweep_end whole }
{
    if whole { "}" } else { ",\"told\":\"ended\"}" }
}

/// A sweep as text. The only error is want of memory.
#[tactic(auto, unfolding(crate::specs::Sheets::sweep_text))]
fn sweep_text(alloc: Global, sessions: u64, refused: u64, end: &str) -> Result<String, AllocError>
    ensures { IfOk result (λ text. string_bytes text ≡ sweep_text sessions refused end.now) }
{
    let text = format!(in alloc; "{{\"sessions\":{sessions},\"refused\":{refused}{end}")?;
    Ok(text)
}

/// Writes the server's counters, and whether each shard has stopped. The only error is want of memory.
pub(crate) fn put_metrics(
    alloc: Global,
    response: &mut Response,
    page: Vec<u8>,
    told: &[bool],
) -> Result<(), AllocError>
    requires { IsBlank response.old }
    ensures { OnOk result (IsSheet (metrics_sheet page.items told.now) response.new) }
{
    let mut text = page;
    text.extend_from_slice(GAUGE_HEAD)?;
    put_gauges(alloc, &mut text, told)?;
    put(response, StatusCode::OK, Kind::Metrics, text.as_slice())
}

const GAUGE_HEAD: &[u8] =
    b"# HELP dcc_shard_stopped Whether the records of a shard have failed.\n# TYPE dcc_shard_stopped gauge\n";

/// Adds to a text whether each shard has stopped, a line for each.
fn put_gauges(alloc: Global, text: &mut Vec<u8>, told: &[bool]) -> Result<(), AllocError>
    ensures { OnOk result (text.new.items ≡ text.old.items ++ gauges 0 told.now) }
{
    for (i, stopped) in told.iter().enumerate() {
        put_gauge(alloc, text, i, *stopped)?;
    }
    Ok(())
}

/// Adds to a text whether a shard has stopped.
fn put_gauge(
    alloc: Global,
    text: &mut Vec<u8>,
    index: usize,
    stopped: bool,
) -> Result<(), AllocError>
    ensures { OnOk result (text.new.items ≡ text.old.items ++ gauge_text index (gauge_value stopped)) }
{
    let line = gauge_text(alloc, index, gauge_value(stopped))?;
    text.extend_from_slice(line.as_bytes())
}

/// A gauge of a shard, as text. The only error is want of memory.
#[tactic(auto, unfolding(crate::specs::Sheets::gauge_text))]
fn gauge_text(alloc: Global, index: usize, value: &str) -> Result<String, AllocError>
    ensures { IfOk result (λ text. string_bytes text ≡ gauge_text index value.now) }
{
    let text = format!(in alloc; "dcc_shard_stopped{{shard=\"{index}\"}} {value}\n")?;
    Ok(text)
}

fn gauge_value(stopped: bool) -> &'static str
    ensures { result.now ≡ gauge_value stopped }
{
    if stopped { "1" } else { "0" }
}

/// Writes whether the server is well, by what each shard was found. The only error is want of memory.
pub(crate) fn put_health(
    alloc: Global,
    response: &mut Response,
    told: &[bool],
) -> Result<(), AllocError>
    requires { IsBlank response.old }
    ensures { OnOk result (IsSheet (health_sheet told.now) response.new) }
{
    if !is_any(told) {
        return put(response, StatusCode::OK, Kind::Json, b"{\"status\":\"ok\"}");
    }
    let mut text = Vec::from_slice(alloc, b"{\"status\":\"stopped\",\"shards\":[")?;
    let indexes = listed(alloc, told)?;
    text.extend_from_slice(indexes.as_slice())?;
    text.extend_from_slice(b"]}")?;
    put(
        response,
        StatusCode::SERVICE_UNAVAILABLE,
        Kind::Json,
        text.as_slice(),
    )
}

/// Whether a shard has stopped.
fn is_any(told: &[bool]) -> bool
    ensures { result ≡ list_any (λ stopped. stopped) told.now }
{
    told.iter().any(|stopped| *stopped)
}

/// The indexes of the stopped shards, with commas between them.
fn listed(alloc: Global, told: &[bool]) -> Result<Vec<u8>, AllocError>
    ensures { IfOk result (λ text. text.items ≡ listed 0 told.now []) }
{
    let mut text = Vec::new(alloc);
    for (i, stopped) in told.iter().enumerate() {
        if *stopped {
            put_index(alloc, &mut text, i)?;
        }
    }
    Ok(text)
}

/// Adds an index to a list of them.
fn put_index(alloc: Global, text: &mut Vec<u8>, index: usize) -> Result<(), AllocError>
    ensures { OnOk result (text.new.items ≡ with_index text.old.items index) }
{
    let digits = format!(in alloc; "{index}")?;
    if !text.is_empty() {
        text.extend_from_slice(b",")?;
    }
    text.extend_from_slice(digits.as_bytes())
}

/// Writes that a subscriber is unknown. The only error is want of memory.
pub(crate) fn put_unknown(response: &mut Response) -> Result<(), AllocError>
    requires { IsBlank response.old }
    ensures { OnOk result (IsSheet unknown_sheet response.new) }
{
    put(response, StatusCode::NOT_FOUND, Kind::Json, UNKNOWN_TEXT)
}

const UNKNOWN_TEXT: &[u8] =
    b"{\"error\":\"unknown subscriber\",\"in\":\"path\",\"expected\":\"a subscriber with acts\"}";

/// Writes that the server was told to end. The only error is want of memory.
pub(crate) fn put_stop(response: &mut Response) -> Result<(), AllocError>
    requires { IsBlank response.old }
    ensures { OnOk result (IsSheet stop_sheet response.new) }
{
    put(
        response,
        StatusCode::ACCEPTED,
        Kind::Json,
        b"{\"told\":\"stop\"}",
    )
}
