//! The families of a page: their names, and the labels of their numbers.

ghost use Rattle.std.specs.Prelude.{◌≡◌, ◌++◌, OnOk};
ghost use Rattle.dcc_metrics.specs.Families.{bound_at, bound_text, command_of, help_of, kind_at, kind_text, labels_of, name_of, result_text, shard_text, tail_of, type_label, type_of};

use crate::requests::{KINDS, RequestKind};
use crate::results::RESULTS;
use std::alloc::{AllocError, Global};

/// The families of numbers of a page.
#[derive(Clone, Copy)]
pub(crate) enum Family {
    Gateways,
    GatewaysTotal,
    GatewayInfo,
    Requests,
    Answers,
    Acts,
    Repeats,
    Busy,
    Subscribers,
    Sweeps,
    SessionsEnded,
    Batches,
    LaneItems,
    Audits,
    AuditedReceipts,
    AuditSeconds,
    Seconds,
}

/// What the numbers of a family are of.
#[derive(Clone, Copy)]
pub(crate) enum Labels {
    /// Of the server: it has one number.
    Server,
    /// Of the kinds of requests.
    Kind,
    /// Of the Result-Codes.
    Result,
    /// Of the shards.
    Shard,
    /// Of the buckets of times.
    Bound,
}

impl Family {
    /// The name of the family.
    #[tactic(auto, unfolding(crate::specs::Families::name_of))]
    pub fn name(self) -> &'static str
        ensures { result.now ≡ name_of self }
    {
        match self {
            Family::Gateways => "dcc_gateways",
            Family::GatewaysTotal => "dcc_gateways_total",
            Family::GatewayInfo => "dcc_gateway_info",
            Family::Requests => "dcc_requests_total",
            Family::Answers => "dcc_answers_total",
            Family::Acts => "dcc_acts_total",
            Family::Repeats => "dcc_repeats_total",
            Family::Busy => "dcc_busy_total",
            Family::Subscribers => "dcc_subscribers",
            Family::Sweeps => "dcc_sweeps_total",
            Family::SessionsEnded => "dcc_sessions_ended_total",
            Family::Batches => "dcc_batches_total",
            Family::LaneItems => "dcc_lane_items",
            Family::Audits => "dcc_audits_total",
            Family::AuditedReceipts => "dcc_audited_receipts_total",
            Family::AuditSeconds => "dcc_audit_seconds_total",
            Family::Seconds => "dcc_answer_seconds",
        }
    }

    /// What the family counts, in words.
    #[tactic(auto, unfolding(crate::specs::Families::help_of))]
    pub fn help(self) -> &'static str
        ensures { result.now ≡ help_of self }
    {
        match self {
            Family::Gateways => "Gateways that are connected.",
            Family::GatewaysTotal => "Gateways that have connected.",
            Family::GatewayInfo => "Hosts of gateways that are connected.",
            Family::Requests => "Messages of gateways, by command and CC-Request-Type.",
            Family::Answers => "Answers, by Result-Code.",
            Family::Acts => "Acts held by a shard.",
            Family::Repeats => "Requests and top-ups that repeat an act.",
            Family::Busy => "Requests that a shard answered as busy.",
            Family::Subscribers => "Subscribers with acts in a shard.",
            Family::Sweeps => "Sweeps that a shard was asked for.",
            Family::SessionsEnded => "Sessions that sweeps ended.",
            Family::Batches => "Batches of items that a worker took.",
            Family::LaneItems => "Items that a worker took last together.",
            Family::Audits => "Audits of the receipts of a shard.",
            Family::AuditedReceipts => "Receipts of a shard that were audited.",
            Family::AuditSeconds => "Time that audits took.",
            Family::Seconds => "Time from the reading of a request to its answer.",
        }
    }

    /// The type of the family.
    #[tactic(auto, unfolding(crate::specs::Families::type_of))]
    pub fn kind(self) -> &'static str
        ensures { result.now ≡ type_of self }
    {
        match self {
            Family::Gateways | Family::GatewayInfo | Family::Subscribers | Family::LaneItems =>
                "gauge",
            Family::Seconds => "histogram",
            Family::GatewaysTotal
            | Family::Requests
            | Family::Answers
            | Family::Acts
            | Family::Repeats
            | Family::Busy
            | Family::Sweeps
            | Family::SessionsEnded
            | Family::Batches
            | Family::Audits
            | Family::AuditedReceipts
            | Family::AuditSeconds => "counter",
        }
    }

    /// What the numbers of the family are of.
    fn labels(self) -> Labels
        ensures { result ≡ labels_of self }
    {
        match self {
            Family::Gateways | Family::GatewaysTotal | Family::GatewayInfo | Family::AuditSeconds =>
                Labels::Server,
            Family::Requests => Labels::Kind,
            Family::Answers => Labels::Result,
            Family::Seconds => Labels::Bound,
            Family::Acts
            | Family::Repeats
            | Family::Busy
            | Family::Subscribers
            | Family::Sweeps
            | Family::SessionsEnded
            | Family::Batches
            | Family::LaneItems
            | Family::Audits
            | Family::AuditedReceipts => Labels::Shard,
        }
    }
}

/// Appends what stands between a family's name and its number of this index: the labels, and of a bucket a suffix before them. The only error is
/// want of memory.
pub(crate) fn put_tail(
    alloc: Global,
    page: &mut Vec<u8>,
    family: Family,
    index: usize,
) -> Result<(), AllocError>
    ensures { OnOk result (page.new.items ≡ page.old.items ++ tail_of (labels_of family) index) }
{
    match family.labels() {
        Labels::Server => Ok(()),
        Labels::Kind => put_kind(page, kind_at(index)),
        Labels::Result => put_result(alloc, page, index),
        Labels::Shard => put_shard(alloc, page, index),
        Labels::Bound => put_bound(alloc, page, index),
    }
}

/// The kind of this index.
fn kind_at(index: usize) -> RequestKind
    ensures { result ≡ kind_at index }
{
    KINDS.get(index).copied().unwrap_or(RequestKind::Other)
}

/// Appends the labels of a kind of requests.
#[tactic(auto, unfolding(crate::specs::Families::kind_text))]
fn put_kind(page: &mut Vec<u8>, kind: RequestKind) -> Result<(), AllocError>
    ensures { OnOk result (page.new.items ≡ page.old.items ++ kind_text kind) }
{
    page.extend_from_slice(b"{command=\"")?;
    page.extend_from_slice(command_of(kind).as_bytes())?;
    page.extend_from_slice(b"\",type=\"")?;
    page.extend_from_slice(type_label(kind).as_bytes())?;
    page.extend_from_slice(b"\"}")
}

/// The command of a kind, as RFC 6733 and RFC 8506 abbreviate it.
fn command_of(kind: RequestKind) -> &'static str
    ensures { result.now ≡ command_of kind }
{
    match kind {
        RequestKind::Capabilities => "CER",
        RequestKind::Watchdog => "DWR",
        RequestKind::Disconnect => "DPR",
        RequestKind::Initial
        | RequestKind::Update
        | RequestKind::Termination
        | RequestKind::Event
        | RequestKind::Untyped => "CCR",
        RequestKind::Other => "other",
    }
}

/// The CC-Request-Type of a kind.
fn type_label(kind: RequestKind) -> &'static str
    ensures { result.now ≡ type_label kind }
{
    match kind {
        RequestKind::Initial => "initial",
        RequestKind::Update => "update",
        RequestKind::Termination => "termination",
        RequestKind::Event => "event",
        RequestKind::Capabilities
        | RequestKind::Watchdog
        | RequestKind::Disconnect
        | RequestKind::Untyped
        | RequestKind::Other => "",
    }
}

/// Appends the label of a Result-Code.
#[tactic(auto, unfolding(crate::specs::Families::result_text))]
fn put_result(alloc: Global, page: &mut Vec<u8>, index: usize) -> Result<(), AllocError>
    ensures { OnOk result (page.new.items ≡ page.old.items ++ result_text index) }
{
    let label = match RESULTS.get(index) {
        Some(code) => format!(in alloc; "{{result=\"{code}\"}}")?,
        None => format!(in alloc; "{{result=\"other\"}}")?,
    };
    page.extend_from_slice(label.as_bytes())
}

/// Appends the label of a shard.
#[tactic(auto, unfolding(crate::specs::Families::shard_text))]
fn put_shard(alloc: Global, page: &mut Vec<u8>, index: usize) -> Result<(), AllocError>
    ensures { OnOk result (page.new.items ≡ page.old.items ++ shard_text index) }
{
    let label = format!(in alloc; "{{shard=\"{index}\"}}")?;
    page.extend_from_slice(label.as_bytes())
}

/// Appends the suffix and the label of a bucket.
#[tactic(auto, unfolding(crate::specs::Families::bound_text))]
fn put_bound(alloc: Global, page: &mut Vec<u8>, index: usize) -> Result<(), AllocError>
    ensures { OnOk result (page.new.items ≡ page.old.items ++ bound_text index) }
{
    let bound = bound_at(index);
    let label = format!(in alloc; "_bucket{{le=\"{bound}\"}}")?;
    page.extend_from_slice(label.as_bytes())
}

/// The bound of a bucket, in seconds.
#[tactic(auto, unfolding(crate::specs::Families::bound_at))]
fn bound_at(index: usize) -> &'static str
    ensures { result.now ≡ bound_at index }
{
    match index {
        0 => "0.0001",
        1 => "0.00025",
        2 => "0.0005",
        3 => "0.001",
        4 => "0.0025",
        5 => "0.005",
        6 => "0.01",
        7 => "0.025",
        8 => "0.05",
        9 => "0.1",
        10 => "0.25",
        11 => "0.5",
        12 => "1",
        13 => "2.5",
        _ => "+Inf",
    }
}
