//! The page of some counts.

ghost use Rattle.std.specs.Prelude.{◌≡◌, ◌+◌, ◌++◌, length, string_bytes, IfOk, OnOk};
ghost use Rattle.std.specs.Fmt.{decimal};
ghost use Rattle.dcc_metrics.specs.Families.{labels_of, tail_of};
ghost use Rattle.dcc_metrics.specs.Pages.{acts_text, audits_text, family_text, head_of, head_text, line_of, lines_of, server_text, times_text, work_text};
ghost use Rattle.dcc_metrics.specs.Times.{cumulated, seconds_text, three_digits};

use crate::bounds::BOUNDS;
use crate::counts::{ActCounts, AuditCounts, ServerCounts, TimeCounts, WorkCounts};
use crate::family::{Family, put_tail};
use std::alloc::{AllocError, Global};

/// Appends the families of the server and of its messages. The only error here and below is want of memory.
#[tactic(auto, unfolding(crate::specs::Pages::server_text))]
pub(crate) fn put_server(
    alloc: Global,
    page: &mut Vec<u8>,
    counts: &ServerCounts,
) -> Result<(), AllocError>
    ensures { OnOk result (page.new.items ≡ page.old.items ++ server_text counts.now) }
{
    put_family(alloc, page, Family::Gateways, &[counts.gateways])?;
    put_family(alloc, page, Family::GatewaysTotal, &[counts.came])?;
    put_family(alloc, page, Family::Requests, counts.requests.as_slice())?;
    put_family(alloc, page, Family::Answers, counts.answers.as_slice())
}

/// Appends the families of acts.
#[tactic(auto, unfolding(crate::specs::Pages::acts_text))]
pub(crate) fn put_acts(
    alloc: Global,
    page: &mut Vec<u8>,
    counts: &ActCounts,
) -> Result<(), AllocError>
    ensures { OnOk result (page.new.items ≡ page.old.items ++ acts_text counts.now) }
{
    put_family(alloc, page, Family::Acts, counts.acts.as_slice())?;
    put_family(alloc, page, Family::Repeats, counts.repeats.as_slice())?;
    put_family(alloc, page, Family::Busy, counts.busy.as_slice())?;
    put_family(
        alloc,
        page,
        Family::Subscribers,
        counts.subscribers.as_slice(),
    )
}

/// Appends the families of the work of shards.
#[tactic(auto, unfolding(crate::specs::Pages::work_text))]
pub(crate) fn put_work(
    alloc: Global,
    page: &mut Vec<u8>,
    counts: &WorkCounts,
) -> Result<(), AllocError>
    ensures { OnOk result (page.new.items ≡ page.old.items ++ work_text counts.now) }
{
    put_family(alloc, page, Family::Sweeps, counts.sweeps.as_slice())?;
    put_family(alloc, page, Family::SessionsEnded, counts.ended.as_slice())?;
    put_family(alloc, page, Family::Batches, counts.batches.as_slice())?;
    put_family(alloc, page, Family::LaneItems, counts.items.as_slice())
}

/// Appends the families of audits.
#[tactic(auto, unfolding(crate::specs::Pages::audits_text))]
pub(crate) fn put_audits(
    alloc: Global,
    page: &mut Vec<u8>,
    counts: &AuditCounts,
) -> Result<(), AllocError>
    ensures { OnOk result (page.new.items ≡ page.old.items ++ audits_text counts.now) }
{
    put_family(alloc, page, Family::Audits, counts.audits.as_slice())?;
    put_family(
        alloc,
        page,
        Family::AuditedReceipts,
        counts.receipts.as_slice(),
    )?;
    put_head(alloc, page, Family::AuditSeconds)?;
    let seconds = seconds_text(alloc, counts.micros)?;
    put_line(page, Family::AuditSeconds, b"", seconds.as_slice())
}

/// Appends the histogram of times.
#[tactic(auto, unfolding(crate::specs::Pages::times_text))]
pub(crate) fn put_times(
    alloc: Global,
    page: &mut Vec<u8>,
    counts: &TimeCounts,
) -> Result<(), AllocError>
    requires { length counts.now.buckets.items ≡ length BOUNDS + 1 }
    ensures { OnOk result (page.new.items ≡ page.old.items ++ times_text counts.now) }
{
    let all = cumulated(alloc, counts.buckets.as_slice())?;
    put_family(alloc, page, Family::Seconds, all.as_slice())?;
    let seconds = seconds_text(alloc, counts.micros)?;
    put_line(page, Family::Seconds, b"_sum", seconds.as_slice())?;
    let last = all[BOUNDS.len()];
    let count = format!(in alloc; "{last}")?;
    put_line(page, Family::Seconds, b"_count", count.as_bytes())
}

/// Each number with all before it.
fn cumulated(alloc: Global, numbers: &[u64]) -> Result<Vec<u64>, AllocError>
    ensures all { IfOk result (λ all. all.items ≡ cumulated 0 numbers.now) }
    ensures length { IfOk result (λ all. length all.items ≡ length numbers.now) }
{
    let mut all = Vec::new(alloc);
    let mut so_far = 0u64;
    for number in numbers {
        so_far = so_far.saturating_add(*number);
        all.push(so_far)?;
    }
    Ok(all)
}

/// Microseconds in seconds.
#[tactic(auto, unfolding(crate::specs::Times::seconds_text))]
fn seconds_text(alloc: Global, micros: u64) -> Result<Vec<u8>, AllocError>
    ensures { IfOk result (λ text. text.items ≡ seconds_text micros) }
{
    let seconds = format!(in alloc; "{}.", micros / 1_000_000)?;
    let mut text = seconds.into_bytes();
    text.extend_from_slice(&three_digits(micros / 1_000))?;
    text.extend_from_slice(&three_digits(micros))?;
    Ok(text)
}

/// The last three digits of a number.
fn three_digits(number: u64) -> [u8; 3]
    ensures { result ≡ three_digits number }
{
    [
        b'0' + (number / 100 % 10) as u8,
        b'0' + (number / 10 % 10) as u8,
        b'0' + (number % 10) as u8,
    ]
}

/// Appends a family with its numbers.
#[tactic(auto, unfolding(crate::specs::Pages::family_text))]
fn put_family(
    alloc: Global,
    page: &mut Vec<u8>,
    family: Family,
    numbers: &[u64],
) -> Result<(), AllocError>
    ensures { OnOk result (page.new.items ≡ page.old.items ++ family_text family numbers.now) }
{
    put_head(alloc, page, family)?;
    for (i, number) in numbers.iter().enumerate() {
        put_number(alloc, page, family, i, *number)?;
    }
    Ok(())
}

/// Appends the two lines before the numbers of a family.
pub(crate) fn put_head(alloc: Global, page: &mut Vec<u8>, family: Family) -> Result<(), AllocError>
    ensures { OnOk result (page.new.items ≡ page.old.items ++ head_of family) }
{
    let head = head_of(alloc, family.name(), family.help(), family.kind())?;
    page.extend_from_slice(head.as_bytes())
}

/// The two lines before the numbers of a family of this name, this help and this type.
fn head_of(alloc: Global, name: &str, help: &str, kind: &str) -> Result<String, AllocError>
    ensures { IfOk result (λ text. string_bytes text ≡ head_text name.now help.now kind.now) }
{
    let head = format!(in alloc; "# HELP {name} {help}\n# TYPE {name} {kind}\n")?;
    Ok(head)
}

/// Appends the line of a family's number of this index.
fn put_number(
    alloc: Global,
    page: &mut Vec<u8>,
    family: Family,
    index: usize,
    number: u64,
) -> Result<(), AllocError>
    ensures { OnOk result (page.new.items
        ≡ page.old.items ++ line_of family (tail_of (labels_of family) index) (decimal number)) }
{
    let mut tail = Vec::new(alloc);
    put_tail(alloc, &mut tail, family, index)?;
    let digits = format!(in alloc; "{number}")?;
    put_line(page, family, tail.as_slice(), digits.as_bytes())
}

/// Appends a line: the family's name, what stands behind it, and the text of a number.
#[tactic(auto, unfolding(crate::specs::Pages::line_of))]
pub(crate) fn put_line(
    page: &mut Vec<u8>,
    family: Family,
    tail: &[u8],
    number: &[u8],
) -> Result<(), AllocError>
    ensures { OnOk result (page.new.items ≡ page.old.items ++ line_of family tail.now number.now) }
{
    page.extend_from_slice(family.name().as_bytes())?;
    page.extend_from_slice(tail)?;
    page.extend_from_slice(b" ")?;
    page.extend_from_slice(number)?;
    page.extend_from_slice(b"\n")
}
