//! Which counter each event counts by, which no clause says.

use dcc_metrics::Meters;
use std::alloc::Global;
use std::process::Abort;
use std::sync::Wait;
use std::test::Fail;

/// A Credit-Control-Request with a Session-Id and the CC-Request-Type UPDATE_REQUEST.
const UPDATE: &[u8] = &[
    1, 0, 0, 48, 0xc0, 0, 1, 16, 0, 0, 0, 4, 0, 0, 0, 1, 0, 0, 0, 2, 0, 0, 1, 7, 0x40, 0, 0, 13,
    97, 59, 49, 59, 49, 0, 0, 0, 0, 0, 1, 160, 0x40, 0, 0, 12, 0, 0, 0, 2,
];

/// A Credit-Control-Answer with a Session-Id and the Result-Code DIAMETER_TOO_BUSY.
const BUSY: &[u8] = &[
    1, 0, 0, 48, 0x40, 0, 1, 16, 0, 0, 0, 4, 0, 0, 0, 1, 0, 0, 0, 2, 0, 0, 1, 7, 0x40, 0, 0, 13,
    97, 59, 49, 59, 49, 0, 0, 0, 0, 0, 1, 12, 0x40, 0, 0, 12, 0, 0, 0x0b, 0xbc,
];

/// A Device-Watchdog-Request without AVPs.
const WATCHDOG: &[u8] = &[
    1, 0, 0, 20, 0x80, 0, 1, 24, 0, 0, 0, 0, 0, 0, 0, 1, 0, 0, 0, 2,
];

/// Counts gateways, messages and replies.
fn count_messages<R: Wait>(rt: &R, meters: &Meters) {
    for gate in 1..=3 {
        meters.came();
        meters.host(rt, gate, b"gw1.example");
    }
    meters.host(rt, 2, b"g\"w\\2");
    meters.went(rt, 3);
    meters.read(UPDATE);
    meters.read(WATCHDOG);
    meters.read(b"");
    meters.replied(BUSY);
}

/// Counts what the workers of two shards do.
fn count_work(meters: &Meters) {
    meters.open(0, 5, 70);
    meters.open(1, 6, 80);
    meters.answered(1, BUSY, 250);
    meters.answered(1, BUSY, 3_000_007);
    meters.answered(0, b"", 99);
    meters.took(0, 17);
    meters.took(0, 15);
    meters.took(1, 1);
    meters.swept(1);
    meters.act(0, 1);
    meters.act(0, 2);
    for _ in 0..3 {
        meters.repeat(1);
    }
    meters.ended(1, 4);
    meters.audited(0, 900, 1_250_000);
    meters.audited(1, 30, 7);
    meters.audited(1, 4, 90);
    // No shard has this index.
    meters.audited(2, 5_000, 6_000_000);
}

fn counted<R: Wait>(rt: &R, alloc: Global) -> Result<Vec<u8>, Fail> {
    let meters = Meters::new(alloc, 2, 3)?;
    count_messages(rt, &meters);
    count_work(&meters);
    let page = meters.page(rt, alloc);
    // By a call, here and below: counters that are let go in place are proved part by part.
    drop(meters);
    Ok(page?)
}

#[test]
fn each_event_is_counted(rt: HostRuntime) -> Result<(), Fail> {
    let page = counted(&rt, rt.alloc())?;
    assert!(rt; page.as_slice() == PAGE.as_bytes());
    Ok(())
}

/// Counts acts and audits, and looks at the acts that are due behind each.
fn check_acts(rt: &impl Abort, meters: &Meters) {
    assert_eq!(rt; meters.acts_to_keep(0, true), None);
    meters.open(1, 6, 70);
    assert_eq!(rt; meters.acts_to_keep(1, false), None);
    assert_eq!(rt; meters.acts_to_keep(1, true), Some(70));
    assert_eq!(rt; meters.acts_to_keep(1, true), None);
    meters.audited(1, 34, 97);
    assert_eq!(rt; meters.acts_to_keep(1, false), None);
    meters.act(1, 1);
    assert_eq!(rt; meters.acts_to_keep(1, false), Some(71));
    meters.act(1, 2);
    assert_eq!(rt; meters.acts_to_keep(1, false), None);
    meters.audited(1, 1, 0);
    assert_eq!(rt; meters.acts_to_keep(1, false), Some(72));
    // No shard has this index.
    assert_eq!(rt; meters.acts_to_keep(2, true), None);
}

#[test]
fn acts_are_due_if_they_have_grown(rt: HostRuntime) -> Result<(), Fail> {
    let meters = Meters::new(rt.alloc(), 2, 0)?;
    check_acts(&rt, &meters);
    drop(meters);
    Ok(())
}

#[test]
fn disagreements_are_counted(rt: HostRuntime) -> Result<(), Fail> {
    let meters = Meters::new(rt.alloc(), 1, 0)?;
    let before = meters.disagreements();
    meters.disagreed();
    let behind = meters.disagreements();
    drop(meters);
    assert!(rt; before == 0 && behind == 1);
    Ok(())
}

/// The page behind these events.
const PAGE: &str = "\
# HELP dcc_gateways Gateways that are connected.\n\
# TYPE dcc_gateways gauge\n\
dcc_gateways 2\n\
# HELP dcc_gateways_total Gateways that have connected.\n\
# TYPE dcc_gateways_total counter\n\
dcc_gateways_total 3\n\
# HELP dcc_requests_total Messages of gateways, by command and CC-Request-Type.\n\
# TYPE dcc_requests_total counter\n\
dcc_requests_total{command=\"CER\",type=\"\"} 0\n\
dcc_requests_total{command=\"DWR\",type=\"\"} 1\n\
dcc_requests_total{command=\"DPR\",type=\"\"} 0\n\
dcc_requests_total{command=\"CCR\",type=\"initial\"} 0\n\
dcc_requests_total{command=\"CCR\",type=\"update\"} 1\n\
dcc_requests_total{command=\"CCR\",type=\"termination\"} 0\n\
dcc_requests_total{command=\"CCR\",type=\"event\"} 0\n\
dcc_requests_total{command=\"CCR\",type=\"\"} 0\n\
dcc_requests_total{command=\"other\",type=\"\"} 1\n\
# HELP dcc_answers_total Answers, by Result-Code.\n\
# TYPE dcc_answers_total counter\n\
dcc_answers_total{result=\"2001\"} 0\n\
dcc_answers_total{result=\"3001\"} 0\n\
dcc_answers_total{result=\"3004\"} 3\n\
dcc_answers_total{result=\"3007\"} 0\n\
dcc_answers_total{result=\"3008\"} 0\n\
dcc_answers_total{result=\"4012\"} 0\n\
dcc_answers_total{result=\"5001\"} 0\n\
dcc_answers_total{result=\"5002\"} 0\n\
dcc_answers_total{result=\"5004\"} 0\n\
dcc_answers_total{result=\"5005\"} 0\n\
dcc_answers_total{result=\"5006\"} 0\n\
dcc_answers_total{result=\"5007\"} 0\n\
dcc_answers_total{result=\"5009\"} 0\n\
dcc_answers_total{result=\"5010\"} 0\n\
dcc_answers_total{result=\"5012\"} 0\n\
dcc_answers_total{result=\"5014\"} 0\n\
dcc_answers_total{result=\"5017\"} 0\n\
dcc_answers_total{result=\"5030\"} 0\n\
dcc_answers_total{result=\"5031\"} 0\n\
dcc_answers_total{result=\"other\"} 1\n\
# HELP dcc_gateway_info Hosts of gateways that are connected.\n\
# TYPE dcc_gateway_info gauge\n\
dcc_gateway_info{place=\"1\",host=\"gw1.example\"} 1\n\
dcc_gateway_info{place=\"2\",host=\"g\\\"w\\\\2\"} 1\n\
# HELP dcc_acts_total Acts held by a shard.\n\
# TYPE dcc_acts_total counter\n\
dcc_acts_total{shard=\"0\"} 72\n\
dcc_acts_total{shard=\"1\"} 80\n\
# HELP dcc_repeats_total Requests and top-ups that repeat an act.\n\
# TYPE dcc_repeats_total counter\n\
dcc_repeats_total{shard=\"0\"} 0\n\
dcc_repeats_total{shard=\"1\"} 3\n\
# HELP dcc_busy_total Requests that a shard answered as busy.\n\
# TYPE dcc_busy_total counter\n\
dcc_busy_total{shard=\"0\"} 0\n\
dcc_busy_total{shard=\"1\"} 2\n\
# HELP dcc_subscribers Subscribers with acts in a shard.\n\
# TYPE dcc_subscribers gauge\n\
dcc_subscribers{shard=\"0\"} 6\n\
dcc_subscribers{shard=\"1\"} 6\n\
# HELP dcc_sweeps_total Sweeps that a shard was asked for.\n\
# TYPE dcc_sweeps_total counter\n\
dcc_sweeps_total{shard=\"0\"} 0\n\
dcc_sweeps_total{shard=\"1\"} 1\n\
# HELP dcc_sessions_ended_total Sessions that sweeps ended.\n\
# TYPE dcc_sessions_ended_total counter\n\
dcc_sessions_ended_total{shard=\"0\"} 0\n\
dcc_sessions_ended_total{shard=\"1\"} 4\n\
# HELP dcc_batches_total Batches of items that a worker took.\n\
# TYPE dcc_batches_total counter\n\
dcc_batches_total{shard=\"0\"} 2\n\
dcc_batches_total{shard=\"1\"} 1\n\
# HELP dcc_lane_items Items that a worker took last together.\n\
# TYPE dcc_lane_items gauge\n\
dcc_lane_items{shard=\"0\"} 15\n\
dcc_lane_items{shard=\"1\"} 1\n\
# HELP dcc_audits_total Audits of the receipts of a shard.\n\
# TYPE dcc_audits_total counter\n\
dcc_audits_total{shard=\"0\"} 1\n\
dcc_audits_total{shard=\"1\"} 2\n\
# HELP dcc_audited_receipts_total Receipts of a shard that were audited.\n\
# TYPE dcc_audited_receipts_total counter\n\
dcc_audited_receipts_total{shard=\"0\"} 900\n\
dcc_audited_receipts_total{shard=\"1\"} 34\n\
# HELP dcc_audit_seconds_total Time that audits took.\n\
# TYPE dcc_audit_seconds_total counter\n\
dcc_audit_seconds_total 1.250097\n\
# HELP dcc_answer_seconds Time from the reading of a request to its answer.\n\
# TYPE dcc_answer_seconds histogram\n\
dcc_answer_seconds_bucket{le=\"0.0001\"} 1\n\
dcc_answer_seconds_bucket{le=\"0.00025\"} 2\n\
dcc_answer_seconds_bucket{le=\"0.0005\"} 2\n\
dcc_answer_seconds_bucket{le=\"0.001\"} 2\n\
dcc_answer_seconds_bucket{le=\"0.0025\"} 2\n\
dcc_answer_seconds_bucket{le=\"0.005\"} 2\n\
dcc_answer_seconds_bucket{le=\"0.01\"} 2\n\
dcc_answer_seconds_bucket{le=\"0.025\"} 2\n\
dcc_answer_seconds_bucket{le=\"0.05\"} 2\n\
dcc_answer_seconds_bucket{le=\"0.1\"} 2\n\
dcc_answer_seconds_bucket{le=\"0.25\"} 2\n\
dcc_answer_seconds_bucket{le=\"0.5\"} 2\n\
dcc_answer_seconds_bucket{le=\"1\"} 2\n\
dcc_answer_seconds_bucket{le=\"2.5\"} 2\n\
dcc_answer_seconds_bucket{le=\"+Inf\"} 3\n\
dcc_answer_seconds_sum 3.000356\n\
dcc_answer_seconds_count 3\n";
