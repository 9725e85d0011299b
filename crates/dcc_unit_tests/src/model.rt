//! The plain program, which no command runs, and the entries of worked examples.

use crate::acts::{Ask, TERMS, acts};
use dcc_act::{Act, Entry, Outcome, ResultCode};
use dcc_model::{Done, Judgement, judge, plain_answer};
use std::alloc::{AllocError, Global};
use std::process::Abort;
use std::test::Fail;

/// Place, group or 0, units and amount of an entry.
type Posted = (u64, u32, u64, i64);

/// An act in short, and whether it is made.
type Step = (Ask, bool);

/// An entry in short.
fn in_short(entry: &Entry) -> Posted {
    let group = match entry.group {
        Some(group) => group,
        None => 0,
    };
    (entry.place, group, entry.units, entry.amount)
}

/// Puts the entries behind those that stand there.
fn post(posted: &mut Vec<Posted>, entries: &[Entry]) -> Result<(), AllocError> {
    for entry in entries {
        posted.push(in_short(entry))?;
    }
    Ok(())
}

/// What an act comes to behind those that were made. Its entries are put behind theirs.
fn judged(
    alloc: Global,
    made: &[Done],
    posted: &mut Vec<Posted>,
    act: &Act,
) -> Result<Outcome, Fail> {
    let Judgement {
        outcome,
        entries,
        ..
    } = judge(alloc, &TERMS, made, act)?;
    if let Err(error) = post(posted, &entries) {
        drop(outcome);
        return Err(error.into());
    }
    Ok(outcome)
}

/// Puts an act behind those that were made.
fn push(made: &mut Vec<Done>, act: &Act, outcome: Outcome) -> Result<(), Fail> {
    let act = act.copy()?;
    made.push(Done { act, outcome })?;
    Ok(())
}

/// Whether a request succeeds.
fn is_success(outcome: &Outcome) -> bool {
    match outcome {
        Outcome::Answered(answer) => matches!(answer.result, ResultCode::Success),
        _ => false,
    }
}

/// Whether an act is made; or a request is of an unknown user, or an expiry ends no session.
fn is_told(outcome: &Outcome, (ask, is_made): Step) -> bool {
    match outcome {
        Outcome::Unknown { .. } => !is_made && matches!(ask, Ask::Initial(_)),
        Outcome::Expired { sessions } => !is_made && matches!(ask, Ask::Expiry) && *sessions == 0,
        Outcome::Added => is_made && matches!(ask, Ask::TopUp(_)),
        Outcome::Answered(_) => {
            is_made && !matches!(ask, Ask::TopUp(_) | Ask::Expiry) && is_success(outcome)
        }
        Outcome::Ceiling => false,
    }
}

/// Judges an act, and asserts its outcome. A made act is put behind the others.
fn judge_step(
    rt: &impl Abort,
    alloc: Global,
    made: &mut Vec<Done>,
    posted: &mut Vec<Posted>,
    act: &Act,
    step: Step,
) -> Result<(), Fail> {
    let outcome = judged(alloc, made, posted, act)?;
    assert!(rt; is_told(&outcome, step));
    if step.1 {
        push(made, act, outcome)
    } else {
        drop(outcome);
        Ok(())
    }
}

/// The same of each of these acts.
fn judge_each(
    rt: &impl Abort,
    alloc: Global,
    made: &mut Vec<Done>,
    posted: &mut Vec<Posted>,
    acts: &[Act],
    steps: &[Step],
) -> Result<(), Fail> {
    for (act, step) in acts.iter().zip(steps) {
        judge_step(rt, alloc, made, posted, act, *step)?;
    }
    Ok(())
}

/// Asserts the outcomes of these acts, and which entries they leave.
fn check(
    rt: &impl Abort,
    alloc: Global,
    acts: &[Act],
    steps: &[Step],
    wanted: &[Posted],
) -> Result<(), Fail> {
    let (mut made, mut posted) = (Vec::new(alloc), Vec::new(alloc));
    let judged = judge_each(rt, alloc, &mut made, &mut posted, acts, steps);
    drop(made);
    judged?;
    assert_eq!(rt; posted.as_slice(), wanted);
    Ok(())
}

/// The same of acts in short.
fn check_steps(
    rt: &impl Abort,
    alloc: Global,
    steps: &[Step],
    wanted: &[Posted],
) -> Result<(), Fail> {
    let acts = acts(alloc, steps)?;
    let checked = check(rt, alloc, &acts, steps, wanted);
    drop(acts);
    checked
}

/// Whether the last of these acts succeeds by the plain program.
fn last_succeeds(alloc: Global, acts: &[Act]) -> Result<bool, Fail> {
    if acts.is_empty() {
        return Err("no acts".into());
    }
    let outcome = plain_answer(alloc, &TERMS, acts, acts.len())?;
    let succeeds = is_success(&outcome);
    drop(outcome);
    Ok(succeeds)
}

/// The same of acts in short.
fn last_step_succeeds(alloc: Global, steps: &[Step]) -> Result<bool, Fail> {
    let acts = acts(alloc, steps)?;
    let succeeds = last_succeeds(alloc, &acts);
    drop(acts);
    succeeds
}

/// An overrun at a termination.
const OVERRUN: &[Step] = &[
    (Ask::TopUp(500), true),
    (Ask::Initial(&[(10, 0, 100_000)]), true),
    (Ask::Termination(&[(10, 100_500, 0)]), true),
];

const OF_OVERRUN: &[Posted] = &[(1, 0, 0, 500), (3, 10, 100_500, -505)];

/// Two services in one request, of which one reports.
const TWO: &[Step] = &[
    (Ask::TopUp(100), true),
    (Ask::Initial(&[(10, 0, 15_000), (20, 0, 900)]), true),
    (Ask::Update(&[(20, 700, 0), (10, 0, 10_000)]), true),
];

const OF_TWO: &[Posted] = &[(1, 0, 0, 100), (3, 20, 700, -24)];

#[test]
fn entries(rt: HostRuntime) -> Result<(), Fail> {
    check_steps(&rt, rt.alloc(), OVERRUN, OF_OVERRUN)?;
    assert!(&rt; last_step_succeeds(rt.alloc(), OVERRUN)?);
    check_steps(&rt, rt.alloc(), TWO, OF_TWO)?;
    assert!(&rt; last_step_succeeds(rt.alloc(), TWO)?);
    Ok(())
}

/// A request before the first top-up, an expiry of no session, and a direct debit.
const OTHERS: &[Step] = &[
    (Ask::Initial(&[]), false),
    (Ask::TopUp(100), true),
    (Ask::Expiry, false),
    (Ask::Debit, true),
];

const OF_OTHERS: &[Posted] = &[(1, 0, 0, 100), (2, 0, 1001, -10)];

#[test]
fn others(rt: HostRuntime) -> Result<(), Fail> {
    check_steps(&rt, rt.alloc(), OTHERS, OF_OTHERS)
}
