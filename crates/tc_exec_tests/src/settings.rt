//! Verdict calls, which take no lock: what is set while nobody halts counts.
use crate::checks::{got, is};
use crate::jobs::{Behaviour, report_of, start_others};
use std::alloc::{AllocError, Global};
use std::process::Abort;
use std::sync::Wait;
use tc_book::{Halt, Pass};
use tc_exec::{Back, CaseReport, Job};
use tc_rules::{Entry, Op, Reply, Target, UserVerdict, Verdict};

const SETTINGS: u32 = 1_000;

const SETTERS: u16 = 64;

/// The worst verdict that a run sets, and the better one that it sets all other times.
fn verdicts_of(run: u16) -> (UserVerdict, UserVerdict) {
    match run % 4 {
        0 => (UserVerdict::None, UserVerdict::None),
        1 => (UserVerdict::Pass, UserVerdict::None),
        2 => (UserVerdict::Inconc, UserVerdict::Pass),
        _ => (UserVerdict::Fail, UserVerdict::Inconc),
    }
}

/// The local verdict of a component whose run set its verdicts.
fn local_of(run: u16) -> Verdict {
    match run % 4 {
        0 => Verdict::None,
        1 => Verdict::Pass,
        2 => Verdict::Inconc,
        _ => Verdict::Fail,
    }
}

/// Sets that many verdicts, the worst of them once, at a place that the run's number determines.
fn set_all(pass: &mut Pass, settings: u32) -> Result<(), Halt> {
    let run = pass.run().0;
    let (worst, other) = verdicts_of(run);
    let place = u32::from(run).wrapping_mul(15) % SETTINGS;
    for k in 0..settings {
        pass.set_verdict(if k == place { worst } else { other })?;
    }
    Ok(())
}

/// A behaviour that sets that many verdicts.
fn sets_all(pass: Pass, settings: u32) -> Back {
    let mut pass = pass;
    let made = set_all(&mut pass, settings);
    Back::after(pass, made)
}

fn that_sets_all(alloc: Global, settings: u32) -> Result<Job, AllocError> {
    let run: Behaviour = Box::new(alloc, move |pass: Pass| sets_all(pass, settings))?;
    Ok(Job::new(run))
}

/// Starts all others, sets its verdicts, and waits until the others are done.
fn start_and_set<R: Wait>(rt: &R, pass: &mut Pass) -> Result<(), Halt> {
    start_others(rt, pass, SETTERS)?;
    set_all(pass, SETTINGS)?;
    pass.wait_done(rt, Target::All)
}

/// The behaviour of run 0.
fn starts_and_sets<R: Wait>(rt: &R, pass: Pass) -> Back {
    let mut pass = pass;
    let made = start_and_set(rt, &mut pass);
    Back::after(pass, made)
}

/// This job, and 63 that set their verdicts.
fn with_setters(alloc: Global, first: Job) -> Result<Vec<Job>, AllocError> {
    let mut jobs = vec![in alloc; first]?;
    for _ in 1..SETTERS {
        jobs.push(that_sets_all(alloc, SETTINGS)?)?;
    }
    Ok(jobs)
}

fn is_ended(entry: &Entry) -> bool {
    matches!(entry.reply, Reply::Ended)
}

fn is_setting(entry: &Entry) -> bool {
    matches!((&entry.op, entry.reply), (Op::SetVerdict(_), Reply::Ok))
}

fn count_settings(history: &[Entry]) -> usize {
    history.iter().filter(|entry| is_setting(entry)).count()
}

fn count_ended(history: &[Entry]) -> usize {
    history.iter().filter(|entry| is_ended(entry)).count()
}

/// Each run has set the worst verdict that it sets.
fn have_set_the_worst(rt: &impl Abort, locals: &[Verdict]) {
    is(rt, "local verdicts", locals.len(), usize::from(SETTERS));
    for (run, local) in (0..SETTERS).zip(locals) {
        is(rt, "a local verdict", *local, local_of(run));
    }
}

fn are_counted(rt: &impl Abort, report: &CaseReport) {
    let history = report.history.as_slice();
    is(rt, "settings", count_settings(history), 64_000);
    is(rt, "calls answered Ended", count_ended(history), 0);
    have_set_the_worst(rt, report.locals.as_slice());
}

/// 64 behaviours of 1,000 settings each, on 64 threads, that nobody halts: no call is replied Ended, and each worst
/// setting is in its local verdict.
#[test]
fn undisturbed_settings_count(rt: HostRuntime) -> Result<(), AllocError> {
    let first: Behaviour = Box::new(rt.alloc(), move |pass: Pass| starts_and_sets(&rt, pass))?;
    let jobs = with_setters(rt.alloc(), Job::new(first))?;
    let report = got(&rt, report_of(&rt, rt.alloc(), jobs, SETTERS - 1));
    are_counted(&rt, &report);
    Ok(())
}

/// Asks under the lock that often whether the others are running.
fn ask_often<R: Wait>(rt: &R, pass: &mut Pass, questions: u32) -> Result<(), Halt> {
    for _ in 0..questions {
        pass.running(rt, Target::All)?;
    }
    Ok(())
}

/// Sets that many verdicts, and asks as often.
fn set_and_ask<R: Wait>(rt: &R, pass: &mut Pass, calls: u32) -> Result<(), Halt> {
    set_all(pass, calls)?;
    ask_often(rt, pass, calls)
}

/// A behaviour of that many settings and questions.
fn sets_and_asks<R: Wait>(rt: &R, pass: Pass, calls: u32) -> Back {
    let mut pass = pass;
    let made = set_and_ask(rt, &mut pass, calls);
    Back::after(pass, made)
}

/// A log of more entries than 16 bits count is closed as others are, without the lock and under it.
#[test]
fn a_long_log_is_closed(rt: HostRuntime) -> Result<(), AllocError> {
    let run: Behaviour = Box::new(rt.alloc(), move |pass: Pass| {
        sets_and_asks(&rt, pass, 70_000)
    })?;
    let jobs = got(&rt, vec![in rt.alloc(); Job::new(run)]);
    let report = got(&rt, report_of(&rt, rt.alloc(), jobs, 0));
    is(&rt, "entries", report.history.as_slice().len(), 140_001);
    Ok(())
}
