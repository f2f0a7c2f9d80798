//! Cases whose behaviours run on threads.
use crate::checks::{got, holds, is};
use crate::jobs::*;
use std::alloc::{AllocError, Global};
use std::process::Abort;
use std::sync::atomic::{AtomicU64, Ordering};
use std::sync::{Arc, Wait};
use std::thread::Threads;
use tc_book::{Halt, Pass};
use tc_exec::*;
use tc_rules::{Args, Comp, Entry, Group, Op, Reply, Run, Target, UserVerdict, Verdict};

/// Looks at a flag until it is set, a billion times at most, and says whether it was set.
fn is_seen(flag: &AtomicU64) -> bool {
    for _ in 0..1_000_000_000u32 {
        if flag.load(Ordering::SeqCst) == 1 {
            return true;
        }
    }
    false
}

/// Sets its own flag, and pass once the other's is set.
fn meets(pass: Pass, mine: &AtomicU64, other: &AtomicU64) -> Back {
    let mut pass = pass;
    mine.store(1, Ordering::SeqCst);
    let verdict = if is_seen(other) {
        UserVerdict::Pass
    } else {
        UserVerdict::Fail
    };
    let made = pass.set_verdict(verdict);
    Back::after(pass, made)
}

fn that_meets(
    alloc: Global,
    mine: Arc<AtomicU64>,
    other: Arc<AtomicU64>,
) -> Result<Job, AllocError> {
    let run: Behaviour = Box::new(alloc, move |pass: Pass| meets(pass, &mine, &other))?;
    Ok(Job::new(run))
}

/// Two jobs that meet each other.
fn that_meet<R: Abort>(rt: &R, alloc: Global) -> (Job, Job) {
    let one = zero(rt, alloc);
    let two = zero(rt, alloc);
    let (one_seen, two_seen) = (shared_with(rt, &one), shared_with(rt, &two));
    let first = got(rt, that_meets(alloc, one, two_seen));
    let second = got(rt, that_meets(alloc, two, one_seen));
    (first, second)
}

/// Starts runs 1 and 2 on components 1 and 2, and waits until each is done.
fn start_two<R: Wait>(rt: &R, pass: &mut Pass) -> Result<(), Halt> {
    start_others(rt, pass, 3)?;
    pass.wait_done(rt, Target::One(Comp(1)))?;
    pass.wait_done(rt, Target::One(Comp(2)))
}

fn starts_two<R: Wait>(rt: &R, pass: Pass) -> Back {
    let mut pass = pass;
    let made = start_two(rt, &mut pass);
    Back::after(pass, made)
}

fn are_met(rt: &impl Abort, report: &CaseReport) {
    let locals = [Verdict::None, Verdict::Pass, Verdict::Pass];
    is(rt, "locals", report.locals.as_slice(), locals.as_slice());
    is(rt, "overall verdict", report.verdict, Verdict::Pass);
}

#[test]
fn behaviours_run_together(rt: HostRuntime) -> Result<(), AllocError> {
    let first: Behaviour = Box::new(rt.alloc(), move |pass: Pass| starts_two(&rt, pass))?;
    let (second, third) = that_meet(&rt, rt.alloc());
    let report = report_of_three(&rt, rt.alloc(), Job::new(first), second, third);
    are_met(&rt, &report);
    Ok(())
}

fn restart<R: Wait>(rt: &R, pass: &mut Pass) -> Result<(), Halt> {
    let comp = pass.create(rt, true)?;
    pass.start(rt, comp, Run(1), &Args::new())?;
    pass.stop(rt, Group::One(comp))?;
    pass.start(rt, comp, Run(2), &Args::new())?;
    pass.wait_done(rt, Target::One(comp))
}

/// Starts run 1, stops it, starts run 2 on the same component, waits for its end, and sets the flag.
fn restarts<R: Wait>(rt: &R, pass: Pass, flag: &AtomicU64) -> Back {
    let mut pass = pass;
    let made = restart(rt, &mut pass);
    flag.store(1, Ordering::SeqCst);
    Back::after(pass, made)
}

fn count_ended<T>(made: &Result<T, Halt>, ended: &AtomicU64) {
    if let Err(Halt::Ended) = made {
        ended.fetch_add(1, Ordering::SeqCst);
    }
}

/// Sets fail once the flag is set, makes that many pairs of calls more, and counts the calls that are replied Ended.
fn set_late<R: Wait>(rt: &R, pass: &mut Pass, flag: &AtomicU64, more: u32, ended: &AtomicU64) {
    if is_seen(flag) {
        count_ended(&pass.set_verdict(UserVerdict::Fail), ended);
    }
    for _ in 0..more {
        count_ended(&pass.set_verdict(UserVerdict::Fail), ended);
        count_ended(&pass.create(rt, false), ended);
    }
}

fn sets_late<R: Wait>(rt: &R, pass: Pass, flag: &AtomicU64, more: u32, ended: &AtomicU64) -> Back {
    let mut pass = pass;
    set_late(rt, &mut pass, flag, more, ended);
    Back::after(pass, Ok(()))
}

/// Whether there is one entry, which is this call of this run with this reply.
fn is_alone(entries: &[Entry], caller: Run, op: Op, reply: Reply) -> bool {
    let wanted = Entry { caller, op, reply };
    match entries {
        [entry] => entry.same(&wanted),
        _ => false,
    }
}

/// Whether the late setting is the one entry of run 1, and only the pass of run 2 counts.
fn is_late_case(report: &CaseReport) -> bool {
    let [_, late, _] = report.logs.as_slice() else {
        return false;
    };
    let setting = Op::SetVerdict(UserVerdict::Fail);
    is_alone(late.entries.as_slice(), Run(1), setting, Reply::Ended)
        && report.locals.as_slice() == [Verdict::None, Verdict::Pass].as_slice()
        && report.verdict == Verdict::Pass
}

/// That many calls of run 1 come too late, and only the pass of run 2 counts.
fn come_late(rt: &impl Abort, report: &CaseReport, ended: &AtomicU64, calls: u64) {
    is(rt, "calls answered Ended", number(ended), calls);
    holds(rt, "only the pass of run 2 counts", is_late_case(report));
}

#[test]
fn late_setting_does_not_count(rt: HostRuntime) -> Result<(), AllocError> {
    let (flag, ended) = (zero(&rt, rt.alloc()), zero(&rt, rt.alloc()));
    let (seen, counted) = (shared_with(&rt, &flag), shared_with(&rt, &ended));
    let first: Behaviour = Box::new(rt.alloc(), move |pass: Pass| restarts(&rt, pass, &flag))?;
    let second: Behaviour = Box::new(rt.alloc(), move |pass: Pass| {
        sets_late(&rt, pass, &seen, 0, &counted)
    })?;
    let third = got(&rt, that_sets_pass(rt.alloc()));
    let report = report_of_three(&rt, rt.alloc(), Job::new(first), Job::new(second), third);
    come_late(&rt, &report, &ended, 1);
    Ok(())
}

// After its late setting run 1 makes 1,000 calls more.
#[test]
fn calls_after_the_end(rt: HostRuntime) -> Result<(), AllocError> {
    let (flag, ended) = (zero(&rt, rt.alloc()), zero(&rt, rt.alloc()));
    let (seen, counted) = (shared_with(&rt, &flag), shared_with(&rt, &ended));
    let first: Behaviour = Box::new(rt.alloc(), move |pass: Pass| restarts(&rt, pass, &flag))?;
    let second: Behaviour = Box::new(rt.alloc(), move |pass: Pass| {
        sets_late(&rt, pass, &seen, 500, &counted)
    })?;
    let third = got(&rt, that_sets_pass(rt.alloc()));
    let report = report_of_three(&rt, rt.alloc(), Job::new(first), Job::new(second), third);
    come_late(&rt, &report, &ended, 1001);
    Ok(())
}

/// Whether a case has one log, of run 0, whose one entry is its Finish.
fn is_finish_alone(report: &CaseReport) -> bool {
    let [log] = report.logs.as_slice() else {
        return false;
    };
    log.run == Run(0) && is_alone(log.entries.as_slice(), Run(0), Op::Finish, Reply::Ok)
}

#[test]
fn unstarted_job_is_dropped(rt: HostRuntime) {
    let called = zero(&rt, rt.alloc());
    let first = got(&rt, that_ends(rt.alloc(), Ok(())));
    let second = got(
        &rt,
        that_marks(rt.alloc(), shared_with(&rt, &called), UserVerdict::None),
    );
    let report = report_of_two(&rt, rt.alloc(), first, second, 64);
    is(&rt, "calls of run 1", number(&called), 0);
    is(
        &rt,
        "local verdicts",
        report.locals.as_slice(),
        [Verdict::None].as_slice(),
    );
    holds(&rt, "a Finish of run 0 alone", is_finish_alone(&report));
}

/// Why a case of that many behaviours, for which that many threads may be made, is refused. None is called.
fn refusal_of_marks<R: Abort + Threads + Wait + Copy + Send + 'static>(
    rt: &R,
    alloc: Global,
    count: u16,
    threads: u16,
) -> Option<CaseError> {
    let called = zero(rt, alloc);
    let jobs = that_mark(rt, alloc, count, &called);
    let refused = refusal(rt, alloc, jobs, threads);
    is(rt, "calls of behaviours", number(&called), 0);
    refused
}

/// Why a case of one behaviour is refused, which comes back because memory ran out.
fn refusal_of_starved<R: Abort + Threads + Wait + Copy + Send + 'static>(
    rt: &R,
    alloc: Global,
) -> Option<CaseError> {
    let starved = got(rt, that_ends(alloc, Err(Halt::NoMemory)));
    refusal(rt, alloc, got(rt, vec![in alloc; starved]), 64)
}

#[test]
fn refused_cases(rt: HostRuntime) {
    for (count, threads, wanted) in [
        (0u16, 64u16, CaseError::NoBehaviours),
        (257, 0, CaseError::TooManyBehaviours),
        (65, 0, CaseError::NoThread),
        (3, 1, CaseError::NoThread),
    ] {
        let refused = refusal_of_marks(&rt, rt.alloc(), count, threads);
        is(&rt, "refusal", refused, Some(wanted));
    }
    let starved = refusal_of_starved(&rt, rt.alloc());
    is(&rt, "no memory", starved, Some(CaseError::NoMemory));
}

/// Whether 64 runs were logged, and each but the first gave its component pass.
fn is_judged_by_all(report: &CaseReport) -> bool {
    let locals = report.locals.as_slice();
    let Some((first, others)) = locals.split_first() else {
        return false;
    };
    locals.len() == 64
        && report.logs.as_slice().len() == 64
        && report.verdict == Verdict::Pass
        && *first == Verdict::None
        && others.iter().all(|local| *local == Verdict::Pass)
}

/// This job, and 63 that set pass.
fn with_passes(alloc: Global, first: Job) -> Result<Vec<Job>, AllocError> {
    let mut jobs = vec![in alloc; first]?;
    for _ in 1..64 {
        jobs.push(that_sets_pass(alloc)?)?;
    }
    Ok(jobs)
}

/// The first of 64 behaviours starts the others, each on a component of its own, and each of those sets pass.
#[test]
fn sixty_four_jobs(rt: HostRuntime) -> Result<(), AllocError> {
    let first: Behaviour = Box::new(rt.alloc(), move |pass: Pass| starts_all(&rt, pass, 64))?;
    let jobs = with_passes(rt.alloc(), Job::new(first))?;
    let report = got(&rt, report_of(&rt, rt.alloc(), jobs, 63));
    holds(&rt, "judged by all", is_judged_by_all(&report));
    Ok(())
}
