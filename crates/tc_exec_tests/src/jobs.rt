//! The jobs of the tests, the flags that they share, and their cases. A closure that holds the runtime is boxed in the test, since
//! the type of a boxed closure has no parameter.
use crate::checks::got;
use std::alloc::{AllocError, Global};
use std::process::Abort;
use std::sync::atomic::{AtomicU64, Ordering};
use std::sync::{Arc, Wait};
use std::thread::Threads;
use tc_book::{Halt, Pass};
use tc_exec::*;
use tc_rules::{Args, Run, Target, UserVerdict};

pub(crate) type Behaviour = Box<dyn FnOnce(Pass) -> Back + Send>;

/// A flag that is not set, or a count of nothing.
pub(crate) fn zero<R: Abort>(rt: &R, alloc: Global) -> Arc<AtomicU64> {
    got(rt, Arc::new(alloc, AtomicU64::new(0)))
}

/// The same flag or count for another behaviour.
pub(crate) fn shared_with<R: Abort>(rt: &R, number: &Arc<AtomicU64>) -> Arc<AtomicU64> {
    got(rt, Arc::try_clone(number))
}

/// What a count has come to; 1 if a flag is set.
pub(crate) fn number(it: &AtomicU64) -> u64 {
    it.load(Ordering::SeqCst)
}

/// Creates a component for each other run, and starts them.
pub(crate) fn start_others<R: Wait>(rt: &R, pass: &mut Pass, behaviours: u16) -> Result<(), Halt> {
    for run in 1..behaviours {
        let comp = pass.create(rt, false)?;
        pass.start(rt, comp, Run(run), &Args::new())?;
    }
    Ok(())
}

/// Starts all others, and waits until they are done.
fn start_all<R: Wait>(rt: &R, pass: &mut Pass, behaviours: u16) -> Result<(), Halt> {
    start_others(rt, pass, behaviours)?;
    pass.wait_done(rt, Target::All)
}

/// A behaviour that starts all others, and waits until they are done.
pub(crate) fn starts_all<R: Wait>(rt: &R, pass: Pass, behaviours: u16) -> Back {
    let mut pass = pass;
    let made = start_all(rt, &mut pass, behaviours);
    Back::after(pass, made)
}

/// A job that comes back as one does whose calls were answered so.
pub(crate) fn that_ends(alloc: Global, made: Result<(), Halt>) -> Result<Job, AllocError> {
    let run: Behaviour = Box::new(alloc, move |pass: Pass| Back::after(pass, made))?;
    Ok(Job::new(run))
}

fn sets_pass(pass: Pass) -> Back {
    let mut pass = pass;
    let made = pass.set_verdict(UserVerdict::Pass);
    Back::after(pass, made)
}

/// A job that sets pass.
pub(crate) fn that_sets_pass(alloc: Global) -> Result<Job, AllocError> {
    let run: Behaviour = Box::new(alloc, move |pass: Pass| sets_pass(pass))?;
    Ok(Job::new(run))
}

fn marks(pass: Pass, flag: &AtomicU64, verdict: UserVerdict) -> Back {
    let mut pass = pass;
    flag.store(1, Ordering::SeqCst);
    let made = pass.set_verdict(verdict);
    Back::after(pass, made)
}

/// A job that sets a flag, and a verdict.
pub(crate) fn that_marks(
    alloc: Global,
    flag: Arc<AtomicU64>,
    verdict: UserVerdict,
) -> Result<Job, AllocError> {
    let run: Behaviour = Box::new(alloc, move |pass: Pass| marks(pass, &flag, verdict))?;
    Ok(Job::new(run))
}

/// That many jobs, each of which sets the flag.
pub(crate) fn that_mark<R: Abort>(
    rt: &R,
    alloc: Global,
    count: u16,
    flag: &Arc<AtomicU64>,
) -> Vec<Job> {
    let mut jobs = Vec::new(alloc);
    for _ in 0..count {
        let job = got(
            rt,
            that_marks(alloc, shared_with(rt, flag), UserVerdict::None),
        );
        got(rt, jobs.push(job));
    }
    jobs
}

/// That many jobs, each of which calls nothing.
pub(crate) fn that_return<R: Abort>(rt: &R, alloc: Global, count: u16) -> Vec<Job> {
    let mut jobs = Vec::new(alloc);
    for _ in 0..count {
        let job = got(rt, that_ends(alloc, Ok(())));
        got(rt, jobs.push(job));
    }
    jobs
}

/// The report of a case.
pub(crate) fn report_of<R: Threads + Wait + Copy + Send + 'static>(
    rt: &R,
    alloc: Global,
    jobs: Vec<Job>,
    threads: u16,
) -> Result<CaseReport, CaseError> {
    run_case(rt, alloc, jobs, threads)
}

/// The report of a case of two behaviours, for which that many threads may be made.
pub(crate) fn report_of_two<R: Abort + Threads + Wait + Copy + Send + 'static>(
    rt: &R,
    alloc: Global,
    first: Job,
    second: Job,
    threads: u16,
) -> CaseReport {
    let jobs = got(rt, vec![in alloc; first, second]);
    got(rt, report_of(rt, alloc, jobs, threads))
}

/// The report of a case of three behaviours.
pub(crate) fn report_of_three<R: Abort + Threads + Wait + Copy + Send + 'static>(
    rt: &R,
    alloc: Global,
    first: Job,
    second: Job,
    third: Job,
) -> CaseReport {
    let jobs = got(rt, vec![in alloc; first, second, third]);
    got(rt, report_of(rt, alloc, jobs, 64))
}

/// The report of a case whose workers a gate allows.
pub(crate) fn report_at<R: Threads + Wait + Copy + Send + 'static, G: Gate>(
    rt: &R,
    alloc: Global,
    jobs: Vec<Job>,
    threads: u16,
    gate: &mut G,
) -> Result<CaseReport, CaseError> {
    run_case_with(rt, alloc, jobs, threads, gate)
}

/// Why a case is refused, if it is.
pub(crate) fn refusal<R: Threads + Wait + Copy + Send + 'static>(
    rt: &R,
    alloc: Global,
    jobs: Vec<Job>,
    threads: u16,
) -> Option<CaseError> {
    run_case(rt, alloc, jobs, threads).err()
}

/// Why a case is refused whose workers a gate allows, if it is.
pub(crate) fn refusal_at<R: Threads + Wait + Copy + Send + 'static, G: Gate>(
    rt: &R,
    alloc: Global,
    jobs: Vec<Job>,
    threads: u16,
    gate: &mut G,
) -> Option<CaseError> {
    run_case_with(rt, alloc, jobs, threads, gate).err()
}
