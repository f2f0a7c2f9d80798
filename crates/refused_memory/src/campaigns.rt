//! Test cases of one behaviour, which need no thread, campaigns of them, and one of two behaviours.
ghost use Rattle.std.specs.Prelude.{All, IfSome, ⊤};
ghost use Rattle.tc_campaign.specs.Prelude.{HasNames};

use crate::cases::call_on;
use crate::tells::{tell_closed, tell_finished, tell_number, tell_verdicts};
use crate::trial::Trial;
use std::alloc::Global;
use std::io;
use std::sync::atomic::{AtomicBool, Ordering};
use std::sync::{Arc, Wait};
use std::thread::Threads;
use std::time::{Clock, Duration};
use tc_answer::have_all;
use tc_book::{Halt, Pass};
use tc_campaign::{Case, run_campaign, run_campaign_with};
use tc_entry::{BEHAVIOURS, Name, Pattern};
use tc_exec::{Back, Callable, CaseError, Everyone, Job, run_case, run_case_with};
use tc_report::{CampaignEnd, Kept, OutFault, Progress, Results, Shown, Stopwatch};
use tc_text::read_move;

/// The names of the two test cases.
const NAMES: [&str; 2] = ["first", "second"];

/// What the behaviour of each of them calls, and those of a case of two behaviours.
const CALLS: [&str; 4] = [
    "0 create alive named pump\n0 create\n0 create\n0 setverdict fail\n0 kill 1\n0 getverdict",
    "0 create\n0 running all\n0 setverdict pass",
    "0 create\n0 start 1 1\n0 wait done 1\n0 setverdict inconc",
    "1 create\n1 create alive named pump\n1 setverdict pass\n1 kill 2\n1 getverdict",
];

/// The behaviour of one of them.
#[derive(Drop)]
struct Caller<R: Wait + Copy + Send + 'static> {
    rt: R,
    /// Which calls it makes.
    at: usize,
}

/// Makes these calls, up to one that is not answered. Why it is not.
fn call_all<R: Wait>(rt: &R, pass: &mut Pass, calls: &str) -> Result<(), Halt> {
    for line in calls.lines() {
        if let Some((_, op)) = read_move(line.as_bytes())
            && let Some(halt) = call_on(rt, pass, &op)
        {
            return Err(halt);
        }
    }
    Ok(())
}

impl<R: Wait + Copy + Send + 'static> Callable for Caller<R> {
    ghost outcome = { λ _ _ _. ⊤ };

    fn call(self, pass: Pass) -> Back {
        let mut pass = pass;
        let made = match CALLS.get(self.at) {
            Some(calls) => call_all(&self.rt, &mut pass, calls),
            None => Ok(()),
        };
        Back::after(pass, made)
    }
}

/// A test case with this name, of one behaviour that makes these calls.
fn case_of<R: Wait + Copy + Send + 'static>(
    rt: &R,
    alloc: Global,
    at: usize,
) -> Option<Case<Caller<R>>>
    ensures { IfSome result HasNames }
{
    let name = Name::read(NAMES.get(at)?)?;
    let names = vec![in alloc; name.copy()].ok()?;
    let mut jobs = Vec::new(alloc);
    jobs.push(Caller { rt: *rt, at }).ok()?;
    Some(Case { name, names, jobs })
}

/// The two test cases.
fn cases<R: Wait + Copy + Send + 'static>(rt: &R, alloc: Global) -> Option<Vec<Case<Caller<R>>>>
    ensures { IfSome result (λ v. All HasNames v.items) }
{
    let mut cases = Vec::new(alloc);
    cases.push(case_of(rt, alloc, 0)?).ok()?;
    cases.push(case_of(rt, alloc, 1)?).ok()?;
    Some(cases)
}

/// The run of that many jobs that do nothing, with one worker. It takes memory if it is not refused before, and then the worker may
/// be refused too. The boxes are made where they are run, since a function that hands out a boxed closure fails the gate.
fn run_idle<R: Threads + Wait + Copy + Send + 'static>(
    rt: &R,
    trial: &mut Trial,
    count: usize,
    takes: bool,
) {
    let mut jobs = Vec::new(trial.alloc);
    for _ in 0..count {
        if let Ok(boxed) = Box::new(trial.alloc, |pass: Pass| Back::after(pass, Ok(()))) {
            let idle: Box<dyn FnOnce(Pass) -> Back + Send> = boxed;
            trial.begin_each("Job::new");
            let job = Job::new(idle);
            trial.end();
            // With a job less the case is another one, which shows in the text.
            let _ = jobs.push(job);
        }
    }
    if takes {
        trial.begin("run_case");
    } else {
        trial.begin_each("run_case");
    }
    match run_case(rt, trial.alloc, jobs, 1) {
        Ok(report) => tell_closed(&mut trial.out, &report),
        Err(CaseError::NoMemory) => trial.refuse(true),
        Err(CaseError::NoThread) if takes => trial.refuse(true),
        Err(why) => {
            // There is room for the text.
            let _ = trial.out.extend_from_slice(why.text().as_bytes());
        }
    }
    trial.end_call();
    trial.end();
}

/// The behaviours of a case of two, of which the first starts the second on a worker and waits until it is done.
fn pair<R: Wait + Copy + Send + 'static>(rt: &R, alloc: Global) -> Option<Vec<Caller<R>>> {
    let mut jobs = Vec::new(alloc);
    jobs.push(Caller { rt: *rt, at: 2 }).ok()?;
    jobs.push(Caller { rt: *rt, at: 3 }).ok()?;
    Some(jobs)
}

/// The run of a case of two behaviours. That a worker cannot be made is a refusal too. The order of their calls is open,
/// and the verdicts are not.
fn run_both<R: Threads + Wait + Copy + Send + 'static>(rt: &R, trial: &mut Trial) {
    if let Some(jobs) = pair(rt, trial.alloc) {
        trial.begin("run_case_with");
        match run_case_with(rt, trial.alloc, jobs, 1, &mut Everyone) {
            Ok(report) => tell_verdicts(&mut trial.out, report.locals.as_slice()),
            Err(why) => trial.refuse(matches!(why, CaseError::NoMemory | CaseError::NoThread)),
        }
        trial.end_call();
        trial.end();
    }
}

/// The results of the two test cases, and of one after them that had no thread.
pub(crate) fn results<R: Threads + Wait + Copy + Send + 'static>(
    rt: &R,
    alloc: Global,
) -> Option<Results> {
    let (cases, name) = cases(rt, alloc).zip(Name::read("third"))?;
    let mut results = run_campaign(rt, alloc, cases, None, 0);
    results.ending = CampaignEnd::Aborted {
        name,
        why: CaseError::NoThread,
    };
    Some(results)
}

/// Whether a campaign is complete after that many test cases, or was aborted after them since memory ran out.
fn is_ending(ending: &CampaignEnd, finished: usize) -> bool {
    match (ending, NAMES.get(finished)) {
        (CampaignEnd::Complete, None) => true,
        (CampaignEnd::Aborted { name, why }, Some(next)) => {
            *why == CaseError::NoMemory && name.bytes() == next.as_bytes()
        }
        _ => false,
    }
}

/// The run of a campaign whose results are kept.
fn run_kept<R: Threads + Wait + Copy + Send + 'static>(rt: &R, trial: &mut Trial) {
    if let Some(cases) = cases(rt, trial.alloc) {
        trial.begin("run_campaign");
        let results = run_campaign(rt, trial.alloc, cases, None, 0);
        let finished = results.finished.as_slice();
        for case in finished {
            tell_finished(&mut trial.out, case);
        }
        trial.holds(is_ending(&results.ending, finished.len()));
        if finished.len() < NAMES.len() {
            trial.refuse_part();
        }
        trial.end_call();
        trial.end();
    }
}

/// How many test cases have reports that take more room together than all that a test case asks for at once.
const MANY: usize = 1_000;

/// How many bytes are between the two.
const BETWEEN: u16 = 60_000;

/// A behaviour that notes that it was called.
#[derive(Drop)]
struct Notes {
    called: Arc<AtomicBool>,
}

impl Callable for Notes {
    ghost outcome = { λ _ _ _. ⊤ };

    fn call(self, pass: Pass) -> Back {
        self.called.store(true, Ordering::SeqCst);
        Back::after(pass, Ok(()))
    }
}

/// The first test case, with a behaviour that notes that it was called.
fn noting(alloc: Global, called: &Arc<AtomicBool>) -> Option<Case<Notes>>
    ensures { IfSome result HasNames }
{
    let called = Arc::try_clone(called).ok()?;
    let name = Name::read(NAMES.first()?)?;
    let names = vec![in alloc; name.copy()].ok()?;
    let jobs = vec![in alloc; Notes { called }].ok()?;
    Some(Case { name, names, jobs })
}

/// As many such test cases.
fn many(alloc: Global, called: &Arc<AtomicBool>) -> Option<Vec<Case<Notes>>>
    ensures { IfSome result (λ v. All HasNames v.items) }
{
    let mut cases = Vec::new(alloc);
    for _ in 0..MANY {
        cases.push(noting(alloc, called)?).ok()?;
    }
    Some(cases)
}

/// The run of a campaign that is refused the room for its reports, and nothing else: no behaviour is called.
fn run_without_room<R: Threads + Wait + Copy + Send + 'static>(rt: &R, trial: &mut Trial) {
    let alloc = trial.alloc;
    if let Ok(called) = Arc::new(alloc, AtomicBool::new(false))
        && let Some(cases) = many(alloc, &called)
        && trial.begin_large("run_campaign", BETWEEN)
    {
        let results = run_campaign(rt, alloc, cases, None, 0);
        let is_called = called.load(Ordering::SeqCst);
        let is_empty = results.finished.as_slice().is_empty();
        trial.end_large(!is_called && is_empty && is_ending(&results.ending, 0));
    }
}

/// A clock that says no time.
#[derive(Drop)]
struct NoClock;

impl Clock for NoClock {
    fn monotonic(&self) -> io::Result<Duration> {
        Err(io::Error::from(io::ErrorKind::Unsupported))
    }

    fn since_1970(&self) -> io::Result<Duration> {
        self.monotonic()
    }
}

/// Runs the test cases with one that reports them: whether the campaign is complete, and why not all was printed, if it is so.
fn run_reported<R: Threads + Wait + Copy + Send + 'static>(
    rt: &R,
    alloc: Global,
    cases: Vec<Case<Caller<R>>>,
    progress: &mut Progress<'_, '_, Kept, Vec<u8>, NoClock>,
) -> (bool, Result<(), OutFault>)
    requires { All HasNames cases.items }
{
    let ending = run_campaign_with(rt, alloc, cases, None, 0, progress);
    let told = progress.end();
    (matches!(ending, Some(CampaignEnd::Complete)), told)
}

/// The run of a campaign that is reported; there is room for its results and for what is printed, so that no write fails.
fn run_with_room<R: Threads + Wait + Copy + Send + 'static>(
    rt: &R,
    trial: &mut Trial,
    cases: Vec<Case<Caller<R>>>,
    kept: &mut Kept,
    lines: &mut Vec<u8>,
    failed: &mut Vec<u8>,
)
    requires { All HasNames cases.items }
{
    let alloc = trial.alloc;
    // Each test case has its lines, without a name.
    let each = Shown {
        names: &[],
        only: false,
    };
    let mut watch = Stopwatch::new(alloc, &NoClock, true);
    trial.begin("run_campaign_with Progress::end");
    let (is_complete, told) = run_reported(
        rt,
        alloc,
        cases,
        &mut Progress::new(alloc, &mut watch, each, None, kept, lines, failed),
    );
    trial.holds(told != Err(OutFault::Write));
    if told.is_ok() && is_complete {
        // There is room for the text.
        let _ = trial.out.extend_from_slice(lines);
    } else {
        trial.refuse_part();
    }
    trial.end_call();
    trial.end();
}

/// Makes that room, and runs the campaign.
fn run_told<R: Threads + Wait + Copy + Send + 'static>(rt: &R, trial: &mut Trial) {
    let alloc = trial.alloc;
    if let Some(cases) = cases(rt, alloc)
        && let Ok(mut kept) = Kept::with_room(alloc, NAMES.len())
        && let Ok(mut lines) = Vec::with_capacity(alloc, 1_000)
    {
        let mut failed = Vec::new(alloc);
        run_with_room(rt, trial, cases, &mut kept, &mut lines, &mut failed);
        drop(failed);
        drop(lines);
        drop(kept);
    }
}

/// What is asked of test cases before they are run, and runs that are refused, or run nothing, before they take memory.
pub(crate) fn ask<R: Threads + Wait + Copy + Send + 'static>(rt: &R, trial: &mut Trial) {
    if let Some((cases, pattern)) = cases(rt, trial.alloc).zip(Pattern::read("second")) {
        let none: Vec<Case<Caller<R>>> = Vec::new(trial.alloc);
        trial.begin_each("have_all run_campaign");
        trial.holds(have_all(cases.as_slice(), &[pattern]));
        let results = run_campaign(rt, trial.alloc, none, None, 1);
        tell_number(&mut trial.out, results.finished.as_slice().len());
        trial.end();
    }
    run_idle(rt, trial, 0, false);
    run_idle(rt, trial, BEHAVIOURS + 1, false);
    run_idle(rt, trial, 3, false);
}

/// The run of test cases of one behaviour and of two, and of campaigns: of one that has no room for its reports, and of one that is reported.
pub(crate) fn run<R: Threads + Wait + Copy + Send + 'static>(rt: &R, trial: &mut Trial) {
    run_idle(rt, trial, 1, true);
    run_idle(rt, trial, 2, true);
    run_both(rt, trial);
    run_kept(rt, trial);
    run_without_room(rt, trial);
    run_told(rt, trial);
}
