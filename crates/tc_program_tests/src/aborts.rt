//! What is printed about a campaign that is aborted, to a standard error that fails.
ghost use Rattle.std.specs.Prelude.{All, IfOk, ⊤};
ghost use Rattle.tc_campaign.specs.Prelude.{HasNames};

use crate::checks::{holds, is};
use std::alloc::Global;
use std::process::Abort;
use std::str;
use std::sync::Wait;
use std::test::Fail;
use std::thread::Threads;
use std::time::Clock;
use tc_book::Pass;
use tc_campaign::{CampaignEnd, Case, run_campaign};
use tc_command::{Choice, Form, RunOptions};
use tc_entry::Name;
use tc_exec::{Back, Callable, Ending};
use tc_program::{Outcome, abort_line, run_cases};
use tc_stream::devices::{NarrowWriter, WriteFailure};

const ABORTED: &[u8] = b"ttrun: aborted at a: no behaviours\n";

const REPORT: &[u8] = b"cases 0 none 0 pass 0 inconc 0 fail 0 error 0
aborted at a: no behaviours
";

/// A behaviour that returns at once.
#[derive(Drop)]
struct Returns;

impl Callable for Returns {
    ghost outcome = { λ _ _ _. ⊤ };

    fn call(self, pass: Pass) -> Back {
        Back {
            pass,
            ending: Ending::Returned,
        }
    }
}

fn name_of(text: &str) -> Result<Name, Fail> {
    Ok(Name::read(text).ok_or("a name")?)
}

/// The test case a, which has no behaviours.
fn empty(alloc: Global) -> Result<Case<Returns>, Fail>
    ensures { IfOk result HasNames }
{
    Ok(Case {
        name: name_of("a")?,
        names: Vec::new(alloc),
        jobs: Vec::new(alloc),
    })
}

/// The test case t, of one behaviour.
fn passing(alloc: Global) -> Result<Case<Returns>, Fail>
    ensures { IfOk result HasNames }
{
    Ok(Case {
        name: name_of("t")?,
        names: vec![in alloc; name_of("main")?]?,
        jobs: vec![in alloc; Returns]?,
    })
}

/// The test case t, of two behaviours.
fn of_two(alloc: Global) -> Result<Vec<Case<Returns>>, Fail>
    ensures { IfOk result (λ cases. All HasNames cases.items) }
{
    let case = Case {
        name: name_of("t")?,
        names: vec![in alloc; name_of("main")?, name_of("other")?]?,
        jobs: vec![in alloc; Returns, Returns]?,
    };
    Ok(vec![in alloc; case]?)
}

/// Only the test case a.
fn alone(alloc: Global) -> Result<Vec<Case<Returns>>, Fail>
    ensures { IfOk result (λ cases. All HasNames cases.items) }
{
    Ok(vec![in alloc; empty(alloc)?]?)
}

/// The test case t, and after it a.
fn both(alloc: Global) -> Result<Vec<Case<Returns>>, Fail>
    ensures { IfOk result (λ cases. All HasNames cases.items) }
{
    Ok(vec![in alloc; passing(alloc)?, empty(alloc)?]?)
}

/// A plain run, reported as it continues or not.
fn options(alloc: Global, live: bool, progress: bool) -> RunOptions {
    RunOptions {
        form: Form::Text,
        times: false,
        live,
        progress,
        failures: false,
        stop_on: None,
        choice: Choice::all(alloc),
        explains: false,
    }
}

/// Runs only the test case a, and reports it; standard error fails after this part of the line, or not at all.
fn is_told_up_to<R: Abort + Threads + Wait + Clock + Copy + Send + 'static>(
    rt: &R,
    alloc: Global,
    options: &RunOptions,
    part: &[u8],
) -> Result<(), Fail> {
    let cases = alone(alloc)?;
    let mut written = Vec::new(alloc);
    let mut errors = NarrowWriter::new(alloc, part.len(), WriteFailure::Broken);
    let outcome = run_cases(rt, alloc, cases, options, &mut written, &mut errors)?;
    is(rt, "the status", outcome.status, 3);
    is(
        rt,
        "whether all is told",
        outcome.told.is_ok(),
        part == ABORTED,
    );
    is(rt, "what is told", errors.taken.as_slice(), part);
    is(rt, "the report", written.as_slice(), REPORT);
    Ok(())
}

#[test]
fn empty_case_is_told_of(rt: HostRuntime) -> Result<(), Fail> {
    let options = options(rt.alloc(), false, false);
    for fails_at in 0..=ABORTED.len() {
        let part = ABORTED.get(..fails_at).ok_or("a prefix")?;
        is_told_up_to(&rt, rt.alloc(), &options, part)?;
    }
    Ok(())
}

/// Runs only the test case a, live.
fn run_live<R: Threads + Wait + Clock + Copy + Send + 'static>(
    rt: &R,
    alloc: Global,
    written: &mut Vec<u8>,
    errors: &mut Vec<u8>,
) -> Result<Outcome, Fail> {
    let cases = alone(alloc)?;
    let options = options(alloc, true, false);
    Ok(run_cases(rt, alloc, cases, &options, written, errors)?)
}

#[test]
fn empty_case_of_a_live_run(rt: HostRuntime) -> Result<(), Fail> {
    let mut written = Vec::new(rt.alloc());
    let mut errors = Vec::new(rt.alloc());
    let outcome = run_live(&rt, rt.alloc(), &mut written, &mut errors)?;
    is(&rt, "the status", outcome.status, 3);
    is(&rt, "whether all is told", outcome.told, Ok(()));
    is(&rt, "what is told", errors.as_slice(), ABORTED);
    is(&rt, "the report", written.as_slice(), REPORT);
    Ok(())
}

/// The run of both test cases, reported as they finish.
fn run_both<R: Threads + Wait + Clock + Copy + Send + 'static>(
    rt: &R,
    alloc: Global,
    live: bool,
    errors: &mut NarrowWriter,
) -> Result<Outcome, Fail> {
    let cases = both(alloc)?;
    let options = options(alloc, live, true);
    let mut written = Vec::new(alloc);
    Ok(run_cases(rt, alloc, cases, &options, &mut written, errors)?)
}

/// Reports both if standard error fails at this write, which is one of the first line.
fn abort_is_told<R: Abort + Threads + Wait + Clock + Copy + Send + 'static>(
    rt: &R,
    alloc: Global,
    live: bool,
    fails_at: usize,
) -> Result<(), Fail> {
    let mut errors = NarrowWriter::new(alloc, fails_at, WriteFailure::Broken);
    let outcome = run_both(rt, alloc, live, &mut errors)?;
    is(rt, "the status", outcome.status, 3);
    holds(rt, "not all is told", outcome.told.is_err());
    let part = errors.taken.as_slice().get(..fails_at);
    let behind = errors.taken.as_slice().get(fails_at..);
    is(rt, "the first line", part, b"1/2 t ..\n".get(..fails_at));
    is(rt, "the line behind it", behind, Some(ABORTED));
    Ok(())
}

#[test]
fn an_abort_is_told_behind_a_line_that_is_not(rt: HostRuntime) -> Result<(), Fail> {
    for (live, fails_at) in [(false, 0), (false, 3), (true, 0), (true, 3)] {
        abort_is_told(&rt, rt.alloc(), live, fails_at)?;
    }
    Ok(())
}

// The test case that is refused has begun, and has no other line.
#[test]
fn an_aborted_case_has_begun(rt: HostRuntime) -> Result<(), Fail> {
    for live in [false, true] {
        let mut errors = NarrowWriter::new(rt.alloc(), 1000, WriteFailure::Broken);
        let outcome = run_both(&rt, rt.alloc(), live, &mut errors)?;
        is(&rt, "whether all is told", outcome.told, Ok(()));
        let told = errors.taken.as_slice();
        let first = told.starts_with(b"1/2 t ..\n1/2 t none ");
        holds(&rt, "the test case before it", first);
        let text = str::from_utf8(told)?;
        let counted = text.contains(" s\n2/2 a ..\n1 passed, 0 failed, ");
        holds(&rt, "the test case itself, and how many passed", counted);
        let last = told.ends_with(b" s\nttrun: aborted at a: no behaviours\n");
        holds(&rt, "why it was refused", last);
    }
    Ok(())
}

#[test]
fn line_of_an_abort(rt: HostRuntime) -> Result<(), Fail> {
    let cases = of_two(rt.alloc())?;
    let mut results = run_campaign(&rt, rt.alloc(), cases, None, 0);
    let mut line = Vec::new(rt.alloc());
    is(&rt, "an abort", abort_line(&results, &mut line)?, true);
    results.ending = CampaignEnd::Complete;
    is(&rt, "no abort", abort_line(&results, &mut line)?, false);
    let wanted = b"ttrun: aborted at t: no thread\n".as_slice();
    is(&rt, "the line", line.as_slice(), wanted);
    Ok(())
}
