//! Campaigns that end early, and test cases one after the other.
ghost use Rattle.tc_campaign.specs.Prelude.{HasNames};

use crate::cases::{Counts, Does, between, case_of, counted};
use crate::checks::{holds, is};
use std::alloc::Global;
use std::process::Abort;
use std::sync::Wait;
use std::test::Fail;
use std::thread::Threads;
use tc_campaign::{
    CampaignEnd, Case, Results, run_campaign, status_of, tally, write_abort, write_text,
};

/// Checks the report of an aborted campaign, and what is printed about it.
fn is_aborted<R: Abort>(
    rt: &R,
    alloc: Global,
    results: &Results,
    report: &str,
    told: &str,
) -> Result<(), Fail> {
    let mut text = Vec::new(alloc);
    write_text(alloc, results, &mut text)?;
    is(rt, "the report", text.as_slice(), report.as_bytes());
    is(rt, "the status", status_of(results), 3);
    text.clear();
    let answer = write_abort(results, &mut text);
    is(rt, "whether an abort is told of", answer, Ok(true));
    is(rt, "what is told", text.as_slice(), told.as_bytes());
    Ok(())
}

/// The results of this test case, which has no worker.
fn run_alone<R: Threads + Wait + Copy + Send + 'static>(
    rt: &R,
    alloc: Global,
    case: Case<Does>,
) -> Result<Results, Fail>
    requires { HasNames case }
{
    let cases = vec![in alloc; case]?;
    Ok(run_campaign(rt, alloc, cases, None, 0))
}

#[test]
fn no_thread_report(rt: HostRuntime) -> Result<(), Fail> {
    let case = case_of(&rt, rt.alloc(), "t", None, 2)?;
    let results = run_alone(&rt, rt.alloc(), case)?;
    let report = "cases 0 none 0 pass 0 inconc 0 fail 0 error 0\naborted at t: no thread\n";
    let told = "ttrun: aborted at t: no thread\n";
    is_aborted(&rt, rt.alloc(), &results, report, told)
}

const STARVED: &str = "testcase a
run 0 main on 0
  setverdict pass -> ok
  finish -> ok
local 0 pass
verdict pass
cases 1 none 0 pass 1 inconc 0 fail 0 error 0
aborted at b: no memory
";

#[test]
fn starved_job_aborts(rt: HostRuntime) -> Result<(), Fail> {
    let starves = case_of(&rt, rt.alloc(), "b", Some(Does::Starves), 0)?;
    let cases = between(rt.alloc(), starves)?;
    let results = run_campaign(&rt, rt.alloc(), cases, None, 64);
    let told = "ttrun: aborted at b: no memory\n";
    is_aborted(&rt, rt.alloc(), &results, STARVED, told)
}

#[test]
fn one_case_after_the_other(rt: HostRuntime) -> Result<(), Fail> {
    let counts = Counts::new(rt.alloc())?;
    let cases = counted(rt.alloc(), &counts)?;
    let results = run_campaign(&rt, rt.alloc(), cases, None, 0);
    let is_complete = matches!(results.ending, CampaignEnd::Complete);
    holds(&rt, "the campaign is complete", is_complete);
    is(&rt, "how many pass", tally(&results).pass, 3);
    Ok(())
}
