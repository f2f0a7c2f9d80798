//! Runs one test case of two behaviours, and prints its verdicts.
#![tactic(auto)]

mod behaviours;
#[cfg(test)]
mod tests;

use behaviours::{lead, probe};
use std::alloc::Global;
use std::io;
use std::process::ExitCode;
use std::sync::Wait;
use std::thread::Threads;
use tc_book::Pass;
use tc_entry::BEHAVIOURS;
use tc_exec::{CaseReport, Job, run_case};
use tc_report::verdict_status;
use tc_verdict::name;

/// How many workers the case may have: enough for every case.
const WORKERS: u16 = BEHAVIOURS as u16;

/// The status without a report.
const NO_REPORT: u8 = 3;

/// Prints the local verdict of each component, and the overall verdict.
fn print_verdicts<R: Print>(rt: &R, report: &CaseReport) -> io::Result<()> {
    for (comp, local) in report.locals.as_slice().iter().enumerate() {
        println!(rt; "component {comp}: {}", name(*local))?;
    }
    println!(rt; "verdict {}", name(report.verdict))
}

/// Runs the case and prints its verdicts, or why there are none. Returns the exit status.
fn run<R: Threads + Wait + Copy + Send + Print + 'static>(
    rt: &R,
    alloc: Global,
    jobs: Vec<Job>,
) -> io::Result<u8> {
    match run_case(rt, alloc, jobs, WORKERS) {
        Ok(report) => {
            print_verdicts(rt, &report)?;
            Ok(verdict_status(report.verdict))
        }
        Err(error) => {
            println!(rt; "no report: {error:?}")?;
            Ok(NO_REPORT)
        }
    }
}

fn main(rt: HostRuntime) -> ExitCode {
    let alloc = rt.alloc();
    let (Ok(first), Ok(second)) = (
        Box::new(alloc, move |pass: Pass| lead(&rt, pass)),
        Box::new(alloc, move |pass: Pass| probe(&rt, pass)),
    ) else {
        return ExitCode::from(NO_REPORT);
    };
    let Ok(jobs) = vec![in alloc; Job::new(first), Job::new(second)] else {
        return ExitCode::from(NO_REPORT);
    };
    ExitCode::from(run(&rt, alloc, jobs).unwrap_or(NO_REPORT))
}
