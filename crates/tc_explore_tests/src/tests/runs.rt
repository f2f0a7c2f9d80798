//! Runs of random scripts on threads: the history of each report is a complete course of its scripts.
ghost use Rattle.std.specs.Prelude.{◌≤◌, length};
ghost use Rattle.tc_entry.specs.declared.limits.TheConstants.{BEHAVIOURS};

use super::play::Play;
use super::random::random_scripts;
use std::alloc::Global;
use std::process::Abort;
use std::sync::Wait;
use std::test::Fail;
use std::thread::Threads;
use tc_entry::{Entry, Reply};
use tc_exec::{CaseReport, Everyone, run_case_with};
use tc_script::ScriptJob;
use tc_step::Script;
use tc_verdict::Verdict;

/// How many cases are run.
const CASES: u64 = 600;

pub(super) const LONGEST: u32 = 6;

/// Whether these entries are played so, no run has a call left then, and this is the verdict.
pub(super) fn is_played(
    alloc: Global,
    scripts: &[Script],
    history: &[Entry],
    verdict: Verdict,
) -> Result<bool, Fail>
    requires some { 1 ≤ length scripts.now }
    requires few { length scripts.now ≤ BEHAVIOURS }
{
    let mut play = Play::opening(alloc, scripts.len() as u16)?;
    for entry in history {
        let Some(op) = play.next(scripts, entry.caller.0) else {
            return Ok(false);
        };
        let is_called = op.same(&entry.op);
        if !is_called || !play.call(entry.caller.0, op)?.same(&entry.reply) {
            return Ok(false);
        }
    }
    Ok(play.is_complete(scripts) && play.verdict() == verdict)
}

// What was met in the histories of reports.
#[derive(Drop)]
struct Met {
    entries: usize,
    parked: usize,
    ended: usize,
    faults: usize,
}

impl Met {
    fn take(&mut self, history: &[Entry]) {
        for entry in history {
            self.entries = self.entries.saturating_add(1);
            match entry.reply {
                Reply::Parked => self.parked = self.parked.saturating_add(1),
                Reply::Ended => self.ended = self.ended.saturating_add(1),
                Reply::Fault(_) => self.faults = self.faults.saturating_add(1),
                _ => {}
            }
        }
    }
}

// The jobs of the random scripts.
fn jobs_of<R: Abort + Wait + Copy + Send + 'static>(
    rt: &R,
    alloc: Global,
    seed: u64,
) -> Result<Vec<ScriptJob<R>>, Fail> {
    let mut jobs = Vec::new(alloc);
    for script in random_scripts(rt, alloc, seed, LONGEST)? {
        jobs.push(ScriptJob::new(*rt, alloc, script))?;
    }
    Ok(jobs)
}

/// The report of a run of the random scripts.
pub(super) fn report_of<R: Abort + Threads + Wait + Copy + Send + 'static>(
    rt: &R,
    alloc: Global,
    seed: u64,
) -> Result<CaseReport, Fail> {
    let jobs = jobs_of(rt, alloc, seed)?;
    Ok(run_case_with(rt, alloc, jobs, 2, &mut Everyone)?)
}

// The report is of a complete course of the random scripts.
fn is_course<R: Abort>(rt: &R, alloc: Global, seed: u64, report: &CaseReport) -> Result<(), Fail> {
    let scripts = random_scripts(rt, alloc, seed, LONGEST)?;
    assert!(rt; 1 <= scripts.len() && scripts.len() <= 64);
    let history = report.history.as_slice();
    let is_course = is_played(alloc, scripts.as_slice(), history, report.verdict)?;
    assert!(rt; is_course, "{seed}");
    Ok(())
}

fn run_random<R: Abort + Threads + Wait + Copy + Send + 'static>(
    rt: &R,
    alloc: Global,
    seed: u64,
    met: &mut Met,
) -> Result<(), Fail> {
    let report = report_of(rt, alloc, seed)?;
    is_course(rt, alloc, seed, &report)?;
    met.take(report.history.as_slice());
    Ok(())
}

/// Ends the test unless more than that many were met.
pub(super) fn are_more<R: Abort>(rt: &R, what: &str, found: usize, least: usize) {
    assert!(rt; found > least, "{what}: {found}");
}

#[test]
fn histories_of_runs_are_complete_courses(rt: HostRuntime) -> Result<(), Fail> {
    let mut met = Met {
        entries: 0,
        parked: 0,
        ended: 0,
        faults: 0,
    };
    for seed in 0..CASES {
        run_random(&rt, rt.alloc(), seed, &mut met)?;
    }
    are_more(&rt, "entries", met.entries, 2000);
    are_more(&rt, "parked", met.parked, 40);
    are_more(&rt, "ended", met.ended, 100);
    are_more(&rt, "faults", met.faults, 100);
    Ok(())
}
