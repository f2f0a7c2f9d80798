//! Which histories are complete courses: those of reports, and what is left of them after a change, as the library says it and as
//! these tests play it.
ghost use Rattle.std.specs.Prelude.{◌≤◌, length};
ghost use Rattle.tc_entry.specs.declared.limits.TheConstants.{BEHAVIOURS};

use super::random::random_scripts;
use super::runs::{LONGEST, are_more, is_played, report_of};
use std::alloc::Global;
use std::process::Abort;
use std::sync::Wait;
use std::test::Fail;
use std::thread::Threads;
use tc_course::is_course;
use tc_entry::Entry;
use tc_rules::copied_entries;
use tc_step::Script;
use tc_verdict::Verdict;

/// How many cases are run.
const CASES: u64 = 200;

/// How many histories are courses, and how many are not.
#[derive(Drop)]
struct Told {
    courses: usize,
    others: usize,
}

// Counts what both say of a history.
fn tell<R: Abort>(
    rt: &R,
    alloc: Global,
    scripts: &[Script],
    history: &[Entry],
    verdict: Verdict,
    told: &mut Told,
) -> Result<(), Fail>
    requires some { 1 ≤ length scripts.now }
    requires few { length scripts.now ≤ BEHAVIOURS }
{
    let is = is_course(alloc, scripts, scripts.len() as u16, history, verdict)?;
    assert_eq!(rt; is, is_played(alloc, scripts, history, verdict)?);
    if is {
        told.courses = told.courses.saturating_add(1);
    } else {
        told.others = told.others.saturating_add(1);
    }
    Ok(())
}

// The history without the entry at this place.
fn without(alloc: Global, history: &[Entry], at: usize) -> Result<Vec<Entry>, Fail> {
    let mut entries = copied_entries(alloc, history)?;
    if at < entries.len() {
        drop(entries.remove(at));
    }
    Ok(entries)
}

// The history with the entry at this place after the next.
fn exchanged(alloc: Global, history: &[Entry], at: usize) -> Result<Vec<Entry>, Fail> {
    let mut entries = copied_entries(alloc, history)?;
    let next = at.saturating_add(1);
    if at < entries.len() && next < entries.len() {
        entries.swap(at, next);
    }
    Ok(entries)
}

fn tell_changes<R: Abort>(
    rt: &R,
    alloc: Global,
    scripts: &[Script],
    history: &[Entry],
    verdict: Verdict,
    told: &mut Told,
) -> Result<(), Fail>
    requires some { 1 ≤ length scripts.now }
    requires few { length scripts.now ≤ BEHAVIOURS }
{
    for at in 0..history.len() {
        let less = without(alloc, history, at)?;
        tell(rt, alloc, scripts, less.as_slice(), verdict, told)?;
        let other = exchanged(alloc, history, at)?;
        tell(rt, alloc, scripts, other.as_slice(), verdict, told)?;
    }
    Ok(())
}

fn tell_run<R: Abort + Threads + Wait + Copy + Send + 'static>(
    rt: &R,
    alloc: Global,
    seed: u64,
    told: &mut Told,
) -> Result<(), Fail> {
    let report = report_of(rt, alloc, seed)?;
    let scripts = random_scripts(rt, alloc, seed, LONGEST)?;
    assert!(rt; 1 <= scripts.len() && scripts.len() <= 64);
    let scripts = scripts.as_slice();
    let history = report.history.as_slice();
    assert!(rt;
        is_course(
            alloc,
            scripts,
            scripts.len() as u16,
            history,
            report.verdict
        )?,
        "{seed}"
    );
    for verdict in [Verdict::None, Verdict::Pass, Verdict::Fail, Verdict::Error] {
        tell(rt, alloc, scripts, history, verdict, told)?;
    }
    tell_changes(rt, alloc, scripts, history, report.verdict, told)
}

#[test]
fn changed_histories_are_no_courses(rt: HostRuntime) -> Result<(), Fail> {
    let mut told = Told {
        courses: 0,
        others: 0,
    };
    for seed in 0..CASES {
        tell_run(&rt, rt.alloc(), seed, &mut told)?;
    }
    are_more(&rt, "courses", told.courses, 200);
    are_more(&rt, "others", told.others, 1500);
    Ok(())
}
