//! A state as a search keeps it: which run made each call. What was called, and with which reply, follows by the scripts.
ghost use Rattle.std.specs.Prelude.{◌≡◌, ◌≤◌, [], IfOk, length, map};
ghost use Rattle.tc_entry.specs.declared.limits.TheConstants.{BEHAVIOURS};
ghost use Rattle.tc_rules.specs.Prelude.{past_of};
ghost use Rattle.tc_course.specs.Prelude.{IsOn};
ghost use Rattle.tc_explore.specs.Inside.Played as plays;

use std::alloc::Global;
use std::marker::Model;
use tc_course::Course;
use tc_entry::Entry;
use tc_step::Script;
use tc_verdict::{NoMemory, Run};

/// A course of scripts, in two bytes for each call. Contracts see it as its case.
#[derive(Drop)]
pub(crate) struct Kept<'a> {
    scripts: &'a [Script],
    calls: Vec<Run>,
}

impl<'a> Model for Kept<'a> {
    ghost use Rattle.std.specs.Prelude.{◌≤◌, length};
    ghost use Rattle.tc_entry.specs.declared.limits.TheConstants.{BEHAVIOURS};
    ghost use Rattle.tc_rules.specs.Prelude.{Case};
    ghost use Rattle.tc_explore.specs.Inside.Played.{case_of};

    ghost Value = { Case };

    ghost view = { λ k. case_of k.scripts.now k.calls.items };

    ghost invariant = { λ k. (1 ≤ length k.scripts.now) × (length k.scripts.now ≤ BEHAVIOURS) };
}

// The course with the next call of a run, if there is such a run, and it has one.
fn with_next(course: Course, scripts: &[Script], run: Run) -> Result<Course, NoMemory>
    requires { course.behaviours ≡ length scripts.now }
    ensures behaviours { IfOk result (λ c. c.behaviours ≡ length scripts.now) }
    ensures made { IfOk result (λ c. past_of c ≡ plays.made_next scripts.now run (past_of course)) }
{
    if usize::from(run.0) >= scripts.len() {
        return Ok(course);
    }
    match course.turn(scripts, run) {
        Some(op) => course.with(run, op),
        None => Ok(course),
    }
}

// The runs that made these calls.
fn callers(alloc: Global, history: &[Entry]) -> Result<Vec<Run>, NoMemory>
    ensures { IfOk result (λ v. v.items ≡ map (λ e. e.caller) history.now) }
{
    let mut calls = Vec::with_capacity(alloc, history.len())?;
    for entry in history {
        calls.push(entry.caller)?;
    }
    Ok(calls)
}

// The course in which these runs make their next calls, one after the other.
#[tactic(auto, using(crate::proofs::Played::played_more, crate::proofs::Played::played_all))]
fn course_of(alloc: Global, scripts: &[Script], calls: &[Run]) -> Result<Course, NoMemory>
    requires some { 1 ≤ length scripts.now }
    requires few { length scripts.now ≤ BEHAVIOURS }
    ensures behaviours { IfOk result (λ c. c.behaviours ≡ length scripts.now) }
    ensures played { IfOk result (λ c. past_of c ≡ plays.played scripts.now [] calls.now) }
{
    let mut course = Course::opening(alloc, scripts.len() as u16)?;
    for run in calls {
        course = with_next(course, scripts, *run)?;
    }
    Ok(course)
}

impl<'a> Kept<'a> {
    /// Keeps a course of these scripts.
    #[tactic(auto, using(crate::proofs::Played::history_kept))]
    pub(crate) fn of(
        alloc: Global,
        scripts: &'a [Script],
        course: &Course,
    ) -> Result<Kept<'a>, NoMemory>
        requires some { 1 ≤ length scripts.now }
        requires few { length scripts.now ≤ BEHAVIOURS }
        requires on { IsOn scripts.now course.now }
        ensures behaviours { IfOk result (λ k. k.behaviours ≡ course.now.behaviours) }
        ensures entries { IfOk result (λ k. k.history ≡ course.now.history) }
    {
        let calls = callers(alloc, course.history())?;
        Ok(Kept { scripts, calls })
    }

    /// The course, played again.
    #[tactic(auto, using(crate::proofs::Played::history_played))]
    pub(crate) fn course(&self, alloc: Global) -> Result<Course, NoMemory>
        ensures behaviours { IfOk result (λ c. c.behaviours ≡ self.now.behaviours) }
        ensures entries { IfOk result (λ c. c.history ≡ self.now.history) }
    {
        course_of(alloc, self.scripts, self.calls.as_slice())
    }
}
