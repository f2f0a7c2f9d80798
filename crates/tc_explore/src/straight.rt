//! Schedules that are played straight to their ends, of a test case whose search met its limit.
ghost use Rattle.std.specs.Prelude.{◌≡◌, ◌≤◌, ◌<◌, true, IfNone, IfOk, IfSome, OnOk, length};
ghost use Rattle.tc_entry.specs.declared.limits.TheConstants.{BEHAVIOURS};
ghost use Rattle.tc_rules.specs.Prelude.{answer, past_of, is_over};
ghost use Rattle.tc_course.specs.Prelude.{IsNext, IsOn, goes_on};
ghost use Rattle.tc_explore.specs.Inside.Seen.{AreHeld, IsHeldAt, IsNoLess, IsNoted};
ghost use Rattle.tc_explore.specs.Inside.Seen as seen;

use crate::findings::{Findings, note, with_stuck};
use std::alloc::Global;
use tc_course::{Course, has_gone_on, next_call};
use tc_entry::Op;
use tc_step::Script;
use tc_verdict::{NoMemory, Run};

/// The next call of a run, if it continues.
#[tactic(auto, using(crate::proofs::Closed::held_rules))]
pub(crate) fn call_on(course: &Course, scripts: &[Script], run: Run) -> Option<Op>
    requires within { run.0 < length scripts.now }
    requires on { IsOn scripts.now course.now }
    ensures some { IfSome result (IsNext scripts.now course.now run) }
    ensures goes { IfSome result (λ op. goes_on (answer course.now.behaviours (past_of course.now) run.0 op) ≡ true) }
    ensures none { IfNone result (IsHeldAt scripts.now (past_of course.now) run.0) }
{
    let op = next_call(course, scripts, run)?;
    if !has_gone_on(course.would(run, &op)) {
        return None;
    }
    Some(op)
}

// The run at a place among that many, from the highest on or from the lowest.
fn run_at(from_highest: bool, count: u16, at: u16) -> Run
    requires { at < count }
    ensures { result.0 ≡ seen.run_at from_highest count at }
{
    Run(if from_highest { count - 1 - at } else { at })
}

// The first run in this order that continues, and its next call.
#[tactic(auto, using(crate::proofs::Closed::one_more_held))]
fn first_call(course: &Course, scripts: &[Script], from_highest: bool) -> Option<(Run, Op)>
    requires few { length scripts.now ≤ BEHAVIOURS }
    requires on { IsOn scripts.now course.now }
    ensures some { IfSome result (λ c. IsNext scripts.now course.now c.0 c.1) }
    ensures goes { IfSome result (λ c. goes_on (answer course.now.behaviours (past_of course.now) c.0.0 c.1) ≡ true) }
    ensures none { IfNone result (AreHeld scripts.now (past_of course.now)) }
{
    let count = scripts.len() as u16;
    for at in 0..count {
        let run = run_at(from_highest, count, at);
        if let Some(op) = call_on(course, scripts, run) {
            return Some((run, op));
        }
    }
    None
}

// The course in which always the first run in this order that continues makes its next call, to its end. Each turn adds
// an entry, and no memory holds as many as there are turns.
#[tactic(auto, using(crate::proofs::Keeping::open_opening, crate::proofs::Keeping::open_next, crate::proofs::Keeping::on_open, tc_course::proofs::Lemmas::turn_rules))]
fn straight_course(
    alloc: Global,
    scripts: &[Script],
    from_highest: bool,
) -> Result<Course, NoMemory>
    requires some { 1 ≤ length scripts.now }
    requires few { length scripts.now ≤ BEHAVIOURS }
    ensures on { IfOk result (IsOn scripts.now) }
    ensures over { IfOk result (λ c. is_over (past_of c) ≡ true) }
{
    let mut course = Course::opening(alloc, scripts.len() as u16)?;
    for _ in 0..usize::MAX {
        let Some((run, op)) = first_call(&course, scripts, from_highest) else {
            return with_stuck(course, scripts);
        };
        course = course.with(run, op)?;
        if course.is_over() {
            return Ok(course);
        }
    }
    Err(NoMemory)
}

/// Notes the verdict of the course in which always the lowest run that continues makes its next call, and that of the
/// course in which the highest does.
#[tactic(auto, using(crate::proofs::Noting::some_found, crate::proofs::Kept::no_less_then))]
pub(crate) fn note_straight(
    alloc: Global,
    scripts: &[Script],
    found: &mut Findings,
) -> Result<(), NoMemory>
    requires some { 1 ≤ length scripts.now }
    requires few { length scripts.now ≤ BEHAVIOURS }
    requires found { IsNoted scripts.now found.old }
    ensures found { OnOk result (IsNoted scripts.now found.new) }
    ensures more { OnOk result (IsNoLess found.old.reached.items found.new.reached.items) }
    ensures told { OnOk result (1 ≤ length found.new.witnesses.items) }
{
    let lowest = straight_course(alloc, scripts, false)?;
    note(alloc, scripts, lowest, found)?;
    let highest = straight_course(alloc, scripts, true)?;
    note(alloc, scripts, highest, found)
}
