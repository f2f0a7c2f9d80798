//! Whether a history is a complete course of scripts.
ghost use Rattle.std.specs.Prelude.{◌≡◌, ◌↔◌, ◌≤◌, ◌∷◌, true, IfOk, IfNone, IfSome, IsTrue, length};
ghost use Rattle.tc_entry.specs.declared.limits.TheConstants.{BEHAVIOURS};
ghost use Rattle.tc_rules.specs.Prelude.{past_of, overall};
ghost use Rattle.tc_course.specs.{Course.IsComplete, Course.IsOn, Course.IsTurn, Witnesses.IsNoted, Witnesses.IsNotedEntry, Witnesses.IsShown};

use crate::course::Course;
use crate::next::next_call;
use std::alloc::Global;
use tc_entry::{Entry, Op};
use tc_step::Script;
use tc_verdict::{NoMemory, Run, Verdict};

// Whether the operation is the one that was noted.
fn is_noted(noted: &Op, op: &Op) -> bool
    ensures { IsTrue result ↔ IsNoted noted.now op.now }
{
    let (
        Op::Start {
            comp: c,
            run: r,
            args: first,
        },
        Op::Start { comp, run, args },
    ) = (noted, op)
    else {
        return op.same(noted);
    };
    *comp == *c && *run == *r && args.as_slice().starts_with(first.as_slice())
}

// The course with the entry that was noted, if it is what its caller calls next, with the table's reply.
#[tactic(auto, using(crate::proofs::Lemmas::turn_rules, crate::proofs::Followed::following_rules))]
fn with_entry(course: Course, scripts: &[Script], noted: &Entry) -> Result<Option<Course>, NoMemory>
    requires some { 1 ≤ length scripts.now }
    requires on { IsOn scripts.now course }
    ensures on { IfOk result (λ o. IfSome o (IsOn scripts.now)) }
    ensures added { IfOk result (λ o. IfSome o (λ c. (e : Entry) × IsNotedEntry noted.now e × (past_of c ≡ e ∷ past_of course))) }
    ensures refused { IfOk result (λ o. IfNone o ((e : Entry) → IsNotedEntry noted.now e → IsTurn scripts.now (past_of course) e → ⊥)) }
{
    let Some(op) = next_call(&course, scripts, noted.caller) else {
        return Ok(None);
    };
    if !is_noted(&noted.op, &op) || !course.would(noted.caller, &op).same(&noted.reply) {
        return Ok(None);
    }
    let next = course.with(noted.caller, op)?;
    Ok(Some(next))
}

// Whether no run has a call left.
#[tactic(auto, using(crate::proofs::Followed::leaving_rules))]
fn is_complete(course: &Course, scripts: &[Script]) -> bool
    requires few { length scripts.now ≤ BEHAVIOURS }
    requires on { IsOn scripts.now course.now }
    ensures { (result ≡ true) ↔ IsComplete scripts.now (past_of course.now) }
{
    for run in 0..scripts.len() as u16 {
        if course.turn(scripts, Run(run)).is_some() {
            return false;
        }
    }
    true
}

// Whether the course is complete, and this is its overall verdict.
fn ends_with(course: &Course, scripts: &[Script], verdict: Verdict) -> bool
    requires few { length scripts.now ≤ BEHAVIOURS }
    requires on { IsOn scripts.now course.now }
    ensures { (result ≡ true) ↔ (IsComplete scripts.now (past_of course.now) × (verdict ≡ overall (past_of course.now))) }
{
    is_complete(course, scripts) && course.verdict() == verdict
}

/// Whether the entries, the oldest first, are a complete course of a test case of that many behaviours, the first of which
/// are these scripts, and this is its overall verdict. In an entry the last arguments of a start may be left out.
pub fn is_course(
    alloc: Global,
    scripts: &[Script],
    behaviours: u16,
    noted: &[Entry],
    verdict: Verdict,
) -> Result<bool, NoMemory>
    requires { length scripts.now ≤ BEHAVIOURS }
    ensures { IfOk result (λ is. (is ≡ true) ↔ IsShown scripts.now behaviours noted.now verdict) }
{
    if scripts.is_empty() || scripts.len() > usize::from(behaviours) {
        return Ok(false);
    }
    let mut course = Course::opening(alloc, scripts.len() as u16)?;
    for entry in noted {
        let Some(next) = with_entry(course, scripts, entry)? else {
            return Ok(false);
        };
        course = next;
    }
    Ok(ends_with(&course, scripts, verdict))
}
