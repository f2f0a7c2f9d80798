//! What a search has found so far, and what it notes of the cases that are over.
ghost use Rattle.std.specs.Prelude.{◌≡◌, ◌≤◌, ◌<◌, ◌+◌, [], true, IfOk, OnOk, length};
ghost use Rattle.std.specs.List.Sorted.{IsNonDecreasingBy, IsPermutation};
ghost use Rattle.tc_entry.specs.declared.limits.TheConstants.{BEHAVIOURS};
ghost use Rattle.tc_verdict.specs.declared.verdict.Verdict.TheVariants.{Error};
ghost use Rattle.tc_rules.specs.Prelude.{past_of, is_over, level_of, overall};
ghost use Rattle.tc_course.specs.Prelude.{carried_on, IsComplete, IsOn};
ghost use Rattle.tc_course.specs.Witnesses as witnesses;
ghost use Rattle.tc_explore.specs.{Found.AreReached, Found.Covers, Inside.Seen.AreHeld, Inside.Seen.HasSameLocals, Inside.Seen.IsLonger, Inside.Seen.IsNoLess, Inside.Seen.IsNoted, Inside.Seen.IsOpen, Inside.Seen.IsStepped, Inside.Seen.IsSteppedIfActive};

use std::alloc::Global;
use tc_course::{Course, Witness, is_found, level, next_call};
use tc_entry::Sequence;
use tc_rules::copied_entries;
use tc_step::Script;
use tc_verdict::{NoMemory, Run};

/// A witness of each verdict that was found, and for each run how many calls it carries out in some course, at most.
#[derive(Drop)]
pub(crate) struct Findings {
    pub(crate) witnesses: Vec<Witness>,
    pub(crate) reached: Vec<usize>,
}

/// Nothing is found yet.
#[tactic(auto, using(crate::proofs::Noting::noting_rules, crate::proofs::Kept::reaching_rules))]
pub(crate) fn no_findings(alloc: Global, scripts: &[Script]) -> Result<Findings, NoMemory>
    ensures noted { IfOk result (IsNoted scripts.now) }
    ensures none { IfOk result (λ f. f.witnesses.items ≡ []) }
{
    let witnesses = Vec::new(alloc);
    let reached = vec![in alloc; 0; scripts.len()]?;
    Ok(Findings { witnesses, reached })
}

/// Orders witnesses from the best verdict to the worst.
pub(crate) fn order(witnesses: &mut Vec<Witness>)
    ensures same { IsPermutation witnesses.old.items witnesses.new.items }
    ensures ordered { IsNonDecreasingBy (λ w. level_of w.verdict) witnesses.new.items }
{
    witnesses.sort_unstable_by_key(|witness| level(witness.verdict));
}

/// Takes in how many calls the runs of a course have carried out.
#[tactic(auto, using(crate::proofs::Kept::counting_rules))]
pub(crate) fn reach(reached: &mut Vec<usize>, scripts: &[Script], course: &Course)
    requires few { length scripts.now ≤ BEHAVIOURS }
    requires on { IsOn scripts.now course.now }
    requires reached { AreReached scripts.now reached.old.items }
    ensures reached { AreReached scripts.now reached.new.items }
    ensures more { IsNoLess reached.old.items reached.new.items }
    ensures covers { Covers reached.new.items (past_of course.now) }
{
    for run in 0..scripts.len() as u16 {
        let at = usize::from(run);
        reached[at] = reached[at].max(course.carried(Run(run)));
    }
}

// The course with the next call of a run, if that can continue.
#[tactic(auto, using(tc_course::proofs::Lemmas::turn_rules, crate::proofs::LastCalls::step_rules))]
fn step(course: Course, scripts: &[Script], run: Run) -> Result<Course, NoMemory>
    requires within { run.0 < length scripts.now }
    requires on { IsOn scripts.now course }
    ensures on { IfOk result (IsOn scripts.now) }
    ensures stepped { IfOk result (λ c. IsStepped scripts.now (past_of course) (past_of c) run.0) }
{
    match next_call(&course, scripts, run) {
        None => Ok(course),
        Some(op) => course.with(run, op),
    }
}

/// Each run of a case that is over makes its last call, in the order of their numbers: it is replied Ended.
#[tactic(auto, using(crate::proofs::LastCalls::ending_rules))]
pub(crate) fn step_all(course: Course, scripts: &[Script]) -> Result<Course, NoMemory>
    requires few { length scripts.now ≤ BEHAVIOURS }
    requires on { IsOn scripts.now course }
    requires over { is_over (past_of course) ≡ true }
    ensures on { IfOk result (IsOn scripts.now) }
    ensures complete { IfOk result (λ c. IsComplete scripts.now (past_of c)) }
    ensures verdict { IfOk result (λ c. overall (past_of c) ≡ overall (past_of course)) }
    ensures locals { IfOk result (λ c. HasSameLocals (past_of course) (past_of c)) }
{
    let mut course = course;
    for run in 0..scripts.len() as u16 {
        course = step(course, scripts, Run(run))?;
    }
    Ok(course)
}

/// Notes the verdict of a case that is over, if it is new; each run makes its last call first, which is replied Ended.
#[tactic(auto, using(crate::proofs::Seeing::seeing_rules, crate::proofs::Noting::noting_rules, crate::proofs::Kept::covering_rules))]
pub(crate) fn note(
    alloc: Global,
    scripts: &[Script],
    course: Course,
    found: &mut Findings,
) -> Result<(), NoMemory>
    requires few { length scripts.now ≤ BEHAVIOURS }
    requires on { IsOn scripts.now course }
    requires over { is_over (past_of course) ≡ true }
    requires found { IsNoted scripts.now found.old }
    ensures found { IsNoted scripts.now found.new }
    ensures more_found { IsLonger found.old.witnesses.items found.new.witnesses.items }
    ensures more { IsNoLess found.old.reached.items found.new.reached.items }
    ensures covers { Covers found.new.reached.items (past_of course) }
    ensures told { OnOk result (witnesses.is_found found.new.witnesses.items (overall (past_of course)) ≡ true) }
{
    reach(&mut found.reached, scripts, &course);
    if is_found(&found.witnesses, course.verdict()) {
        return Ok(());
    }
    let ended = step_all(course, scripts)?;
    reach(&mut found.reached, scripts, &ended);
    let verdict = ended.verdict();
    let history = Sequence::new(copied_entries(alloc, ended.history())?);
    found.witnesses.push(Witness { verdict, history })?;
    Ok(())
}

// The course with the next call of a run, if it continues.
#[tactic(auto, using(crate::proofs::Parking::active_rules))]
fn step_if_active(course: Course, scripts: &[Script], run: Run) -> Result<Course, NoMemory>
    requires within { run.0 < length scripts.now }
    requires on { IsOn scripts.now course }
    ensures on { IfOk result (IsOn scripts.now) }
    ensures parked { IfOk result (λ c. IsSteppedIfActive scripts.now (past_of course) (past_of c) run.0) }
{
    if !course.is_active(run) {
        return Ok(course);
    }
    let next = step(course, scripts, run)?;
    Ok(next)
}

/// The case in which each run that continues has made its next call, and then the main one another. If no run can
/// continue, it is the end of the case: each of them waits, and the Wake of the main component is a dynamic error.
#[tactic(auto, using(crate::proofs::Parking::parked_none))]
pub(crate) fn with_stuck(course: Course, scripts: &[Script]) -> Result<Course, NoMemory>
    requires some { 1 ≤ length scripts.now }
    requires few { length scripts.now ≤ BEHAVIOURS }
    requires opened { IsOpen scripts.now course }
    ensures on { IfOk result (IsOn scripts.now) }
    ensures over { IfOk result (λ c. AreHeld scripts.now (past_of course) → is_over (past_of c) ≡ true) }
    ensures error { IfOk result (λ c. AreHeld scripts.now (past_of course) → overall (past_of c) ≡ Error) }
    ensures main { IfOk result (λ c. AreHeld scripts.now (past_of course) → carried_on (past_of c) 0 ≡ carried_on (past_of course) 0 + 1) }
{
    let mut course = course;
    for run in 0..scripts.len() as u16 {
        course = step_if_active(course, scripts, Run(run))?;
    }
    let ended = step(course, scripts, Run(0))?;
    Ok(ended)
}
