//! The calls of which nobody can see that they were made, and the making of them. A search for verdicts up to one makes
//! each setting up to that at once: if it is made later, or not at all, the verdict is no worse.
ghost use Rattle.std.specs.Prelude.{◌≡◌, ◌≤◌, ◌<◌, true, false, IfOk, IsTrue, length};
ghost use Rattle.tc_entry.specs.declared.limits.TheConstants.{BEHAVIOURS};
ghost use Rattle.tc_rules.specs.Prelude.{past_of};
ghost use Rattle.tc_course.specs.Prelude.{IsOn};
ghost use Rattle.tc_entry.specs.Reply as reply;
ghost use Rattle.tc_rules.specs.Answers as answers;
ghost use Rattle.tc_rules.specs.Phases as phases;
ghost use Rattle.tc_course.specs.Course as courses;
ghost use Rattle.tc_explore.specs.Inside.{Seen.IsCalm, Seen.IsCalmAt, Seen.IsLoudAt, Seen.IsSeenBy, Seen.IsOpen, Seen.IsState, Seen.StandsOn, Simulation.IsWithin};
ghost use Rattle.tc_explore.specs.Inside.Simulation as moves;

use tc_course::{Course, has_gone_on, level, next_call};
use tc_entry::{Comp, Group, Op, Phase, Target};
use tc_step::Script;
use tc_verdict::{NoMemory, Run, Verdict, from_user};

// Whether a call asks a question, or sets a verdict that is no worse than this one.
fn is_quiet_now(op: &Op, worst: Verdict) -> bool
    ensures { result ≡ moves.is_quiet worst op.now }
{
    match op {
        Op::SetVerdict(verdict) => level(from_user(*verdict)) <= level(worst),
        Op::GetVerdict | Op::Running(_) | Op::Alive(_) | Op::Done(_) | Op::Killed(_) => true,
        _ => false,
    }
}

// Whether a call stops or kills a component, but the main one, that is killed already.
fn is_late(course: &Course, op: &Op) -> bool
    ensures { result ≡ moves.is_late (past_of course.now) op.now }
{
    match op {
        Op::Stop(Group::One(comp)) | Op::Kill(Group::One(comp)) => {
            comp.0 != 0 && is_gone(course.phase_of(*comp))
        }
        _ => false,
    }
}

// Whether a call waits for a component that is killed already.
fn is_met(course: &Course, op: &Op) -> bool
    ensures { result ≡ moves.is_met (past_of course.now) op.now }
{
    match op {
        Op::Wait {
            target: Target::One(comp),
            ..
        } => is_gone(course.phase_of(*comp)),
        _ => false,
    }
}

// Whether a call would change nothing but its caller's place.
fn is_spent(course: &Course, op: &Op) -> bool
    ensures { result ≡ moves.is_spent (past_of course.now) op.now }
{
    is_quiet_now(op, course.verdict()) || is_late(course, op) || is_met(course, op)
}

// Whether there is a component, and it is killed.
fn is_gone(phase: Option<Phase>) -> bool
    ensures { result ≡ moves.is_gone phase }
{
    matches!(phase, Some(Phase::Killed))
}

// Whether a call ends a run, but the main one, on a component that nothing can start again.
fn is_end(course: &Course, run: Run, op: &Op) -> bool
    requires within { run.0 < course.now.behaviours }
    ensures { result ≡ moves.is_end (past_of course.now) run.0 (courses.stand (past_of course.now) run.0).comp op.now }
{
    match (op, course.known(run).comp()) {
        (Op::Finish, Some(comp)) => run.0 != 0 && !course.is_alive_type(comp.0),
        _ => false,
    }
}

// Whether a call sets a verdict worse than this one.
fn is_barred(aim: Verdict, op: &Op) -> bool
    ensures { result ≡ moves.is_barred aim op.now }
{
    match op {
        Op::SetVerdict(verdict) => level(aim) < level(from_user(*verdict)),
        _ => false,
    }
}

// Whether what a run calls next sets a verdict worse than this one.
fn is_run_barred(aim: Verdict, course: &Course, scripts: &[Script], run: Run) -> bool
    requires within { run.0 < course.now.behaviours }
    ensures { result ≡ moves.bars_next aim (courses.turn scripts.now (past_of course.now) run.0) }
{
    match course.turn(scripts, run) {
        Some(op) => is_barred(aim, &op),
        None => false,
    }
}

// Whether another run is barred on a component that nothing can start again.
fn is_felled(aim: Verdict, course: &Course, scripts: &[Script], run: Run, comp: Comp) -> bool
    requires on { IsOn scripts.now course.now }
    ensures { result ≡ moves.is_felled aim scripts.now (past_of course.now) run.0 comp (phases.phase_if_any (past_of course.now) comp.0) }
{
    let Some(Phase::Running(other)) = course.phase_of(comp) else {
        return false;
    };
    if usize::from(other.0) >= scripts.len() || comp.0 == 0 || other.0 == 0 || run.0 == other.0 {
        return false;
    }
    match course.known(other).comp() {
        Some(on) => {
            on.0 == comp.0
                && !course.is_alive_type(comp.0)
                && is_run_barred(aim, course, scripts, other)
        }
        None => false,
    }
}

// Whether a call stops or kills such a component.
fn is_felling(aim: Verdict, course: &Course, scripts: &[Script], run: Run, op: &Op) -> bool
    requires on { IsOn scripts.now course.now }
    ensures { result ≡ moves.is_felling aim scripts.now (past_of course.now) run.0 op.now }
{
    match op {
        Op::Stop(Group::One(comp)) | Op::Kill(Group::One(comp)) => {
            is_felled(aim, course, scripts, run, *comp)
        }
        _ => false,
    }
}

// Whether nobody can see that a call was made: it changes nothing, is an end, sets a verdict up to this one, or stops
// what could only set a worse one.
fn is_unseen(aim: Verdict, course: &Course, scripts: &[Script], run: Run, op: &Op) -> bool
    requires within { run.0 < course.now.behaviours }
    requires on { IsOn scripts.now course.now }
    ensures { result ≡ moves.is_silent aim scripts.now (past_of course.now) run.0 op.now }
{
    is_spent(course, op)
        || is_end(course, run, op)
        || is_quiet_now(op, aim)
        || is_felling(aim, course, scripts, run, op)
}

// Whether so it is of a call that is no error, and after which its caller continues.
#[tactic(auto, using(crate::proofs::Searching::silent_rules))]
fn is_silent(aim: Verdict, course: &Course, scripts: &[Script], run: Run, op: &Op) -> bool
    requires within { run.0 < course.now.behaviours }
    requires on { IsOn scripts.now course.now }
    ensures plain { IsTrue result → reply.is_fault (answers.answer course.now.behaviours (past_of course.now) run.0 op.now) ≡ false }
    ensures going { IsTrue result → courses.goes_on (answers.answer course.now.behaviours (past_of course.now) run.0 op.now) ≡ true }
    ensures silent { IsTrue result → moves.IsSilent aim scripts.now (past_of course.now) run.0 op.now }
    ensures calm { result ≡ false → IsLoudAt course.now.behaviours (past_of course.now) run.0 op.now }
    ensures loud { result ≡ false → IsSeenBy aim scripts.now course.now run.0 op.now }
{
    let reply = course.would(run, op);
    !reply.is_fault() && has_gone_on(reply) && is_unseen(aim, course, scripts, run, op)
}

// The course with the next calls of a run of which nobody can see that they were made. Each turn adds an entry, and no
// memory holds as many as there are turns.
#[tactic(auto, using(crate::proofs::Searching::searching_rules, crate::proofs::Keeping::on_open, tc_course::proofs::Lemmas::turn_rules))]
fn with_silent_calls(
    aim: Verdict,
    course: Course,
    scripts: &[Script],
    run: Run,
) -> Result<Course, NoMemory>
    requires within { run.0 < length scripts.now }
    requires opened { IsOpen scripts.now course }
    requires verdict { IsWithin aim (past_of course) }
    ensures verdict { IfOk result (λ c. IsWithin aim (past_of c)) }
    ensures opened { IfOk result (λ c. IsOpen scripts.now c) }
    ensures stands { IfOk result (λ c. StandsOn aim scripts.now course c) }
    ensures calm { IfOk result (λ c. IsCalmAt scripts.now (past_of c) run.0) }
{
    let mut course = course;
    for _ in 0..usize::MAX {
        let Some(op) = next_call(&course, scripts, run) else {
            return Ok(course);
        };
        if !is_silent(aim, &course, scripts, run, &op) {
            return Ok(course);
        }
        course = course.with(run, op)?;
    }
    Err(NoMemory)
}

// The course with such calls of all runs, one run after the other.
#[tactic(auto, using(crate::proofs::Searching::searching_rules))]
fn calmed_once(aim: Verdict, course: Course, scripts: &[Script]) -> Result<Course, NoMemory>
    requires few { length scripts.now ≤ BEHAVIOURS }
    requires opened { IsOpen scripts.now course }
    requires verdict { IsWithin aim (past_of course) }
    ensures verdict { IfOk result (λ c. IsWithin aim (past_of c)) }
    ensures opened { IfOk result (λ c. IsOpen scripts.now c) }
    ensures stands { IfOk result (λ c. StandsOn aim scripts.now course c) }
    ensures calm { IfOk result (λ c. past_of c ≡ past_of course → IsCalm scripts.now (past_of course)) }
{
    let mut course = course;
    for run in 0..scripts.len() as u16 {
        course = with_silent_calls(aim, course, scripts, Run(run))?;
    }
    Ok(course)
}

/// The course with all calls of which nobody can see that they were made. The end of a run can make a call of another
/// one of these, so it goes over the runs until none has such a call. Each turn but the last adds an entry, and no
/// memory holds as many as there are turns.
#[tactic(auto, using(crate::proofs::Searching::searching_rules))]
pub(crate) fn calmed(aim: Verdict, course: Course, scripts: &[Script]) -> Result<Course, NoMemory>
    requires few { length scripts.now ≤ BEHAVIOURS }
    requires opened { IsOpen scripts.now course }
    requires verdict { IsWithin aim (past_of course) }
    ensures state { IfOk result (λ c. IsState aim scripts.now c) }
    ensures stands { IfOk result (λ c. StandsOn aim scripts.now course c) }
{
    let mut course = course;
    for _ in 0..usize::MAX {
        let called = course.history().len();
        course = calmed_once(aim, course, scripts)?;
        if course.history().len() == called {
            return Ok(course);
        }
    }
    Err(NoMemory)
}
