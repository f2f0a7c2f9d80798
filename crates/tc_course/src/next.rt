//! What a run calls next.
ghost use Rattle.std.specs.Prelude.{◌≡◌, ◌<◌, IfNone, IfSome, length};
ghost use Rattle.tc_rules.specs.Prelude.{past_of};
ghost use Rattle.tc_rules.specs.Answers as answers;
ghost use Rattle.tc_course.specs.{Course.{CannotGo, IsNext, IsOn}, Inside.is_idle as spec_idle};

use crate::course::Course;
use crate::entries::is_wake;
use tc_entry::{Op, Reply};
use tc_step::Script;
use tc_verdict::Run;

// Whether the call would be a Wake that is parked again.
#[tactic(auto, using(crate::proofs::Lemmas::other_not_idle))]
fn is_idle(course: &Course, run: Run, op: &Op) -> bool
    ensures { result ≡ spec_idle op.now (answers.answer course.now.behaviours (past_of course.now) run.0 op.now) }
{
    is_wake(op) && matches!(course.would(run, op), Reply::Parked)
}

/// What the run calls next, if it can continue.
#[tactic(auto, using(crate::proofs::Lemmas::turn_rules))]
pub fn next_call(course: &Course, scripts: &[Script], run: Run) -> Option<Op>
    requires on { IsOn scripts.now course.now }
    ensures some { IfSome result (λ op. IsNext scripts.now course.now run op) }
    ensures none { IfNone result (run.0 < length scripts.now → CannotGo scripts.now (past_of course.now) run.0) }
{
    if usize::from(run.0) >= scripts.len() {
        return None;
    }
    let op = course.turn(scripts, run)?;
    if is_idle(course, run, &op) {
        return None;
    }
    Some(op)
}
