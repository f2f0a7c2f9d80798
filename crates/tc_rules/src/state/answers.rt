//! The reply to a call that is no dynamic error.
ghost use Rattle.std.specs.Prelude.{◌≡◌, ◌<◌, true, Some, List, length};
ghost use Rattle.tc_entry.specs.declared.entry.Entry.{Entry};
ghost use Rattle.tc_rules.specs.Standing.{StandsFor};
ghost use Rattle.tc_rules.specs.History as history;
ghost use Rattle.tc_rules.specs.Faults as faults;
ghost use Rattle.tc_rules.specs.Inside.States as tests;
ghost use Rattle.tc_rules.specs.Answers as answers;

use crate::awaited::Awaited;
use crate::state::CaseState;
use tc_entry::{Comp, Fault, Op, Reply};
use tc_verdict::Run;

#[tactic(auto, using(crate::proofs::Lemmas::Kept::kept_rules), unfolding(crate::specs::Standing::StandsFor))]
impl CaseState {
    /// The reply to a call that is no error, by a run on component own.
    #[tactic(auto, using(crate::proofs::Lemmas::Kept::kept_rules, crate::proofs::Lemmas::Kept::wait_rules), unfolding(crate::specs::Standing::StandsFor))]
    #[inline(always)]
    pub(crate) fn plain_answer(&self, caller: Run, own: Comp, op: &Op) -> Reply
        requires on { (past : List Entry) → StandsFor self.now past → history.comp_of past caller.0 ≡ Some own }
        requires within { own.0 < length self.now.states }
        requires known { tests.all_below (faults.names op.now) (length self.now.states) ≡ true }
        ensures { (past : List Entry) → StandsFor self.now past → result ≡ answers.plain_answer past caller.0 op.now }
    {
        match op {
            Op::Create { .. } => Reply::Made(Comp(self.components())),
            Op::Running(target) => Reply::Answer(self.running(*target)),
            Op::Alive(target) => Reply::Answer(self.alive(*target)),
            Op::Done(target) => Reply::Answer(self.done(*target)),
            Op::Killed(target) => Reply::Answer(self.killed(*target)),
            Op::Wait { killed, target } | Op::Wake { killed, target } => {
                let (killed, target) = (*killed, *target);
                if self.holds(Awaited { killed, target }) {
                    Reply::Matched
                } else if matches!(op, Op::Wake { .. }) && caller.0 == 0 && self.is_stuck() {
                    Reply::Fault(Fault::Stuck)
                } else {
                    Reply::Parked
                }
            }
            Op::GetVerdict => Reply::Local(self.states.get(own.0 as usize).local),
            Op::Start { .. }
            | Op::Stop(_)
            | Op::Kill(_)
            | Op::StopCase
            | Op::SetVerdict(_)
            | Op::Finish => Reply::Ok,
        }
    }
}
