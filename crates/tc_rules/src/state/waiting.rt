//! Which runs continue, which wait, and whether the case is stuck.
ghost use Rattle.std.specs.Prelude.{◌≡◌, ◌<◌, true, Some, IfSome, List, length, is_some};
ghost use Rattle.tc_entry.specs.declared.entry.Entry.{Entry};
ghost use Rattle.tc_rules.specs.{Standing.StandsFor, Inside.Words.waits_in_vain};
ghost use Rattle.tc_rules.specs.History as history;
ghost use Rattle.tc_rules.specs.Waiting as waits;
ghost use Rattle.tc_rules.specs.Faults as faults;
ghost use Rattle.tc_rules.specs.Answers as answers;
ghost use Rattle.tc_rules.specs.Inside.States as tests;

use crate::awaited::Awaited;
use crate::run_state::RunState;
use crate::state::CaseState;
use tc_entry::{Comp, Phase};
use tc_verdict::Run;

#[tactic(auto, using(crate::proofs::Lemmas::Kept::kept_rules), unfolding(crate::specs::Standing::StandsFor))]
impl CaseState {
    /// The component of a run that is active.
    #[inline(always)]
    pub fn active_on(&self, caller: Run) -> Option<Comp>
        ensures active { (past : List Entry) → StandsFor self.now past → is_some result ≡ answers.is_active past caller.0 }
        ensures on { (past : List Entry) → StandsFor self.now past → IfSome result (λ c. history.comp_of past caller.0 ≡ Some c) }
        ensures within { IfSome result (λ c. c.0 < length self.now.states) }
    {
        let comp = self.comp_of(caller)?;
        if is_run_of(caller, self.states.get(comp.0 as usize).phase) {
            Some(comp)
        } else {
            None
        }
    }

    /// Whether a run is active.
    pub fn is_active(&self, run: Run) -> bool
        ensures { (past : List Entry) → StandsFor self.now past → result ≡ answers.is_active past run.0 }
    {
        self.active_on(run).is_some()
    }

    /// Whether what is awaited has come.
    #[tactic(auto, using(crate::proofs::Lemmas::Kept::kept_rules, crate::proofs::Lemmas::Kept::wait_rules), unfolding(crate::specs::Waiting::holds, crate::specs::Standing::StandsFor))]
    #[inline(always)]
    pub(crate) fn holds(&self, awaited: Awaited) -> bool
        requires { tests.all_below (faults.target_names awaited.target) (length self.now.states) ≡ true }
        ensures { (past : List Entry) → StandsFor self.now past → result ≡ waits.holds past awaited }
    {
        if awaited.killed {
            self.killed(awaited.target)
        } else {
            self.done(awaited.target)
        }
    }

    /// What a run waits for, if its last entry is a Wait or Wake replied Parked.
    #[tactic(auto, using(crate::proofs::Lemmas::Kept::kept_rules, crate::proofs::Lemmas::Kept::wait_rules), unfolding(crate::specs::Standing::StandsFor))]
    pub fn parked(&self, run: Run) -> Option<Awaited>
        ensures { (past : List Entry) → StandsFor self.now past → result ≡ waits.waiting past run.0 }
    {
        self.runs.get(run.0 as usize)?.waiting
    }

    /// Whether a run is active, and does not wait in vain.
    #[tactic(auto, using(crate::proofs::Lemmas::Kept::kept_rules, crate::proofs::Lemmas::Kept::wait_rules), unfolding(crate::specs::Inside::States::goes_on, crate::specs::Standing::StandsFor))]
    pub(crate) fn goes_on(&self, run: Run) -> bool
        ensures { (past : List Entry) → StandsFor self.now past → result ≡ tests.goes_on past run.0 }
    {
        self.is_active(run)
            && match self.runs.get(run.0 as usize) {
                Some(
                    RunState {
                        waiting: Some(awaited),
                        ..
                    },
                ) => self.holds(*awaited),
                _ => true,
            }
    }

    /// Whether every run that is active waits in vain.
    pub(crate) fn is_stuck(&self) -> bool
        ensures { (past : List Entry) → StandsFor self.now past → result ≡ waits.is_stuck past }
    {
        for b in 0..self.behaviours {
            if self.goes_on(Run(b)) {
                return false;
            }
        }
        true
    }
}

fn is_run_of(run: Run, phase: Phase) -> bool
    ensures { result ≡ answers.is_run_of run.0 phase }
{
    matches!(phase, Phase::Running(b) if b.0 == run.0)
}
