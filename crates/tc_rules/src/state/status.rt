//! The state of components, as the calls on a table see it.
ghost use Rattle.std.specs.Prelude.{◌≡◌, ◌<◌, ◌∷◌, [], true, List, length, IfSome};
ghost use Rattle.tc_entry.specs.declared.entry.Entry.{Entry};
ghost use Rattle.tc_rules.specs.Standing.{StandsFor};
ghost use Rattle.tc_rules.specs.History as history;
ghost use Rattle.tc_rules.specs.Status as status;
ghost use Rattle.tc_rules.specs.Faults as faults;
ghost use Rattle.tc_rules.specs.Inside.States as tests;

use crate::component_state::{is_done, is_killed, is_running};
use crate::state::CaseState;
use tc_entry::{Comp, Target};
use tc_verdict::Run;

#[tactic(auto, using(crate::proofs::Lemmas::Kept::kept_rules, crate::proofs::Lemmas::Kept::group_rules, crate::proofs::Lemmas::Kept::below_rules), unfolding(crate::specs::Standing::StandsFor))]
impl CaseState {
    pub(crate) fn exists(&self, comp: Comp) -> bool
        ensures { result ≡ tests.all_below (comp ∷ []) (length self.now.states) }
    {
        (comp.0 as usize) < self.states.as_slice().len()
    }

    /// The component that a run is on.
    #[inline(always)]
    pub fn comp_of(&self, run: Run) -> Option<Comp>
        ensures is { (past : List Entry) → StandsFor self.now past → result ≡ history.comp_of past run.0 }
        ensures within { IfSome result (λ c. c.0 < length self.now.states) }
    {
        self.runs.get(run.0 as usize)?.comp
    }

    /// Whether components are running.
    #[inline(always)]
    pub(crate) fn running(&self, target: Target) -> bool
        requires { tests.all_below (faults.target_names target) (length self.now.states) ≡ true }
        ensures { (past : List Entry) → StandsFor self.now past → result ≡ status.running past target }
    {
        match target {
            Target::One(comp) => is_running(self.states.get(comp.0 as usize).phase),
            Target::Any => !self.states.none_running(),
            Target::All => self.states.none_lapsed(),
        }
    }

    /// Whether components are not killed.
    #[inline(always)]
    pub(crate) fn alive(&self, target: Target) -> bool
        requires { tests.all_below (faults.target_names target) (length self.now.states) ≡ true }
        ensures { (past : List Entry) → StandsFor self.now past → result ≡ status.alive past target }
    {
        match target {
            Target::One(comp) => !is_killed(self.states.get(comp.0 as usize).phase),
            Target::Any => !self.states.all_killed(),
            Target::All => !self.states.any_killed(),
        }
    }

    /// Whether components are stopped or killed.
    #[inline(always)]
    pub(crate) fn done(&self, target: Target) -> bool
        requires { tests.all_below (faults.target_names target) (length self.now.states) ≡ true }
        ensures { (past : List Entry) → StandsFor self.now past → result ≡ status.done past target }
    {
        match target {
            Target::One(comp) => is_done(self.states.get(comp.0 as usize).phase),
            Target::Any => self.states.any_done(),
            Target::All => self.states.none_running(),
        }
    }

    /// Whether components are killed.
    #[inline(always)]
    pub(crate) fn killed(&self, target: Target) -> bool
        requires { tests.all_below (faults.target_names target) (length self.now.states) ≡ true }
        ensures { (past : List Entry) → StandsFor self.now past → result ≡ status.killed past target }
    {
        match target {
            Target::One(comp) => is_killed(self.states.get(comp.0 as usize).phase),
            Target::Any => self.states.any_killed(),
            Target::All => self.states.all_killed(),
        }
    }
}
