//! The states of all components, with what is counted over them.
ghost use Rattle.std.specs.Prelude.{◌≡◌, ◌≤◌, ◌<◌, ◌+◌, ◌++◌, ◌&&◌, ◌∷◌, [], drop, length, slice_index_or, slice_set, IfOk, OnOk, OnErr};
ghost use Rattle.tc_entry.specs.{declared.limits.TheConstants.COMPONENTS, Prelude.level_of};
ghost use Rattle.tc_rules.specs.Inside.Counts.{bit, is_lapsed as lapsed_state, main_state, made_state};
ghost use Rattle.tc_rules.specs.Inside.States as tests;

use crate::component_state::{ComponentState, are_same, is_done, is_killed, is_running};
use std::alloc::{AllocError, Global};
use std::marker::Model;
use tc_entry::Phase;
use tc_verdict::{NoMemory, Run, Verdict, worse_of};

/// The states of all components, the main one first; the counts are over the others.
#[derive(Drop)]
pub(crate) struct ComponentStates {
    states: Vec<ComponentState>,
    running: u32,
    done: u32,
    killed: u32,
    lapsed: u32,
    worst: Verdict,
}

impl Model for ComponentStates {
    ghost use Rattle.std.specs.Prelude.{List};
    ghost use Rattle.tc_rules.specs.{declared.component_state.ComponentState.ComponentState, Inside.Counts.IsCounted};

    ghost Value = { List ComponentState };

    ghost view = { λ s. s.states.items };

    ghost invariant = { λ s. IsCounted s.states.items s.running s.done s.killed s.lapsed s.worst };
}

/// Whether a component was started, and is neither running nor excused.
fn is_lapsed(state: ComponentState) -> bool
    ensures { result ≡ lapsed_state state }
{
    state.last.is_some() && !is_running(state.phase) && !state.excused
}

/// A count, after one of the things that it is over has changed.
fn recount(count: u32, was: bool, is: bool) -> u32
    requires had { bit was ≤ count }
    requires few { count ≤ COMPONENTS }
    ensures { result + bit was ≡ count + bit is }
{
    count - u32::from(was) + u32::from(is)
}

#[tactic(auto, using(crate::proofs::Counting::counted_rules))]
impl ComponentStates {
    /// The same states.
    pub(crate) fn copied(&self, alloc: Global) -> Result<ComponentStates, NoMemory>
        ensures { IfOk result (λ s. s ≡ self.now) }
    {
        Ok(ComponentStates {
            states: Vec::from_slice(alloc, self.states.as_slice())?,
            running: self.running,
            done: self.done,
            killed: self.killed,
            lapsed: self.lapsed,
            worst: self.worst,
        })
    }

    /// Only the main component, running run 0.
    pub(crate) fn new(alloc: Global) -> Result<ComponentStates, AllocError>
        ensures { IfOk result (λ s. s ≡ main_state ∷ []) }
    {
        let main = ComponentState {
            phase: Phase::Running(Run(0)),
            alive_type: false,
            last: Some(Run(0)),
            excused: false,
            local: Verdict::None,
        };
        Ok(ComponentStates {
            states: Vec::from_slice(alloc, &[main])?,
            running: 0,
            done: 0,
            killed: 0,
            lapsed: 0,
            worst: Verdict::None,
        })
    }

    pub(crate) fn as_slice(&self) -> &[ComponentState]
        ensures same { result.now ≡ self.now }
        ensures some { 1 ≤ length self.now }
        ensures few { length self.now ≤ COMPONENTS }
    {
        self.states.as_slice()
    }

    #[inline(always)]
    pub(crate) fn get(&self, i: usize) -> ComponentState
        requires { i < length self.now }
        ensures { result ≡ slice_index_or self.now i result }
    {
        self.states.as_slice()[i]
    }

    /// Adds a component that is not yet started.
    pub(crate) fn add(&mut self, alive_type: bool) -> Result<(), AllocError>
        requires { length self.old < COMPONENTS }
        ensures ok { OnOk result (self.new ≡ self.old ++ made_state alive_type ∷ []) }
        ensures err { OnErr result (self.new ≡ self.old) }
    {
        self.states
            .push(ComponentState {
                phase: Phase::Inactive,
                alive_type,
                last: None,
                excused: false,
                local: Verdict::None,
            })
            .map_err(AllocError::from)
    }

    /// Changes the state of component i, whose local verdict gets no better. Most calls leave it as it was.
    #[inline(always)]
    pub(crate) fn set(&mut self, i: usize, state: ComponentState)
        requires within { i < length self.old }
        requires no_better { level_of (slice_index_or self.old i state).local ≤ level_of state.local }
        ensures { self.new ≡ slice_set self.old i state }
    {
        let old = self.states[i];
        if are_same(old, state) {
            return;
        }
        if i > 0 {
            self.running = recount(self.running, is_running(old.phase), is_running(state.phase));
            self.done = recount(self.done, is_done(old.phase), is_done(state.phase));
            self.killed = recount(self.killed, is_killed(old.phase), is_killed(state.phase));
            self.lapsed = recount(self.lapsed, is_lapsed(old), is_lapsed(state));
        }
        self.worst = worse_of(self.worst, state.local);
        self.states[i] = state;
    }

    pub(crate) fn none_running(&self) -> bool
        ensures { result ≡ tests.none_running (drop 1 self.now) }
    {
        self.running == 0
    }

    pub(crate) fn any_killed(&self) -> bool
        ensures { result ≡ tests.any_killed (drop 1 self.now) }
    {
        0 < self.killed
    }

    pub(crate) fn all_killed(&self) -> bool
        ensures { result ≡ tests.all_killed (drop 1 self.now) }
    {
        self.killed as usize + 1 == self.states.as_slice().len()
    }

    pub(crate) fn any_done(&self) -> bool
        ensures { result ≡ tests.any_done (drop 1 self.now) }
    {
        0 < self.done
    }

    /// Whether each that was ever started is running or excused.
    pub(crate) fn none_lapsed(&self) -> bool
        ensures { result ≡ tests.none_lapsed (drop 1 self.now) }
    {
        self.lapsed == 0
    }

    /// The worst of the local verdicts.
    pub(crate) fn worst(&self) -> Verdict
        ensures { result ≡ tests.worst_local self.now }
    {
        self.worst
    }
}
