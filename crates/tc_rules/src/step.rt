//! What one more entry does to what is kept of components and runs.
ghost use Rattle.std.specs.Prelude.{◌≡◌, ◌≢◌, ℕ, None, false, length, slice_index_or, IsTrue};
ghost use Rattle.tc_rules.specs.History as history;
ghost use Rattle.tc_rules.specs.Local as verdicts;
ghost use Rattle.tc_rules.specs.Inside.Words.{started_run};
ghost use Rattle.tc_rules.specs.Inside.Step as step;

use crate::component_state::{ComponentState, is_killed, is_running};
use crate::component_states::ComponentStates;
use crate::entries::{
    ends_case, halts, halts_from_outside, is_comp, kills, parks, start_in, started_on, started_run,
};
use crate::run_state::RunState;
use tc_entry::{Comp, Entry, Group, Op, Phase, Reply};
use tc_verdict::{Run, Verdict, from_user, worse_of};

fn halted(alive_type: bool, phase: Phase) -> Phase
    ensures { result ≡ step.halted alive_type phase }
{
    match phase {
        Phase::Running(_) if alive_type => Phase::Stopped,
        Phase::Running(_) => Phase::Killed,
        Phase::Inactive | Phase::Stopped | Phase::Killed => phase,
    }
}

fn next_phase(kill: bool, start: Option<Run>, halt: bool, alive_type: bool, phase: Phase) -> Phase
    ensures { result ≡ step.next_phase kill start halt alive_type phase }
{
    if kill {
        return Phase::Killed;
    }
    match start {
        Some(run) => Phase::Running(run),
        None if halt => halted(alive_type, phase),
        None => phase,
    }
}

fn next_excused(start: Option<Run>, outside: bool, phase: Phase, excused: bool) -> bool
    ensures { result ≡ step.next_excused start outside phase excused }
{
    match start {
        Some(_) => false,
        None => { if is_running(phase) { outside } else { excused } }
    }
}

pub(crate) fn next_local(op: &Op, reply: Reply, local: Verdict) -> Verdict
    ensures { result ≡ step.next_local (verdicts.gives op.now reply) local }
{
    match reply {
        Reply::Fault(_) => worse_of(local, Verdict::Error),
        Reply::Ok => match op {
            Op::SetVerdict(v) => worse_of(local, from_user(*v)),
            Op::StopCase => worse_of(local, Verdict::Error),
            _ => local,
        },
        _ => local,
    }
}

/// What is known of a component after one more entry, whose caller is on component own.
#[tactic(auto, unfolding(crate::specs::Inside::Step::next_state))]
#[inline(always)]
fn next_state(own: Option<Comp>, entry: &Entry, comp: u32, state: ComponentState) -> ComponentState
    ensures { result ≡ step.next_state own entry.now comp state }
{
    let start = start_in(entry, comp);
    let local = if is_comp(own, comp) {
        next_local(&entry.op, entry.reply, state.local)
    } else {
        state.local
    };
    ComponentState {
        phase: next_phase(
            kills(entry, comp),
            start,
            halts(own, entry, comp),
            state.alive_type,
            state.phase,
        ),
        alive_type: state.alive_type,
        last: start.or(state.last),
        excused: next_excused(
            start,
            halts_from_outside(own, entry, comp),
            state.phase,
            state.excused,
        ),
        local,
    }
}

/// The components that an entry may change.
#[derive(Clone, Copy, Debug)]
pub(crate) enum Scope {
    Nothing,
    One(Comp),
    All,
}

fn touched_by(own: Option<Comp>, op: &Op) -> Scope
    ensures { result ≡ step.touched_by own op.now }
{
    match op {
        Op::Start { comp, .. } => Scope::One(*comp),
        Op::Stop(Group::One(comp)) | Op::Kill(Group::One(comp)) => Scope::One(*comp),
        Op::Stop(Group::All) | Op::Kill(Group::All) => Scope::All,
        Op::StopCase | Op::SetVerdict(_) | Op::Finish => own.map_or(Scope::Nothing, Scope::One),
        _ => Scope::Nothing,
    }
}

fn touched(own: Option<Comp>, entry: &Entry) -> Scope
    ensures { result ≡ step.touched own entry.now }
{
    if ends_case(entry) {
        Scope::All
    } else if entry.reply.is_ended() {
        Scope::Nothing
    } else {
        touched_by(own, &entry.op)
    }
}

/// Brings what is known of the components up to one more entry, which touches only one of them.
#[inline(always)]
fn take_in_one(states: &mut ComponentStates, own: Option<Comp>, entry: &Entry, comp: Comp)
    requires settled { step.IsSettled states.old }
    requires touched { step.touched own entry.now ≡ Scope.One comp }
    ensures as_many { length states.new ≡ length states.old }
    ensures each { step.AreNext own entry.now states.old states.new }
{
    let i = comp.0 as usize;
    let count = states.as_slice().len();
    if i < count {
        let state = states.get(i);
        states.set(i, next_state(own, entry, comp.0, state));
    }
}

/// Whether a call on all components finds none in a phase that it would change.
fn finds_none(op: &Op, states: &ComponentStates) -> bool
    ensures { result ≡ step.finds_none op.now states.now }
{
    match op {
        Op::Stop(Group::All) => states.none_running(),
        Op::Kill(Group::All) => states.all_killed(),
        _ => false,
    }
}

/// Whether a call on all components finds one that is in this phase so that it would change it.
fn finds(op: &Op, phase: Phase) -> bool
    ensures { result ≡ step.finds op.now phase }
{
    match op {
        Op::Stop(Group::All) => is_running(phase),
        Op::Kill(Group::All) => !is_killed(phase),
        _ => true,
    }
}

/// The same, for an entry that may touch every component: it goes over them only if it may change one. If it does not end
/// the case, it writes only those that it finds.
fn take_in_many(states: &mut ComponentStates, own: Option<Comp>, entry: &Entry)
    requires settled { step.IsSettled states.old }
    ensures as_many { length states.new ≡ length states.old }
    ensures each { step.AreNext own entry.now states.old states.new }
{
    let ends = ends_case(entry);
    if !ends && finds_none(&entry.op, states) {
        return;
    }
    let count = states.as_slice().len();
    for i in 0..count {
        let state = states.get(i);
        if ends || finds(&entry.op, state.phase) {
            states.set(i, next_state(own, entry, i as u32, state));
        }
    }
}

/// Brings what is known of the components up to one more entry.
#[tactic(auto, using(crate::proofs::Elsewhere::none_changed))]
#[inline(always)]
pub(crate) fn take_in(states: &mut ComponentStates, own: Option<Comp>, entry: &Entry)
    requires settled { step.IsSettled states.old }
    ensures as_many { length states.new ≡ length states.old }
    ensures each { step.AreNext own entry.now states.old states.new }
{
    match touched(own, entry) {
        Scope::Nothing => {}
        Scope::One(comp) => take_in_one(states, own, entry, comp),
        Scope::All => take_in_many(states, own, entry),
    }
}

/// Whether the call asks or waits: without an error, it changes no component and starts no run.
#[inline(always)]
pub(crate) fn asks(op: &Op) -> bool
    ensures { result ≡ step.asks op.now }
{
    matches!(
        op,
        Op::Running(_)
            | Op::Alive(_)
            | Op::Done(_)
            | Op::Killed(_)
            | Op::Wait { .. }
            | Op::Wake { .. }
            | Op::GetVerdict
    )
}

/// What is known of a run after one more entry.
#[tactic(auto, unfolding(crate::specs::Inside::Step::next_run))]
#[inline(always)]
fn next_run(entry: &Entry, run: u16, state: RunState) -> RunState
    ensures { result ≡ step.next_run entry.now run state }
{
    RunState {
        comp: state.comp.or_else(|| started_on(entry, run)),
        waiting: if entry.caller.0 == run {
            parks(&entry.op, entry.reply)
        } else {
            state.waiting
        },
    }
}

/// Whether the entry changes nothing that is known of a run, as far as can be seen without the run's number. Then it is
/// not written: under the lock of a case a write costs the other threads more than the test.
#[tactic(auto, using(crate::proofs::Runs::run_kept))]
#[inline(always)]
fn keeps_run(entry: &Entry, state: RunState) -> bool
    ensures { (run : ℕ) → IsTrue result → step.next_run entry.now run state ≡ state }
{
    state.comp.is_some() && state.waiting.is_none() && parks(&entry.op, entry.reply).is_none()
}

/// Brings what is known of one run up to one more entry.
#[inline(always)]
pub(crate) fn take_in_run(runs: &mut Vec<RunState>, entry: &Entry, run: Run)
    ensures as_many { length runs.new.items ≡ length runs.old.items }
    ensures at { step.IsNextRun entry.now run.0 runs.old.items runs.new.items }
    ensures others { (b : ℕ) (d : RunState) → b ≢ run.0 → slice_index_or runs.new.items b d ≡ slice_index_or runs.old.items b d }
{
    let count = runs.as_slice().len();
    if (run.0 as usize) < count {
        let state = runs[run.0 as usize];
        if !keeps_run(entry, state) {
            runs[run.0 as usize] = next_run(entry, run.0, state);
        }
    }
}

/// Brings what is known of the runs up to one more entry: it changes its caller and the run that it starts.
#[inline(always)]
pub(crate) fn take_in_runs(runs: &mut Vec<RunState>, entry: &Entry)
    ensures as_many { length runs.new.items ≡ length runs.old.items }
    ensures each { (b : ℕ) → step.IsNextRun entry.now b runs.old.items runs.new.items }
{
    take_in_run(runs, entry, entry.caller);
    if let Some(run) = started_run(&entry.op) {
        if run.0 != entry.caller.0 {
            take_in_run(runs, entry, run);
        }
    }
}
