//! The keys of states: all that what can still come depends on, as numbers.
ghost use Rattle.std.specs.Prelude.{◌≡◌, ◌++◌, ◌∷◌, [], IfOk, OnOk, map};
ghost use Rattle.std.specs.List.{flat_map, range_with_len};
ghost use Rattle.tc_rules.specs.Prelude.{past_of};
ghost use Rattle.tc_rules.specs.Faults as faults;
ghost use Rattle.tc_explore.specs.Inside.Twins.{comp_key, key_of, number_of, phase_code, run_key, run_key_of, target_key, wake_key};

use std::alloc::Global;
use tc_course::{Course, Standing, level};
use tc_entry::{Comp, Op, Phase, Target};
use tc_verdict::{NoMemory, Run, Verdict};

// What a component is doing, as a number.
fn phase_number(phase: Option<Phase>) -> u64
    ensures { result ≡ phase_code phase }
{
    match phase {
        None => 0,
        Some(Phase::Inactive) => 1,
        Some(Phase::Stopped) => 2,
        Some(Phase::Killed) => 3,
        Some(Phase::Running(run)) => u64::from(run.0) + 4,
    }
}

// Adds two numbers.
fn add_pair(key: &mut Vec<u64>, first: u64, second: u64) -> Result<(), NoMemory>
    ensures { OnOk result (key.new.items ≡ key.old.items ++ first ∷ second ∷ []) }
{
    key.push(first)?;
    key.push(second)?;
    Ok(())
}

// Adds what is waited for.
fn add_target(key: &mut Vec<u64>, killed: bool, target: Target) -> Result<(), NoMemory>
    ensures { OnOk result (key.new.items ≡ key.old.items ++ target_key killed target) }
{
    match target {
        Target::One(comp) => add_pair(key, if killed { 2 } else { 1 }, u64::from(comp.0)),
        Target::Any => add_pair(key, if killed { 4 } else { 3 }, 0),
        Target::All => add_pair(key, if killed { 6 } else { 5 }, 0),
    }
}

// Adds the numbers of components.
fn add_numbers(key: &mut Vec<u64>, comps: &[Comp]) -> Result<(), NoMemory>
    ensures { OnOk result (key.new.items ≡ key.old.items ++ map number_of comps.now) }
{
    for comp in comps {
        key.push(u64::from(comp.0))?;
    }
    Ok(())
}

// Adds what a run waits for.
fn add_wake(key: &mut Vec<u64>, known: &Standing) -> Result<(), NoMemory>
    ensures { OnOk result (key.new.items ≡ key.old.items ++ wake_key known.now.wake) }
{
    match known.wake() {
        Some(Op::Wake { killed, target }) => add_target(key, *killed, *target),
        _ => add_pair(key, 0, 0),
    }
}

// Adds what a run can still call depends on, as numbers, and maybe what it waits for; of one that is halted its component.
fn add_run(key: &mut Vec<u64>, known: &Standing, goes_on: bool, waits: bool) -> Result<(), NoMemory>
    ensures { OnOk result (key.new.items ≡ key.old.items ++ run_key waits goes_on known.now) }
{
    key.push(known.comp().map_or(0, |comp| u64::from(comp.0) + 1))?;
    if !goes_on {
        key.push(0)?;
        return Ok(());
    }
    key.push(1)?;
    key.push(known.called() as u64)?;
    key.push(known.bound().len() as u64)?;
    add_numbers(key, known.bound())?;
    if !waits {
        return Ok(());
    }
    add_wake(key, known)
}

// Adds what a component does, its kind, and maybe its local verdict.
fn add_component(
    course: &Course,
    key: &mut Vec<u64>,
    comp: u32,
    local: bool,
) -> Result<(), NoMemory>
    ensures { OnOk result (key.new.items ≡ key.old.items ++ comp_key local (past_of course.now) comp) }
{
    key.push(phase_number(course.phase_of(Comp(comp))))?;
    key.push(u64::from(course.is_alive_type(comp)))?;
    if !local {
        return Ok(());
    }
    key.push(course.local(comp).map_or(0, |verdict| level(verdict) + 1))?;
    Ok(())
}

// Adds each component.
fn add_components(course: &Course, key: &mut Vec<u64>, locals: bool) -> Result<(), NoMemory>
    ensures { OnOk result (key.new.items ≡ key.old.items
        ++ flat_map (comp_key locals (past_of course.now)) (range_with_len 0 (faults.components (past_of course.now)))) }
{
    for comp in 0..course.components() {
        add_component(course, key, comp, locals)?;
    }
    Ok(())
}

// Adds each of n runs.
fn add_runs(course: &Course, key: &mut Vec<u64>, n: u16, waits: bool) -> Result<(), NoMemory>
    requires { n ≡ course.now.behaviours }
    ensures { OnOk result (key.new.items ≡ key.old.items ++ flat_map (run_key_of waits (past_of course.now)) (range_with_len 0 n)) }
{
    for run in 0..n {
        let goes_on = course.is_active(Run(run));
        add_run(key, course.known(Run(run)), goes_on, waits)?;
    }
    Ok(())
}

/// All that what can still come in a case of n behaviours depends on, as numbers; local verdicts and waits count, or not.
#[tactic(auto, unfolding(crate::specs::Inside::Twins::key_of))]
pub(crate) fn state_key(
    course: &Course,
    alloc: Global,
    n: u16,
    all: bool,
) -> Result<Vec<u64>, NoMemory>
    requires { n ≡ course.now.behaviours }
    ensures { IfOk result (λ key. key.items ≡ key_of all n (past_of course.now)) }
{
    let mut key = Vec::new(alloc);
    key.push(level(course.verdict()))?;
    key.push(u64::from(course.components()))?;
    add_components(course, &mut key, all)?;
    add_runs(course, &mut key, n, all)?;
    Ok(key)
}
