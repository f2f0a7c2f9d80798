//! Which runs wait as no run can continue, and for whom.
ghost use Rattle.std.specs.{Prelude.{◌≡◌, ◌≤◌, ◌++◌, [], IfOk, List, OnOk, codes, drop, if◌then◌else◌, reverse}, Option.option_map_or};
ghost use Rattle.tc_entry.specs.declared.limits.TheConstants.{BEHAVIOURS as MOST_BEHAVIOURS};
ghost use Rattle.tc_rules.specs.Prelude.{Entry as AnyEntry, StandsFor, comp_of, is_active, waiting};
ghost use Rattle.tc_report.specs.{InWords.target_in, Inside.IsBeforeStuck, Inside.is_cut};
ghost use Rattle.tc_report.specs.Waits as spec;

use crate::naming::{
    Names, append_around_run, append_component_in, append_run_in, append_target_in,
};
use std::alloc::Global;
use tc_entry::{BEHAVIOURS, Comp, Entry, Fault, NoMemory, Phase, Reply, Run, Target};
use tc_rules::{Awaited, CaseState};
use tc_text::append_text;

/// Whether the reply says that no run can continue.
pub(crate) fn says_stuck(reply: Reply) -> bool
    ensures { result ≡ spec.says_stuck reply }
{
    matches!(reply, Reply::Fault(Fault::Stuck))
}

// The state of a test case of that many behaviours before the first of these calls that it replies to so, if there is
// one.
fn state_before_stuck(
    alloc: Global,
    behaviours: u16,
    history: &[Entry],
) -> Result<Option<CaseState>, NoMemory>
    requires some { 1 ≤ behaviours }
    requires few { behaviours ≤ MOST_BEHAVIOURS }
    ensures { IfOk result (IsBeforeStuck behaviours (reverse history.now)) }
{
    let mut state = CaseState::new(alloc, behaviours)?;
    for entry in history {
        if says_stuck(state.would(entry.caller, &entry.op)) {
            return Ok(Some(state));
        }
        state.play(entry.caller, entry.op.copy())?;
    }
    Ok(None)
}

fn append_phase(out: &mut Vec<u8>, names: &Names, phase: Option<Phase>) -> Result<(), NoMemory>
    ensures { OnOk result (out.new.items ≡ out.old.items ++ option_map_or (spec.phase_words names.now) phase []) }
{
    match phase {
        None => Ok(()),
        Some(Phase::Inactive) => append_text(out, ", not started"),
        Some(Phase::Stopped) => append_text(out, ", stopped"),
        Some(Phase::Killed) => append_text(out, ", killed"),
        Some(Phase::Running(run)) => append_around_run(out, ", where run ", names, run, " is"),
    }
}

fn phase_of(state: &CaseState, target: Target) -> Option<Phase>
    ensures { (past : List AnyEntry) → StandsFor state.now past → result ≡ spec.awaited_phase past target }
{
    match target {
        Target::One(comp) => state.phase_of(comp),
        Target::Any | Target::All => None,
    }
}

fn append_awaited(
    out: &mut Vec<u8>,
    names: &Names,
    awaited: Awaited,
    phase: Option<Phase>,
) -> Result<(), NoMemory>
    ensures { OnOk result (out.new.items ≡ out.old.items
        ++ ((if awaited.killed then codes " waits for killed of " else codes " waits for done of ")
        ++ (target_in names.now awaited.target ++ (option_map_or (spec.phase_words names.now) phase [] ++ codes "\n")))) }
{
    let words = if awaited.killed {
        " waits for killed of "
    } else {
        " waits for done of "
    };
    append_text(out, words)?;
    append_target_in(out, names, awaited.target)?;
    append_phase(out, names, phase)?;
    append_text(out, "\n")
}

// Appends the line of a run, if it is active and waits; if memory runs out, a part of it.
fn append_wait_of(
    out: &mut Vec<u8>,
    names: &Names,
    state: &CaseState,
    run: Run,
) -> Result<(), NoMemory>
    ensures { (past : List AnyEntry) → StandsFor state.now past
        → OnOk result (out.new.items ≡ out.old.items ++ (if is_active past run.0
        then spec.wait_line names.now past run.0 (comp_of past run.0) (waiting past run.0) else [])) }
{
    let Some(comp) = state.active_on(run) else {
        return Ok(());
    };
    let Some(awaited) = state.parked(run) else {
        return Ok(());
    };
    append_text(out, "  stuck: run ")?;
    append_run_in(out, names, run)?;
    append_text(out, " on ")?;
    append_component_in(out, names, comp)?;
    append_awaited(out, names, awaited, phase_of(state, awaited.target))
}

#[tactic(auto, using(crate::proofs::Waiting::next_of))]
fn waits_after(
    alloc: Global,
    names: &Names,
    behaviours: u16,
    state: &CaseState,
) -> Result<Vec<u8>, NoMemory>
    ensures { (past : List AnyEntry) → StandsFor state.now past
        → IfOk result (λ v. v.items ≡ spec.waits_after names.now behaviours past) }
{
    let mut out = Vec::new(alloc);
    for run in 0..behaviours {
        append_wait_of(&mut out, names, state, Run(run))?;
    }
    Ok(out)
}

// The lines of the runs that wait before the first of these calls that a test case of that many behaviours replies to
// so; none if there is no such call.
fn waits_of(
    alloc: Global,
    names: &Names,
    behaviours: u16,
    history: &[Entry],
) -> Result<Vec<u8>, NoMemory>
    requires some { 1 ≤ behaviours }
    requires few { behaviours ≤ MOST_BEHAVIOURS }
    ensures { IfOk result (λ v. v.items ≡ (if is_cut (spec.played behaviours (reverse history.now))
        then spec.waits_after names.now behaviours (drop 1 (spec.played behaviours (reverse history.now))) else [])) }
{
    match state_before_stuck(alloc, behaviours, history)? {
        Some(state) => waits_after(alloc, names, behaviours, &state),
        None => Ok(Vec::new(alloc)),
    }
}

/// Appends who waits for whom as a test case of that many behaviours, 1 to 256, that plays these calls first replies that
/// no run can continue; nothing if it never does. If memory runs out, a part of it.
#[tactic(auto, unfolding(crate::specs::Waits::waits_text))]
pub fn append_waits(
    alloc: Global,
    out: &mut Vec<u8>,
    names: &Names,
    behaviours: u16,
    history: &[Entry],
) -> Result<(), NoMemory>
    ensures { OnOk result (out.new.items ≡ out.old.items ++ spec.waits_text names.now behaviours history.now) }
{
    let count = usize::from(behaviours);
    if 1 <= count && count <= BEHAVIOURS {
        let lines = waits_of(alloc, names, behaviours, history)?;
        out.extend_from_slice(lines.as_slice())?;
    }
    Ok(())
}
