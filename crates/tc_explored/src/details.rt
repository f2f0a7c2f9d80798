//! What the details say of a test case that was explored.
ghost use Rattle.std.specs.{Prelude.{◌≡◌, ◌≤◌, ◌++◌, [], ◌∷◌, All, IfOk, OnOk, codes, flat_map, length, reverse}, List.range_with_len, Option.option_map_or};
ghost use Rattle.tc_entry.specs.declared.limits.TheConstants.{BEHAVIOURS};
ghost use Rattle.tc_course.specs.Prelude.{AreLegal};
ghost use Rattle.tc_report.specs.{Prelude.{cause_of as spec_cause, decided_text}, declared.results.CaseEnd.{CaseEnd as SpecEnd}};
ghost use Rattle.tc_rules.specs.Prelude.{components, IsLegal, StandsFor, name_of as verdict_name};
ghost use Rattle.tc_text.specs.Prelude.{shown_line};
ghost use Rattle.tc_explored.specs.Details as spec;

use crate::race::append_races;
use crate::unseen::append_unseen;
use std::alloc::Global;
use tc_course::{Ending, Explored, Witness};
use tc_entry::{Comp, Entry, Name};
use tc_report::{
    CaseEnd, Names, append_component_in, append_decision, append_waits, cause_of, names_in,
    namings_of,
};
use tc_rules::{CaseState, CheckFault, replay};
use tc_step::Script;
use tc_text::{append_shown, append_text};
use tc_verdict::{NoMemory, name as name_of};

// The state of a case after these entries.
fn state_after(alloc: Global, behaviours: u16, entries: &[Entry]) -> Result<CaseState, NoMemory>
    requires some { 1 ≤ behaviours }
    requires few { behaviours ≤ BEHAVIOURS }
    requires legal { IsLegal behaviours (reverse entries.now) }
    ensures { IfOk result (λ s. StandsFor s (reverse entries.now)) }
{
    match replay(alloc, behaviours, entries) {
        Ok(state) => Ok(state),
        Err(CheckFault::NoMemory) => Err(NoMemory),
        Err(CheckFault::Differs { .. }) => unreachable!(),
    }
}

// Appends a component and its local verdict, in the state at the end of the history; if memory runs out, a part of it.
fn append_local(
    out: &mut Vec<u8>,
    names: &Names,
    history: &[Entry],
    state: &CaseState,
    comp: u32,
) -> Result<(), NoMemory>
    requires { StandsFor state.now (reverse history.now) }
    ensures { OnOk result (out.new.items ≡ out.old.items ++ spec.local_words names.now history.now comp) }
{
    append_text(out, if comp == 0 { ": " } else { ", " })?;
    append_component_in(out, names, Comp(comp))?;
    let Some(verdict) = state.local(Comp(comp)) else {
        return Ok(());
    };
    append_text(out, " ")?;
    append_text(out, name_of(verdict))
}

// Appends the components with their local verdicts, in the state at the end of the history; if memory runs out, a part
// of them.
#[tactic(auto, using(tc_course::proofs::Lemmas::next_of))]
fn append_locals(
    out: &mut Vec<u8>,
    names: &Names,
    history: &[Entry],
    state: &CaseState,
) -> Result<(), NoMemory>
    requires { StandsFor state.now (reverse history.now) }
    ensures { OnOk result (out.new.items ≡ out.old.items
        ++ flat_map (spec.local_words names.now history.now) (range_with_len 0 (components (reverse history.now)))) }
{
    for comp in 0..state.components() {
        append_local(out, names, history, state, comp)?;
    }
    Ok(())
}

// Appends the line of a witness with these names: its verdict, and the local verdict of each component at its end. If
// memory runs out, a part of it.
#[tactic(auto, unfolding(crate::specs::Details::locals))]
fn append_locals_line(
    out: &mut Vec<u8>,
    names: &Names,
    behaviours: u16,
    witness: &Witness,
) -> Result<(), NoMemory>
    requires some { 1 ≤ behaviours }
    requires few { behaviours ≤ BEHAVIOURS }
    requires legal { IsLegal behaviours (reverse witness.now.history) }
    ensures { OnOk result (out.new.items ≡ out.old.items ++ spec.locals names.now witness.now) }
{
    let alloc = *out.allocator();
    let history = witness.history.as_slice();
    let state = state_after(alloc, behaviours, history)?;
    let mut text = format!(in alloc; " {}", name_of(witness.verdict))?.into_bytes();
    append_locals(&mut text, names, history, &state)?;
    append_shown(alloc, out, text.as_slice())
}

// Appends the verdict of a witness, and what decided it, if it is worse than pass.
fn append_decided(out: &mut Vec<u8>, names: &Names, witness: &Witness) -> Result<(), NoMemory>
    ensures { OnOk result (out.new.items ≡ out.old.items ++ option_map_or (λ c. shown_line ((32 ∷ (verdict_name witness.now.verdict ++ codes ": ")) ++ decided_text names.now c))
        (spec_cause (SpecEnd.Over witness.now.verdict) [] witness.now.history) []) }
{
    let alloc = *out.allocator();
    let ending = CaseEnd::Over(witness.verdict);
    let Some(cause) = cause_of(alloc, ending, &[], witness.history.as_slice())? else {
        return Ok(());
    };
    let mut text = format!(in alloc; " {}: ", name_of(witness.verdict))?.into_bytes();
    append_decision(&mut text, names, &cause)?;
    append_shown(alloc, out, text.as_slice())
}

#[tactic(auto, unfolding(crate::specs::Details::witness_text))]
fn append_witness(
    out: &mut Vec<u8>,
    names: &[Name],
    behaviours: u16,
    witness: &Witness,
) -> Result<(), NoMemory>
    requires some { 1 ≤ behaviours }
    requires few { behaviours ≤ BEHAVIOURS }
    requires legal { IsLegal behaviours (reverse witness.now.history) }
    ensures { OnOk result (out.new.items ≡ out.old.items ++ spec.witness_text names.now behaviours witness.now) }
{
    let alloc = *out.allocator();
    let history = witness.history.as_slice();
    let names = names_in(alloc, history, namings_of(alloc, names)?)?;
    append_locals_line(out, &names, behaviours, witness)?;
    append_decided(out, &names, witness)?;
    append_waits(alloc, out, &names, behaviours, history)
}

fn append_each(
    out: &mut Vec<u8>,
    names: &[Name],
    behaviours: u16,
    found: &[Witness],
) -> Result<(), NoMemory>
    requires some { 1 ≤ behaviours }
    requires few { behaviours ≤ BEHAVIOURS }
    requires legal { All (λ w. IsLegal behaviours (reverse w.history)) found.now }
    ensures { OnOk result (out.new.items ≡ out.old.items ++ flat_map (spec.witness_text names.now behaviours) found.now) }
{
    for witness in found {
        append_witness(out, names, behaviours, witness)?;
    }
    Ok(())
}

/// Appends what the search for the verdicts of these scripts shows, of behaviours with these names. For each witness that
/// is the local verdict of each component, the call that decided a verdict worse than pass, and which run waits for whom if
/// no run can continue. Then it is where the first witness and each other one part. If the search came to its end, it is
/// also which steps no course that it looked at carries out. A test case without behaviours has no line. If memory runs
/// out, a part of it.
#[tactic(auto, unfolding(crate::specs::Details::details))]
pub fn append_details(
    alloc: Global,
    out: &mut Vec<u8>,
    names: &[Name],
    scripts: &[Script],
    explored: &Explored,
) -> Result<(), NoMemory>
    requires few { length scripts.now ≤ BEHAVIOURS }
    requires legal { AreLegal scripts.now explored.now.found }
    ensures { OnOk result (out.new.items ≡ out.old.items ++ spec.details names.now scripts.now explored.now) }
{
    if scripts.is_empty() {
        return Ok(());
    }
    let behaviours = scripts.len() as u16;
    let found = explored.found.as_slice();
    append_each(out, names, behaviours, found)?;
    append_races(out, names, behaviours, found)?;
    match explored.ending {
        Ending::Complete => append_unseen(out, scripts, explored.reached.as_slice()),
        Ending::Undecided(_) => Ok(()),
    }
}
