//! What reports say of a test case.
ghost use Rattle.std.specs.{Prelude.{ℕ, ◌≡◌, ◌++◌, ◌∷◌, [], IfOk, OnOk, List, if◌then◌else◌, map, reverse, take}, Option.option_map_or};
ghost use Rattle.tc_rules.specs.{Prelude.{Entry as AnyEntry, StandsFor, is_over, overall}, declared.refusal.CaseError.CaseError as AnyError};
ghost use Rattle.tc_report.specs.{InWords.namings_of as spec_namings, Report.aborted_case, Summary.bare_summary as spec_bare, Summary.case_summary, Summary.results_summaries, Summary.summary_of, Summary.summary_with as spec_with, Waits.says_stuck as stuck, Waits.waits_text, declared.cause.Cause.Cause as AnyCause, declared.results.CaseEnd.TheVariants.NotRun};

use crate::blocks::first_names;
use crate::cause::{Cause, cause_of};
use crate::naming::{Names, Naming, names_in, namings_of, no_names};
use crate::results::{CampaignEnd, CaseEnd, Finished, Results};
use crate::said::Said;
use crate::waits::{append_waits, says_stuck};
use std::alloc::Global;
use tc_entry::{Entry, Name, NoMemory, Sequence, Verdict};
use tc_rules::{CaseState, locals_of};

/// What reports say of a test case.
#[derive(Drop)]
pub struct Summary {
    /// The name of the test case.
    pub name: Name,
    /// The local verdicts, that of the main component first.
    pub locals: Sequence<Verdict>,
    /// The names of its components and behaviours.
    pub names: Names,
    /// How it ended.
    pub ending: CaseEnd,
    /// What decided its verdict, if it is over and its verdict is worse than pass.
    pub cause: Option<Cause>,
    /// The lines of who waits for whom, if its verdict was decided since no run can continue.
    pub waits: Sequence<u8>,
}

/// The summary of the test case of this name that ended so, without a local verdict.
pub fn bare_summary(alloc: Global, ending: CaseEnd, name: &Name) -> Summary
    ensures { result ≡ spec_bare ending name.now }
{
    Summary {
        name: name.copy(),
        locals: Sequence::new(Vec::new(alloc)),
        names: no_names(alloc),
        ending,
        cause: None,
        waits: Sequence::new(Vec::new(alloc)),
    }
}

// How a test case ended whose history left this state.
fn end_of_state(state: &CaseState) -> CaseEnd
    ensures { (past : List AnyEntry) → StandsFor state.now past → result ≡ (if is_over past then CaseEnd.Over (overall past) else CaseEnd.Unfinished) }
{
    if state.is_over() {
        CaseEnd::Over(state.overall())
    } else {
        CaseEnd::Unfinished
    }
}

fn copied(alloc: Global, namings: &[Naming]) -> Result<Vec<Naming>, NoMemory>
    ensures { IfOk result (λ v. v.items ≡ namings.now) }
{
    let copies = namings.iter().map(|naming| Naming {
        run: naming.run,
        name: naming.name.copy(),
    });
    Ok(copies.collect(alloc)?)
}

fn waits_in(
    alloc: Global,
    cause: &Option<Cause>,
    names: &Names,
    behaviours: u16,
    history: &[Entry],
) -> Result<Vec<u8>, NoMemory>
    ensures { IfOk result (λ v. v.items ≡ option_map_or (λ (c : AnyCause).
        if stuck c.entry.reply then waits_text names.now behaviours history.now else []) cause.now []) }
{
    let mut waits = Vec::new(alloc);
    if let Some(cause) = cause
        && says_stuck(cause.entry.reply)
    {
        append_waits(alloc, &mut waits, names, behaviours, history)?;
    }
    Ok(waits)
}

// The summary of the test case of this name, with these local verdicts, this end, and this history of that many
// behaviours, next to which this is said.
fn summary_with(
    name: &Name,
    locals: Vec<Verdict>,
    ending: CaseEnd,
    behaviours: u16,
    history: &[Entry],
    said: &Said,
) -> Result<Summary, NoMemory>
    ensures { IfOk result (λ s. s ≡ spec_with name.now locals.items ending behaviours history.now said.now) }
{
    let alloc = *locals.allocator();
    let cause = cause_of(alloc, ending, said.remarks.as_slice(), history)?;
    let runs = copied(alloc, said.names.as_slice())?;
    let names = names_in(alloc, history, runs)?;
    let waits = waits_in(alloc, &cause, &names, behaviours, history)?;
    Ok(Summary {
        name: name.copy(),
        locals: Sequence::new(locals),
        names,
        ending,
        cause,
        waits: Sequence::new(waits),
    })
}

/// The summary of the test case of this name with this history, which left this state, and with what is said next to it.
pub fn summary_of_state(
    alloc: Global,
    name: &Name,
    state: &CaseState,
    history: &[Entry],
    said: &Said,
) -> Result<Summary, NoMemory>
    ensures { StandsFor state.now (reverse history.now)
        → IfOk result (λ s. s ≡ summary_of name.now state.now.behaviours history.now said.now) }
{
    let locals = locals_of(alloc, state)?;
    let ending = end_of_state(state);
    summary_with(name, locals, ending, state.behaviours(), history, said)
}

// What evidence of a finished test case says next to its entries.
fn said_of(alloc: Global, case: &Finished) -> Result<Said, NoMemory>
    ensures { IfOk result (λ said. said ≡ record {
      names = spec_namings (take case.now.report.behaviours case.now.names);
      remarks = [];
    }) }
{
    let given = first_names(case.names.as_slice(), case.report.behaviours);
    let names = namings_of(alloc, given)?;
    Ok(Said {
        names: Sequence::new(names),
        remarks: Sequence::new(Vec::new(alloc)),
    })
}

/// The summary of a finished test case.
pub fn summary_of_case(alloc: Global, case: &Finished) -> Result<Summary, NoMemory>
    ensures { IfOk result (λ s. s ≡ case_summary case.now) }
{
    let report = &case.report;
    let mut locals = Vec::new(alloc);
    locals.extend_from_slice(report.locals.as_slice())?;
    let ending = CaseEnd::Over(report.verdict);
    let said = said_of(alloc, case)?;
    let (name, history) = (&case.name, report.history.as_slice());
    summary_with(name, locals, ending, report.behaviours, history, &said)
}

fn add_aborted(summaries: &mut Vec<Summary>, ending: &CampaignEnd) -> Result<(), NoMemory>
    ensures { OnOk result (summaries.new.items ≡ summaries.old.items
        ++ option_map_or (λ (c : List ℕ × AnyError). spec_bare (CaseEnd.Aborted c.1) c.0 ∷ []) (aborted_case ending.now) []) }
{
    if let CampaignEnd::Aborted { name, why } = ending {
        let summary = bare_summary(*summaries.allocator(), CaseEnd::Aborted(*why), name);
        summaries.push(summary)?;
    }
    Ok(())
}

/// The summaries of finished test cases.
pub(crate) fn summaries_of_cases(
    alloc: Global,
    cases: &[Finished],
) -> Result<Vec<Summary>, NoMemory>
    ensures { IfOk result (λ v. v.items ≡ map case_summary cases.now) }
{
    let mut summaries = Vec::new(alloc);
    for case in cases {
        summaries.push(summary_of_case(alloc, case)?)?;
    }
    Ok(summaries)
}

/// The summaries of the results of a campaign of test cases with these names: of each finished test case, of the one that
/// has no report, and of those after them, which were not run. Without the names they are left out.
#[tactic(auto, using(std::proofs::lemmas::List::drop_min))]
pub fn summaries_of_results(
    alloc: Global,
    names: &[Name],
    results: &Results,
) -> Result<Vec<Summary>, NoMemory>
    ensures { IfOk result (λ v. v.items ≡ results_summaries names.now results.now) }
{
    let mut summaries = summaries_of_cases(alloc, results.finished.as_slice())?;
    add_aborted(&mut summaries, &results.ending)?;
    let begun = summaries.len().min(names.len());
    for name in &names[begun..] {
        summaries.push(bare_summary(alloc, CaseEnd::NotRun, name))?;
    }
    Ok(summaries)
}
