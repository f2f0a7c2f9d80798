//! The report of a case whose runs came back whole.
ghost use Rattle.std.specs.Prelude.{◌≡◌, ◌≤◌, ◌++◌, true, IfOk, OnOk, filter, length, reverse};
ghost use Rattle.tc_entry.specs.declared.limits.TheConstants.{BEHAVIOURS};
ghost use Rattle.tc_rules.specs.Prelude.{is_over, StandsFor, is_other, merge, logs_below, IsOneHistory};
ghost use Rattle.tc_book.specs.{OneCase.all_started, Inside.KnowsParts, Inside.KnowsStarts, Inside.log_on, Inside.logs_from};

use crate::starts::comp_of;
use std::alloc::Global;
use tc_entry::{Args, Comp, Entry, Sequence};
use tc_rules::{CaseState, Closed, RunLog, locals_of};
use tc_verdict::{NoMemory, Run};

/// Adds the log of a run, if it was started.
fn add_log(
    logs: &mut Vec<RunLog>,
    run: Run,
    comp: Option<Comp>,
    entries: Sequence<Entry>,
) -> Result<(), NoMemory>
    ensures { OnOk result (logs.new.items ≡ logs.old.items ++ log_on comp run.0 entries) }
{
    if let Some(comp) = comp {
        logs.push(RunLog { run, comp, entries })?;
    }
    Ok(())
}

/// The logs of the runs that were started, by the entries of each run.
#[tactic(auto, using(crate::proofs::Reporting::logs_from_more))]
fn logs_of(
    alloc: Global,
    starts: &[Option<(Comp, Args)>],
    parts: Vec<Sequence<Entry>>,
) -> Result<Vec<RunLog>, NoMemory>
    requires few { length parts.items ≤ BEHAVIOURS }
    ensures { IfOk result (λ v. v.items ≡ logs_from starts.now parts.items (length parts.items)) }
{
    let mut logs = Vec::new(alloc);
    let mut run = Run(0);
    for entries in parts {
        add_log(&mut logs, run, comp_of(starts, run), entries)?;
        run.0 += 1;
    }
    Ok(logs)
}

/// The report of a case that is over, by its history, what is kept after it, and the log of each run.
#[tactic(auto, using(crate::proofs::Reporting::one_history, crate::proofs::Reporting::logs_known))]
pub(crate) fn report(
    alloc: Global,
    state: &CaseState,
    history: Vec<Entry>,
    starts: &[Option<(Comp, Args)>],
    parts: Vec<Sequence<Entry>>,
) -> Result<Closed, NoMemory>
    requires behaviours { length parts.items ≡ state.now.behaviours }
    requires few { length parts.items ≤ BEHAVIOURS }
    requires stands { StandsFor state.now (reverse history.items) }
    requires starts { KnowsStarts starts.now (reverse history.items) }
    requires parts { KnowsParts parts.items history.items }
    requires started { all_started (reverse history.items) ≡ true }
    requires over { is_over (reverse history.items) ≡ true }
    requires merged { history.items ≡ merge (filter is_other history.items) (logs_below history.items (length parts.items)) }
    ensures behaviours { IfOk result (λ c. c.behaviours ≡ state.now.behaviours) }
    ensures history { IfOk result (λ c. c.history ≡ history.items) }
    ensures report { IfOk result (λ c. IsOneHistory c) }
{
    let behaviours = parts.len() as u16;
    let logs = logs_of(alloc, starts, parts)?;
    let locals = locals_of(alloc, state)?;
    Ok(Closed {
        behaviours,
        history: Sequence::new(history),
        logs: Sequence::new(logs),
        locals: Sequence::new(locals),
        verdict: state.overall(),
    })
}
