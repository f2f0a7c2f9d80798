//! The close of a case, on the value under the lock.
ghost use Rattle.std.specs.Prelude.{◌≡◌, ◌≤◌, [], IfOk, IfErr, Err, All, reverse};
ghost use Rattle.tc_entry.specs.declared.limits.TheConstants.{BEHAVIOURS};
ghost use Rattle.tc_rules.specs.Prelude.{StandsFor, IsLegal, IsOneHistory, merge};
ghost use Rattle.tc_book.specs.{Closing.Agrees, Closing.IsMerged, Closing.IsOneEach, Closing.IsWhole, Closing.merged, Inside.CameBack, Inside.IsJoined, Inside.IsTornRightly, Inside.IsSound, Words.record_at};

use crate::book::Book;
use crate::close::{all_agreed, are_placed};
use crate::left::Left;
use crate::merging::merge_by_run;
use crate::parts::{logs_by_run, rests_of};
use crate::report::report;
use crate::walk::walk;
use std::alloc::Global;
use std::snapshot::Snapshot;
use tc_entry::{Args, Comp, Entry, Sequence};
use tc_rules::{CaseState, CloseFault, Closed};
use tc_verdict::NoMemory;

/// The merge of a history with the logs that came back, played on a new table, if it is whole.
fn one_history(
    alloc: Global,
    state: &mut CaseState,
    table_history: &[Entry],
    starts: &[Option<(Comp, Args)>],
    parts: &[Sequence<Entry>],
    lefts: &Snapshot<Vec<Left>>,
) -> Result<Vec<Entry>, CloseFault>
    requires opening { StandsFor state.old [] }
    requires back { CameBack state.old.behaviours starts.now parts.now table_history.now lefts.now.value.items }
    ensures behaviours { state.new.behaviours ≡ state.old.behaviours }
    ensures stands { IfOk result (λ v. StandsFor state.new (reverse v.items)) }
    ensures merged { IfOk result (λ v. v.items ≡ merged table_history.now lefts.now.value.items) }
    ensures sound { IfOk result (λ v. IsSound state.old.behaviours parts.now v.items) }
    ensures joined { IfOk result (λ v. IsJoined state.old.behaviours starts.now parts.now v.items lefts.now.value.items) }
    ensures torn { IfErr result (IsTornRightly state.old.behaviours table_history.now lefts.now.value.items) }
{
    // Only the clauses speak of them.
    let _ = starts;
    let _ = lefts;
    let Ok(mut rests) = rests_of(alloc, parts) else {
        return Err(CloseFault::NoMemory);
    };
    let Ok(merged) = merge_by_run(alloc, table_history, &rests) else {
        return Err(CloseFault::NoMemory);
    };
    let Ok(is_walked) = walk(state, &mut rests, &merged) else {
        return Err(CloseFault::NoMemory);
    };
    if !is_walked {
        return Err(CloseFault::Torn);
    }
    if !state.is_over() {
        return Err(CloseFault::Torn);
    }
    Ok(merged)
}

/// The report of a case by its one history.
fn report_of(
    alloc: Global,
    state: &CaseState,
    history: Vec<Entry>,
    starts: &[Option<(Comp, Args)>],
    parts: Vec<Sequence<Entry>>,
    lefts: Snapshot<Vec<Left>>,
) -> Result<Closed, CloseFault>
    requires few { state.now.behaviours ≤ BEHAVIOURS }
    requires stands { StandsFor state.now (reverse history.items) }
    requires sound { IsSound state.now.behaviours parts.items history.items }
    requires joined { IsJoined state.now.behaviours starts.now parts.items history.items lefts.value.items }
    ensures legal { IfOk result (λ _. IsLegal state.now.behaviours (reverse history.items)) }
    ensures whole { IfOk result (λ _. IsWhole state.now.behaviours history.items lefts.value.items) }
    ensures memory { IfErr result (λ f. f ≡ CloseFault.NoMemory) }
    ensures behaviours { IfOk result (λ c. c.behaviours ≡ state.now.behaviours) }
    ensures history { IfOk result (λ c. c.history ≡ history.items) }
    ensures report { IfOk result (λ c. IsOneHistory c) }
{
    // Only the clauses speak of them.
    let _ = lefts;
    match report(alloc, state, history, starts, parts) {
        Ok(closed) => Ok(closed),
        Err(NoMemory) => Err(CloseFault::NoMemory),
    }
}

/// The report of a case by the history under its lock and by the logs that came back.
fn report_of_parts(
    alloc: Global,
    state: CaseState,
    table_history: &[Entry],
    starts: &[Option<(Comp, Args)>],
    parts: Vec<Sequence<Entry>>,
    lefts: Snapshot<Vec<Left>>,
) -> Result<Closed, CloseFault>
    requires few { state.behaviours ≤ BEHAVIOURS }
    requires opening { StandsFor state [] }
    requires back { CameBack state.behaviours starts.now parts.items table_history.now lefts.value.items }
    ensures legal { IfOk result (λ _. IsLegal state.behaviours (reverse (merged table_history.now lefts.value.items))) }
    ensures whole { IfOk result (λ _. IsWhole state.behaviours (merged table_history.now lefts.value.items) lefts.value.items) }
    ensures torn { IfErr result (IsTornRightly state.behaviours table_history.now lefts.value.items) }
    ensures behaviours { IfOk result (λ c. c.behaviours ≡ state.behaviours) }
    ensures history { IfOk result (λ c. c.history ≡ merged table_history.now lefts.value.items) }
    ensures report { IfOk result (λ c. IsOneHistory c) }
{
    let mut state = state;
    let history = one_history(alloc, &mut state, table_history, starts, &parts, &lefts)?;
    let closed = report_of(alloc, &state, history, starts, parts, lefts)?;
    Ok(closed)
}

impl Book {
    /// The report of the case, if the merge of its history with the logs that came back is legal, what came back is
    /// whole by it, and each run's word agrees with its log. Whether there is one log of each run, and each agrees with
    /// its word, is judged before memory is asked for.
    pub fn close(&self, alloc: Global, lefts: Vec<Left>) -> Result<Closed, CloseFault>
        ensures whole { IfOk result (λ _. IsMerged self.now lefts.items) }
        ensures torn { IfErr result (λ f. f ≡ CloseFault.Torn → IsMerged self.now lefts.items → ⊥) }
        ensures runs { result ≡ Err CloseFault.NoMemory → IsOneEach self.now.behaviours lefts.items }
        ensures words { result ≡ Err CloseFault.NoMemory
            → All (λ l. Agrees (record_at self.now.words l.run.0) l.log) lefts.items }
        ensures behaviours { IfOk result (λ c. c.behaviours ≡ self.now.behaviours) }
        ensures history { IfOk result (λ c. c.history ≡ merged self.now.history lefts.items) }
        ensures report { IfOk result (λ c. IsOneHistory c) }
    {
        let behaviours = self.starts.len() as u16;
        if !are_placed(behaviours, &self.starts, &lefts) || !all_agreed(&self.words, &lefts) {
            return Err(CloseFault::Torn);
        }
        let came_back = Snapshot::of(&lefts);
        let Ok(parts) = logs_by_run(alloc, lefts, behaviours) else {
            return Err(CloseFault::NoMemory);
        };
        match CaseState::new(alloc, behaviours) {
            Ok(state) => report_of_parts(
                alloc,
                state,
                self.table.history(),
                &self.starts,
                parts,
                came_back,
            ),
            Err(NoMemory) => Err(CloseFault::NoMemory),
        }
    }
}
