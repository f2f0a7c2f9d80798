//! The merge of a history with the logs of its runs.
ghost use Rattle.std.specs.Prelude.{◌≡◌, ◌++◌, ℕ, IfOk, List, OnOk, filter, length};
ghost use Rattle.tc_rules.specs.Prelude.{part, started};
ghost use Rattle.tc_rules.specs.Merge as rules;
ghost use Rattle.tc_book.specs.{Inside.Merging.head_at_start, Inside.Merging.placed, OneCase.AreOfOneCase, Inside.Merging.Has};

use crate::by_run::{at_run, entry_count, logs_by_run, move_on};
use crate::heads::{add_head, add_late, started};
use std::alloc::Global;
use tc_entry::{Entry, Run};
use tc_rules::RunLog;
use tc_verdict::NoMemory;

/// Adds the verdict entries at the head of the log of a run that the entry starts.
fn add_head_at_start(all: &mut Vec<Entry>, logs: &[&[Entry]], entry: &Entry) -> Result<(), NoMemory>
    ensures { (log : _) → Has logs.now log → OnOk result (all.new.items ≡ all.old.items ++ head_at_start log (started entry.now)) }
{
    match started(entry) {
        Some(run) => add_head(all, at_run(logs, run)),
        None => Ok(()),
    }
}

/// Adds the history's entries, each with the verdict entries that follow it.
fn add_history(
    all: &mut Vec<Entry>,
    history: &[Entry],
    logs: &[&[Entry]],
    rests: &mut Vec<&[Entry]>,
) -> Result<(), NoMemory>
    ensures { (log : _) → Has logs.now log → Has rests.old.items log → OnOk result (all.new.items ≡ all.old.items ++ placed log history.now) }
{
    add_head(all, at_run(logs, Run(0)))?;
    for entry in history {
        all.push(entry.copy())?;
        let rest = move_on(rests, entry.caller);
        add_head(all, rest)?;
        add_head_at_start(all, logs, entry)?;
    }
    Ok(())
}

/// Adds the verdict entries of all logs that were replied Ended, in the order of their runs.
fn add_all_late(all: &mut Vec<Entry>, logs: &[&[Entry]]) -> Result<(), NoMemory>
    ensures { (log : _) → Has logs.now log → OnOk result (all.new.items ≡ all.old.items ++ rules.late log (length logs.now)) }
{
    for entries in logs {
        add_late(all, entries)?;
    }
    Ok(())
}

/// The merge, as `merge` makes it, of a history with the logs in a table by the numbers of their runs.
pub fn merge_by_run(
    alloc: Global,
    table_history: &[Entry],
    logs: &[&[Entry]],
) -> Result<Vec<Entry>, NoMemory>
    ensures { IfOk result (λ v. (all : List RunLog) → Has logs.now (rules.log_of all) → v.items ≡ rules.merge table_history.now all) }
{
    let Some(count) = entry_count(logs) else {
        return Err(NoMemory);
    };
    let mut all = Vec::with_capacity(alloc, count)?;
    let mut rests = Vec::with_capacity(alloc, logs.len())?;
    rests.extend_from_slice(logs)?;
    add_history(&mut all, table_history, logs, &mut rests)?;
    add_all_late(&mut all, logs)?;
    Ok(all)
}

/// The history with the verdict entries of the logs put in: at the opening those at the head of run 0's log; after each
/// entry those that follow it in its caller's log. After an entry that starts a run come also those at the head of that
/// run's log. At the end come those replied Ended, in the order of their runs. A run without a log has the empty log.
///
/// It costs a constant for each entry of the history and of the logs and for each run up to the last that has a log, if
/// no run is started twice. Each entry is copied once. Room is made once, for as many entries as the logs have.
pub fn merge(
    alloc: Global,
    table_history: &[Entry],
    logs: &[RunLog],
) -> Result<Vec<Entry>, NoMemory>
    ensures merged { IfOk result (λ v. v.items ≡ rules.merge table_history.now logs.now) }
    ensures kept { IfOk result (λ v. filter rules.is_other v.items ≡ filter rules.is_other table_history.now) }
    ensures parts { IfOk result (λ v. AreOfOneCase table_history.now logs.now → (b : ℕ) → part v.items b ≡ rules.log_of logs.now b) }
{
    let by_run = logs_by_run(alloc, logs)?;
    let all = merge_by_run(alloc, table_history, &by_run)?;
    Ok(all)
}
