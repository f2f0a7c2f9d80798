//! The logs by the number of their run.
ghost use Rattle.std.specs.Prelude.{◌≡◌, ◌≢◌, ◌≤◌, ◌<◌, ℕ, [], IfOk, IfSome, length, slice_index_or, sum_by};
ghost use Rattle.tc_rules.specs.Merge as rules;
ghost use Rattle.tc_book.specs.{Inside.Merging.IsMovedOn, Inside.Merging.entries_of, Inside.Merging.Has};

use crate::heads::after_other;
use std::alloc::Global;
use tc_entry::{Entry, Run};
use tc_rules::RunLog;
use tc_verdict::NoMemory;

/// How many entries the logs have together, unless they are too many to count.
pub(crate) fn entry_count(logs: &[&[Entry]]) -> Option<usize>
    ensures { IfSome result (λ n. n ≡ sum_by (λ log. length log.now) logs.now) }
{
    let mut count: usize = 0;
    for log in logs {
        count = count.checked_add(log.len())?;
    }
    Some(count)
}

/// One more than the greatest number of a run that has a log.
fn end_of(logs: &[RunLog]) -> usize
    ensures { result ≡ rules.runs_end logs.now }
{
    let mut end = 0;
    let mut rest = logs;
    while let Some((log, others)) = rest.split_first() {
        rest = others;
        end = end.max(usize::from(log.run.0) + 1);
    }
    end
}

/// The log of each run, up to the last that has one.
pub(crate) fn logs_by_run(alloc: Global, logs: &[RunLog]) -> Result<Vec<&[Entry]>, NoMemory>
    ensures len { IfOk result (λ v. length v.items ≡ rules.runs_end logs.now) }
    ensures each { IfOk result (λ v. Has v.items (rules.log_of logs.now)) }
{
    let none: &[Entry] = &[];
    let mut by_run = Vec::from_elem(alloc, none, end_of(logs))?;
    let mut rest = logs;
    while let Some((log, before)) = rest.split_last() {
        rest = before;
        by_run[usize::from(log.run.0)] = log.entries.as_slice();
    }
    Ok(by_run)
}

/// What a table has of a run, nothing if it has no such run.
pub(crate) fn at_run<'a>(table: &[&'a [Entry]], run: Run) -> &'a [Entry]
    ensures within { (d : _) → run.0 < length table.now → result.now ≡ entries_of table.now run.0 d }
    ensures beyond { length table.now ≤ run.0 → result.now ≡ [] }
{
    let at = usize::from(run.0);
    if at >= table.len() {
        return &[];
    }
    table[at]
}

/// Continues after the next other entry of a run, and returns what follows it.
pub(crate) fn move_on<'a>(rests: &mut Vec<&'a [Entry]>, run: Run) -> &'a [Entry]
    ensures len { length rests.new.items ≡ length rests.old.items }
    ensures same { (b : ℕ) (d : _) → b ≢ run.0 → slice_index_or rests.new.items b d ≡ slice_index_or rests.old.items b d }
    ensures moved { IsMovedOn rests.old.items rests.new.items run.0 }
    ensures within { (d : _) → run.0 < length rests.old.items → result.now ≡ entries_of rests.new.items run.0 d }
    ensures beyond { length rests.old.items ≤ run.0 → result.now ≡ [] }
{
    let at = usize::from(run.0);
    if at >= rests.len() {
        return &[];
    }
    let rest = after_other(rests[at]);
    rests[at] = rest;
    rest
}
