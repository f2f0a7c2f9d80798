//! What one entry is to the merge, the verdict entries at the head of a log, and those replied Ended.
ghost use Rattle.std.specs.Prelude.{◌≡◌, ◌++◌, OnOk, filter};
ghost use Rattle.tc_rules.specs.Prelude.{started};
ghost use Rattle.tc_rules.specs.Merge as rules;
ghost use Rattle.tc_book.specs.Inside.Merging.{AreAfterOther};

use tc_entry::{Entry, Op, Reply, Run};
use tc_verdict::NoMemory;

fn is_verdict_call(op: &Op) -> bool
    ensures { result ≡ rules.is_verdict_call op.now }
{
    matches!(op, Op::SetVerdict(_) | Op::GetVerdict)
}

/// Whether the entry is no verdict entry.
fn is_other(entry: &Entry) -> bool
    ensures { result ≡ rules.is_other entry.now }
{
    !is_verdict_call(&entry.op)
}

/// Whether the entry is a verdict entry replied Ended.
fn is_late(entry: &Entry) -> bool
    ensures { result ≡ rules.is_late entry.now }
{
    is_verdict_call(&entry.op) && entry.reply.is_ended()
}

/// The run that a Start replied Ok starts.
pub(crate) fn started(entry: &Entry) -> Option<Run>
    ensures { result ≡ started entry.now }
{
    match (&entry.op, entry.reply) {
        (Op::Start { run, .. }, Reply::Ok) => Some(*run),
        _ => None,
    }
}

/// What follows the first other entry of a log.
pub(crate) fn after_other(log: &[Entry]) -> &[Entry]
    ensures { AreAfterOther log.now result.now }
{
    let mut rest = log;
    while let Some((entry, others)) = rest.split_first() {
        rest = others;
        if is_other(entry) {
            return rest;
        }
    }
    rest
}

/// Adds the verdict entries at the head of a log, without those replied Ended.
pub(crate) fn add_head(all: &mut Vec<Entry>, log: &[Entry]) -> Result<(), NoMemory>
    ensures { OnOk result (all.new.items ≡ all.old.items ++ rules.verdict_calls_after 0 log.now) }
{
    let mut rest = log;
    while let Some((entry, others)) = rest.split_first() {
        rest = others;
        if is_other(entry) {
            return Ok(());
        }
        if !is_late(entry) {
            all.push(entry.copy())?;
        }
    }
    Ok(())
}

/// Adds the verdict entries of a log that were replied Ended.
pub(crate) fn add_late(all: &mut Vec<Entry>, log: &[Entry]) -> Result<(), NoMemory>
    ensures { OnOk result (all.new.items ≡ all.old.items ++ filter rules.is_late log.now) }
{
    let mut rest = log;
    while let Some((entry, others)) = rest.split_first() {
        rest = others;
        if is_late(entry) {
            all.push(entry.copy())?;
        }
    }
    Ok(())
}
