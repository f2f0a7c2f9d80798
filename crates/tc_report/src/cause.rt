//! The call that decided the verdict of a test case, and its caller.
ghost use Rattle.std.specs.{Prelude.{◌≡◌, ◌<◌, ◌==◌, ◌++◌, [], Some, IfOk, OnOk, codes, filter, if◌then◌else◌, length}, List.flat_map, Option.option_map_or};
ghost use Rattle.tc_rules.specs.Prelude.{Comp as AnyComp, part};
ghost use Rattle.tc_report.specs.InWords.{component_in};
ghost use Rattle.tc_report.specs.Cause as spec;

use crate::meaning::{append_meaning, started_before};
use crate::naming::{Names, append_component_in, append_named_call, append_run_in};
use crate::output::append_between;
use crate::results::CaseEnd;
use crate::said::{Remark, reasons};
use std::alloc::Global;
use tc_blocks::Sentence;
use tc_entry::{Comp, Entry, NoMemory, Run, Sequence, Verdict};
use tc_rules::{component_of, deciding_entry};
use tc_text::append_text;

/// The call that decided the verdict of a test case, and its caller.
#[derive(Drop)]
pub struct Cause {
    /// The deciding entry.
    pub entry: Entry,
    /// The component that its run is on.
    pub comp: Option<Comp>,
    /// The entries of its run, the oldest first.
    pub log: Sequence<Entry>,
    /// How many of them come before the deciding one.
    pub before: usize,
    /// What the run said right before and right after the deciding entry.
    pub said: Sequence<Sentence>,
    /// The run that the deciding entry was to start, if it got its error since the run was started before.
    pub again: Option<Run>,
}

#[tactic(auto, unfolding(tc_rules::specs::Merge::part))]
fn log_of(alloc: Global, history: &[Entry], run: Run) -> Result<Vec<Entry>, NoMemory>
    ensures { IfOk result (λ v. v.items ≡ part history.now run.0) }
{
    let log = history.iter().filter(|entry| entry.caller.0 == run.0);
    Ok(log.map(|entry| entry.copy()).collect(alloc)?)
}

/// How many of these entries are of the run.
#[tactic(auto, unfolding(tc_rules::specs::Merge::part))]
pub(crate) fn count_by(entries: &[Entry], run: Run) -> usize
    ensures { result ≡ length (part entries.now run.0) }
{
    let found = entries.iter().filter(|entry| entry.caller.0 == run.0);
    found.count()
}

fn cause_by(
    alloc: Global,
    remarks: &[Remark],
    history: &[Entry],
    at: usize,
    entry: &Entry,
) -> Result<Cause, NoMemory>
    requires { at < length history.now }
    ensures { IfOk result (λ cause. cause ≡ spec.cause_by remarks.now history.now at entry.now) }
{
    let log = log_of(alloc, history, entry.caller)?;
    let said = reasons(alloc, remarks, history, at, entry.caller)?;
    Ok(Cause {
        entry: entry.copy(),
        comp: component_of(history, entry.caller),
        log: Sequence::new(log),
        before: count_by(&history[..at], entry.caller),
        said: Sequence::new(said),
        again: started_before(&history[..at], entry),
    })
}

/// What decided the verdict of a test case with this history, these remarks and this end, if the verdict is worse than pass.
pub fn cause_of(
    alloc: Global,
    ending: CaseEnd,
    remarks: &[Remark],
    history: &[Entry],
) -> Result<Option<Cause>, NoMemory>
    ensures { IfOk result (λ cause. cause ≡ spec.cause_of ending remarks.now history.now) }
{
    let CaseEnd::Over(Verdict::Inconc | Verdict::Fail | Verdict::Error) = ending else {
        return Ok(None);
    };
    match deciding_entry(history) {
        Some(at) => Ok(Some(cause_by(alloc, remarks, history, at, &history[at])?)),
        None => Ok(None),
    }
}

fn append_on(out: &mut Vec<u8>, names: &Names, comp: Option<Comp>) -> Result<(), NoMemory>
    ensures { OnOk result (out.new.items ≡ out.old.items ++ option_map_or (λ (k : AnyComp).
        (if k.0 == 0 then codes " on " else codes " on component ") ++ component_in names.now k.0) comp []) }
{
    if let Some(comp) = comp {
        let is_main = comp.0 == 0;
        append_text(out, if is_main { " on " } else { " on component " })?;
        append_component_in(out, names, comp)?;
    }
    Ok(())
}

fn append_reasons(out: &mut Vec<u8>, said: &[Sentence]) -> Result<(), NoMemory>
    ensures { OnOk result (out.new.items ≡ out.old.items
        ++ flat_map (λ s. codes ": \"" ++ (s ++ codes "\"")) said.now) }
{
    for sentence in said {
        append_between(out, ": \"", sentence.bytes(), "\"")?;
    }
    Ok(())
}

/// Appends what decided the verdict: the run, its component, the call, what its error means, and what the run said of it.
/// If memory runs out, a part of it.
#[tactic(auto, unfolding(crate::specs::Cause::decided_text))]
pub fn append_decision(out: &mut Vec<u8>, names: &Names, cause: &Cause) -> Result<(), NoMemory>
    ensures { OnOk result (out.new.items ≡ out.old.items ++ spec.decided_text names.now cause.now) }
{
    append_text(out, "run ")?;
    append_run_in(out, names, cause.entry.caller)?;
    append_on(out, names, cause.comp)?;
    append_text(out, ": ")?;
    append_named_call(out, names, &cause.entry.op, cause.entry.reply)?;
    append_meaning(out, names, cause.again, cause.entry.reply)?;
    append_reasons(out, cause.said.as_slice())
}
