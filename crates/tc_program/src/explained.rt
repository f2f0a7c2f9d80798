//! What is printed about a text that is refused.
ghost use Rattle.std.specs.Prelude.{◌≡◌, [], IfOk, OnOk};
ghost use Rattle.tc_explain.specs.Prelude.{explanation};
ghost use Rattle.tc_text.specs.Prelude.{TellsAmong};
ghost use Rattle.tc_answer.specs.Prelude.{number_of};
ghost use Rattle.tc_program.specs.{Explained.IsExplained, Explained.explains as spec_explains, Explained.is_of_text as spec_of_text, Explained.part_of as spec_part_of, Inside.IsToldOf, Inside.notes_of, Limits.has_blocks as spec_blocks};

use crate::limits::has_blocks;
use crate::unknown::{append_unknown, names_of_blocks, names_of_script};
use std::alloc::Global;
use std::io::Write;
use tc_answer::{Outcome, RunFault, fault_line, refuse_with, split_script};
use tc_command::{ExploreOptions, RunOptions, Task};
use tc_entry::NoMemory;
use tc_explain::{Refusal, explain};
use tc_judge::is_of_judged;
use tc_text::{TextFault, TextKind};

/// Whether the task is asked to explain a fault of its text, and has it whole, since its histories may not be long.
pub(crate) fn explains(task: &Task) -> bool
    ensures { result ≡ spec_explains task.now }
{
    match task {
        Task::Replay { explains } | Task::Compare { explains, .. } | Task::List { explains, .. } =>
            *explains,
        Task::Check { choice, explains } | Task::Model { choice, explains } => {
            *explains && !choice.long
        }
        Task::Report {
            form,
            choice,
            explains,
        } => *explains && !(choice.long && is_of_judged(form)),
        Task::Run(options) => options.explains,
        Task::Explore(options) => options.explains,
        Task::Serve => false,
    }
}

// What the text of the task should be, which has a fault of this kind; a script has faults of another.
fn refusal_by(task: &Task, kind: TextKind) -> Refusal {
    match task {
        Task::Replay { .. } => Refusal::Moves(kind),
        _ => Refusal::Histories(kind),
    }
}

// The part of the text of the task that the lines of the fault are counted in: all of it, or the script, or the blocks
// after it.
fn part_of<'a>(task: &Task, fault: RunFault, text: &'a [u8]) -> &'a [u8]
    ensures { result.now ≡ spec_part_of (spec_blocks task.now) fault text.now }
{
    if !has_blocks(task) {
        return text;
    }
    let (script, blocks) = split_script(text);
    match fault {
        RunFault::Script(_) => script,
        _ => blocks,
    }
}

// Appends what is explained of the text, the fault of which is of this kind and in this line.
fn append_notes(
    alloc: Global,
    out: &mut Vec<u8>,
    text: &[u8],
    line: usize,
    refusal: Refusal,
) -> Result<(), NoMemory>
    ensures { OnOk result (TellsAmong (explanation text.now line) out.old.items out.new.items) }
{
    let notes = explain(alloc, text, line, refusal)?;
    out.extend_from_slice(notes.as_slice())?;
    Ok(())
}

// Appends which value of `--only` matches no name that the task chooses among: those of the blocks, or of the test cases of
// the script.
#[tactic(auto, using(tc_text::proofs::Lemmas::Among::among_none))]
fn append_only(alloc: Global, out: &mut Vec<u8>, task: &Task, text: &[u8]) -> Result<(), NoMemory>
    ensures { OnOk result (TellsAmong [] out.old.items out.new.items) }
{
    let script = if has_blocks(task) {
        split_script(text).0
    } else {
        text
    };
    let (choice, names) = match task {
        Task::Check { choice, .. } | Task::Report { choice, .. } | Task::Model { choice, .. } => {
            (choice, names_of_blocks(alloc, text))
        }
        Task::Compare { choice, .. }
        | Task::List { choice, .. }
        | Task::Run(RunOptions { choice, .. })
        | Task::Explore(ExploreOptions { choice, .. }) => {
            (choice, names_of_script(alloc, script))
        }
        Task::Replay { .. } | Task::Serve => return Ok(()),
    };
    let Ok(names) = names else {
        return Err(NoMemory);
    };
    append_unknown(alloc, out, choice.only.as_slice(), names.as_slice())
}

// Appends what is explained of the text of the task.
#[tactic(auto, using(tc_text::proofs::Lemmas::Among::among_none))]
fn append_why(
    alloc: Global,
    out: &mut Vec<u8>,
    task: &Task,
    text: &[u8],
    fault: RunFault,
) -> Result<(), NoMemory>
    ensures { OnOk result (TellsAmong (notes_of (number_of fault) (spec_part_of (spec_blocks task.now) fault text.now))
        out.old.items out.new.items) }
{
    let part = part_of(task, fault, text);
    match fault {
        RunFault::Text(TextFault::At { line, kind }) => {
            append_notes(alloc, out, part, line, refusal_by(task, kind))
        }
        RunFault::Script(fault) => {
            append_notes(alloc, out, part, fault.line, Refusal::Script(fault.kind))
        }
        RunFault::Only => append_only(alloc, out, task, text),
        _ => Ok(()),
    }
}

// Whether the fault is one of the text.
fn is_of_text(fault: RunFault) -> bool
    ensures { result ≡ spec_of_text fault }
{
    !matches!(fault, RunFault::NoMemory)
}

// The fault's line, and after it what is explained of the text.
fn told_text(alloc: Global, task: &Task, text: &[u8], fault: RunFault) -> Result<Vec<u8>, NoMemory>
    ensures { IfOk result (λ v. IsToldOf task.now text.now fault v.items) }
{
    let mut out = Vec::new(alloc);
    fault_line(&fault, &mut out)?;
    if explains(task) && is_of_text(fault) {
        append_why(alloc, &mut out, task, text, fault)?;
    }
    Ok(out)
}

/// The outcome of a task that refuses its text. The line of the fault is printed; if it is asked for and the fault is
/// one of the text, what the text says there follows.
pub(crate) fn refuse_text<E: Write>(
    alloc: Global,
    errors: &mut E,
    task: &Task,
    text: &[u8],
    fault: RunFault,
) -> Outcome
    ensures { IsExplained task.now text.now fault (E.contents errors.old) (E.contents errors.new) result }
{
    refuse_with(errors, told_text(alloc, task, text, fault))
}
