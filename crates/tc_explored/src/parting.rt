//! The first call of each run that differs in two witnesses.
ghost use Rattle.std.specs.{Prelude.{◌≡◌, ◌++◌, ◌&&◌, IfOk, None, OnOk, Some, false, if◌then◌else◌, not, option_copied, reverse}, List.flat_map, List.range_with_len, Option.option_map_or};
ghost use Rattle.tc_rules.specs.Prelude.{halts, is_by, is_parked};
ghost use Rattle.tc_report.specs.Prelude.{names_in as spec_names, namings_of as spec_namings};
ghost use Rattle.tc_explored.specs.Race as spec;

use crate::race::{alike_count, append_entry};
use std::alloc::Global;
use tc_entry::{Comp, Entry, Name, Op, Reply};
use tc_report::{Names, append_named_call, append_run_in, names_in, namings_of};
use tc_rules::{ends_case, ends_pass, started_on};
use tc_text::{append_number, append_shown, append_text};
use tc_verdict::{NoMemory, Run};

/// The first calls of a run that differ.
#[derive(Drop)]
pub(crate) struct Difference {
    pub(crate) run: u16,
    /// The number of these calls among those of the run, from 1 on.
    pub(crate) call: usize,
    pub(crate) left: Option<Entry>,
    pub(crate) right: Option<Entry>,
}

// Whether the entry is a call of the run that was not parked.
fn is_call(entry: &Entry, run: u16) -> bool
    ensures { result ≡ (is_by run entry.now && not (is_parked entry.now.reply)) }
{
    entry.caller.0 == run && !matches!(entry.reply, Reply::Parked)
}

fn calls_of(alloc: Global, history: &[Entry], run: u16) -> Result<Vec<Entry>, NoMemory>
    ensures { IfOk result (λ v. v.items ≡ spec.calls history.now run) }
{
    let calls = history.iter().filter(|entry| is_call(entry, run));
    Ok(calls.map(|entry| entry.copy()).collect(alloc)?)
}

// The first calls of a run that differ in two histories, if some do.
fn difference_of(
    alloc: Global,
    left: &[Entry],
    right: &[Entry],
    run: u16,
) -> Result<Option<Difference>, NoMemory>
    ensures { IfOk result (λ d. d ≡ spec.difference left.now right.now run) }
{
    let one = calls_of(alloc, left, run)?;
    let other = calls_of(alloc, right, run)?;
    let at = alike_count(alloc, one.as_slice(), other.as_slice())?;
    if at < one.len() || at < other.len() {
        Ok(Some(Difference {
            run,
            call: at + 1,
            left: one.as_slice().get(at).map(Entry::copy),
            right: other.as_slice().get(at).map(Entry::copy),
        }))
    } else {
        Ok(None)
    }
}

// Whether the entry ends a run on this component, if it is on one: it halts the component, and is no end of another run's
// behaviour.
#[tactic(auto, unfolding(tc_rules::specs::History::ends_pass))]
fn ends_run(run: u16, on: Option<Comp>, entry: &Entry) -> bool
    ensures { result ≡ option_map_or (λ c. halts (if is_by run entry.now then Some c else None) entry.now c.0) on false }
{
    let Some(comp) = on else {
        return false;
    };
    if entry.reply.is_ended() {
        return false;
    }
    match entry.op {
        Op::Finish if entry.caller.0 != run => ends_case(entry),
        _ => ends_pass(comp, entry),
    }
}

// The entry that ended a run, if one did.
fn run_ended_by(history: &[Entry], run: u16) -> Option<&Entry>
    ensures { option_copied result ≡ spec.run_ended_by (reverse history.now) run }
{
    let mut comp = if run == 0 { Some(Comp(0)) } else { None };
    let mut ended = None;
    for entry in history {
        if ended.is_none() && ends_run(run, comp, entry) {
            ended = Some(entry);
        }
        comp = comp.or(started_on(entry, run));
    }
    ended
}

// Appends a call in a test case with these names, or that it is not made.
fn append_side(out: &mut Vec<u8>, names: &Names, call: &Option<Entry>) -> Result<(), NoMemory>
    ensures { OnOk result (out.new.items ≡ out.old.items ++ spec.side_text names.now call.now) }
{
    match call {
        Some(entry) => append_named_call(out, names, &entry.op, entry.reply),
        None => append_text(out, "not made"),
    }
}

// Appends what ended a run in this history, after these words, if the call is replied so.
fn append_before(
    out: &mut Vec<u8>,
    words: &str,
    history: &[Entry],
    run: u16,
    call: &Option<Entry>,
) -> Result<(), NoMemory>
    ensures { OnOk result (out.new.items ≡ out.old.items ++ spec.before_text words.now history.now run call.now) }
{
    let end = match call {
        Some(entry) if entry.reply.is_ended() => run_ended_by(history, run),
        _ => None,
    };
    if let Some(entry) = end {
        append_text(out, words)?;
        append_entry(out, entry)?;
    }
    Ok(())
}

// Appends where the calls of a run differ in two histories with these names.
#[tactic(auto, unfolding(crate::specs::Race::sides_text))]
fn append_sides(
    out: &mut Vec<u8>,
    left: &Names,
    right: &Names,
    difference: &Difference,
) -> Result<(), NoMemory>
    ensures { OnOk result (out.new.items ≡ out.old.items ++ spec.sides_text left.now right.now difference.now) }
{
    append_text(out, " run ")?;
    append_run_in(out, left, Run(difference.run))?;
    append_text(out, ": call ")?;
    append_number(out, difference.call as u64)?;
    append_text(out, ": ")?;
    append_side(out, left, &difference.left)?;
    append_text(out, " | ")?;
    append_side(out, right, &difference.right)
}

fn append_named_sides(
    out: &mut Vec<u8>,
    names: &[Name],
    left: &[Entry],
    right: &[Entry],
    difference: &Difference,
) -> Result<(), NoMemory>
    ensures { OnOk result (out.new.items ≡ out.old.items ++ spec.sides_text (spec_names left.now (spec_namings names.now))
        (spec_names right.now (spec_namings names.now)) difference.now) }
{
    let alloc = *out.allocator();
    let left = names_in(alloc, left, namings_of(alloc, names)?)?;
    let right = names_in(alloc, right, namings_of(alloc, names)?)?;
    append_sides(out, &left, &right, difference)
}

fn append_line(
    out: &mut Vec<u8>,
    names: &[Name],
    left: &[Entry],
    right: &[Entry],
    difference: &Difference,
) -> Result<(), NoMemory>
    ensures { OnOk result (out.new.items ≡ out.old.items ++ spec.parting_line names.now left.now right.now difference.now) }
{
    let alloc = *out.allocator();
    let run = difference.run;
    let mut text = Vec::new(alloc);
    append_named_sides(&mut text, names, left, right, difference)?;
    append_before(&mut text, "; left: before it ", left, run, &difference.left)?;
    append_before(
        &mut text,
        "; right: before it ",
        right,
        run,
        &difference.right,
    )?;
    append_shown(alloc, out, text.as_slice())
}

fn append_parting(
    out: &mut Vec<u8>,
    names: &[Name],
    left: &[Entry],
    right: &[Entry],
    run: u16,
) -> Result<(), NoMemory>
    ensures { OnOk result (out.new.items ≡ out.old.items ++ spec.parting names.now left.now right.now run) }
{
    match difference_of(*out.allocator(), left, right, run)? {
        Some(difference) => append_line(out, names, left, right, &difference),
        None => Ok(()),
    }
}

/// Appends the line of each run whose calls differ in two histories, in a test case with these names of behaviours. If
/// memory runs out, a part of them.
#[tactic(auto, using(tc_course::proofs::Lemmas::next_of))]
pub(crate) fn append_partings(
    out: &mut Vec<u8>,
    names: &[Name],
    behaviours: u16,
    left: &[Entry],
    right: &[Entry],
) -> Result<(), NoMemory>
    ensures { OnOk result (out.new.items ≡ out.old.items
        ++ flat_map (spec.parting names.now left.now right.now) (range_with_len 0 behaviours)) }
{
    for run in 0..behaviours {
        append_parting(out, names, left, right, run)?;
    }
    Ok(())
}
