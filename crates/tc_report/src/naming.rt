//! How reports for people name components, runs and calls.
ghost use Rattle.std.specs.{Prelude.{◌≡◌, ◌++◌, [], ◌==◌, IfOk, OnOk, codes, if◌then◌else◌, length, option_copied, slice_get, unwrap_or}, List.flat_map, Option.option_and_then};
ghost use Rattle.tc_rules.specs.Prelude.{Comp as AnyComp, creation};
ghost use Rattle.tc_report.specs.Report.{shown_op};
ghost use Rattle.tc_report.specs.InWords as spec;
ghost use Rattle.tc_report.specs.Summary as summaries;

use std::alloc::Global;
use tc_entry::{Comp, Entry, Group, Name, NoMemory, Op, Reply, Run, Sequence, Target};
use tc_rules::created;
use tc_text::{append_number, append_text, write_op, write_reply};

/// The name of the behaviour that a run has.
#[derive(Drop)]
pub struct Naming {
    /// The number of the run.
    pub run: usize,
    /// The name of its behaviour.
    pub name: Name,
}

/// The names that a test case has.
#[derive(Drop)]
pub struct Names {
    /// Those of its components by their numbers; the main component has none.
    pub comps: Sequence<Option<Name>>,
    /// Those of its behaviours.
    pub runs: Sequence<Naming>,
}

/// These names of behaviours, that of run 0 first.
pub fn namings_of(alloc: Global, names: &[Name]) -> Result<Vec<Naming>, NoMemory>
    ensures { IfOk result (λ v. v.items ≡ spec.namings_of names.now) }
{
    let namings = names.iter().enumerate().map(|(run, name)| Naming {
        run,
        name: name.copy(),
    });
    Ok(namings.collect(alloc)?)
}

/// The bytes of a name, or these.
pub(crate) fn bytes_or<'a>(name: Option<&'a Name>, other: &'a [u8]) -> &'a [u8]
    ensures { result.now ≡ unwrap_or (option_copied name.entry) other.now }
{
    match name {
        Some(name) => name.bytes(),
        None => other,
    }
}

fn name_at(names: &[Option<Name>], place: usize) -> Option<&Name>
    ensures { option_copied result ≡ option_and_then (λ n. n) (slice_get names.now place) }
{
    names.get(place)?.as_ref()
}

/// The name of the behaviour of a run, if it has one.
pub(crate) fn behaviour_of(runs: &[Naming], run: usize) -> Option<&Name>
    ensures { option_copied result ≡ spec.behaviour_of runs.now run }
{
    Some(&runs.iter().find(|naming| naming.run == run)?.name)
}

#[tactic(auto, unfolding(crate::specs::InWords::numbered))]
fn append_numbered(out: &mut Vec<u8>, number: u64, name: Option<&Name>) -> Result<(), NoMemory>
    ensures { OnOk result (out.new.items ≡ out.old.items ++ spec.numbered number (option_copied name.entry)) }
{
    append_number(out, number)?;
    if let Some(name) = name {
        out.push(b' ')?;
        out.extend_from_slice(name.bytes())?;
    }
    Ok(())
}

/// Appends a component: the main one as mtc, others by their number and name. If memory runs out, a part of it.
pub fn append_component(out: &mut Vec<u8>, comp: u64, name: Option<&Name>) -> Result<(), NoMemory>
    ensures { OnOk result (out.new.items ≡ out.old.items ++ spec.component_text comp (option_copied name.entry)) }
{
    if comp == 0 {
        return append_text(out, "mtc");
    }
    append_numbered(out, comp, name)
}

/// Appends the component of this number by these names. If memory runs out, a part of it.
pub(crate) fn append_place(out: &mut Vec<u8>, names: &Names, comp: usize) -> Result<(), NoMemory>
    ensures { OnOk result (out.new.items ≡ out.old.items ++ spec.component_in names.now comp) }
{
    append_component(out, comp as u64, name_at(names.comps.as_slice(), comp))
}

/// Appends a component by these names. If memory runs out, a part of it.
pub fn append_component_in(out: &mut Vec<u8>, names: &Names, comp: Comp) -> Result<(), NoMemory>
    ensures { OnOk result (out.new.items ≡ out.old.items ++ spec.component_in names.now comp.0) }
{
    append_place(out, names, comp.0 as usize)
}

/// Appends a run, and the name of its behaviour if it has one. If memory runs out, a part of it.
pub fn append_run_in(out: &mut Vec<u8>, names: &Names, run: Run) -> Result<(), NoMemory>
    ensures { OnOk result (out.new.items ≡ out.old.items ++ spec.run_in names.now run.0) }
{
    let name = behaviour_of(names.runs.as_slice(), usize::from(run.0));
    append_numbered(out, u64::from(run.0), name)
}

/// Appends a run between two texts. If memory runs out, a part of it.
pub(crate) fn append_around_run(
    out: &mut Vec<u8>,
    before: &str,
    names: &Names,
    run: Run,
    after: &str,
) -> Result<(), NoMemory>
    ensures { OnOk result (out.new.items ≡ out.old.items ++ (before.now ++ (spec.run_in names.now run.0 ++ after.now))) }
{
    append_text(out, before)?;
    append_run_in(out, names, run)?;
    append_text(out, after)
}

/// Appends which component is meant. If memory runs out, a part of it.
pub(crate) fn append_target_in(
    out: &mut Vec<u8>,
    names: &Names,
    target: Target,
) -> Result<(), NoMemory>
    ensures { OnOk result (out.new.items ≡ out.old.items ++ spec.target_in names.now target) }
{
    match target {
        Target::One(comp) => append_component_in(out, names, comp),
        Target::Any => append_text(out, "any"),
        Target::All => append_text(out, "all"),
    }
}

// Appends the components that are handed to a run, if there are some; if memory runs out, a part of them.
fn append_args_in(out: &mut Vec<u8>, names: &Names, comps: &[Comp]) -> Result<(), NoMemory>
    ensures { OnOk result (out.new.items ≡ out.old.items ++ (if length comps.now == 0 then []
        else codes " with" ++ flat_map (λ (a : AnyComp). codes " " ++ spec.component_in names.now a.0) comps.now)) }
{
    if comps.is_empty() {
        return Ok(());
    }
    append_text(out, " with")?;
    for comp in comps {
        append_text(out, " ")?;
        append_component_in(out, names, *comp)?;
    }
    Ok(())
}

fn append_about(
    out: &mut Vec<u8>,
    names: &Names,
    words: &str,
    target: Target,
) -> Result<(), NoMemory>
    ensures { OnOk result (out.new.items ≡ out.old.items ++ (words.now ++ spec.target_in names.now target)) }
{
    append_text(out, words)?;
    append_target_in(out, names, target)
}

// Appends a call; a Wake is shown as the Wait with the same target. If memory runs out, a part of it.
#[tactic(auto, unfolding(crate::specs::InWords::named_op))]
fn append_named_op(out: &mut Vec<u8>, names: &Names, op: &Op) -> Result<(), NoMemory>
    ensures { OnOk result (out.new.items ≡ out.old.items ++ spec.named_op names.now (shown_op op.now)) }
{
    match op {
        Op::Start { comp, run, args } => {
            append_text(out, "start ")?;
            append_component_in(out, names, *comp)?;
            append_text(out, " run ")?;
            append_run_in(out, names, *run)?;
            append_args_in(out, names, args.as_slice())
        }
        Op::Stop(Group::One(comp)) => append_about(out, names, "stop ", Target::One(*comp)),
        Op::Kill(Group::One(comp)) => append_about(out, names, "kill ", Target::One(*comp)),
        Op::Running(target) => append_about(out, names, "running ", *target),
        Op::Alive(target) => append_about(out, names, "alive ", *target),
        Op::Done(target) => append_about(out, names, "done ", *target),
        Op::Killed(target) => append_about(out, names, "killed ", *target),
        Op::Wait { killed, target } | Op::Wake { killed, target } => {
            let words = if *killed {
                "wait killed "
            } else {
                "wait done "
            };
            append_about(out, names, words, *target)
        }
        Op::Stop(Group::All) | Op::Kill(Group::All) | Op::Create { .. } => write_op(out, op),
        Op::StopCase | Op::SetVerdict(_) | Op::GetVerdict | Op::Finish => write_op(out, op),
    }
}

/// Appends a call and its reply, with names next to numbers. If memory runs out, a part of it.
#[tactic(auto, unfolding(crate::specs::InWords::named_call))]
pub fn append_named_call(
    out: &mut Vec<u8>,
    names: &Names,
    op: &Op,
    reply: Reply,
) -> Result<(), NoMemory>
    ensures { OnOk result (out.new.items ≡ out.old.items ++ spec.named_call names.now op.now reply) }
{
    append_named_op(out, names, op)?;
    append_text(out, " -> ")?;
    write_reply(out, &reply)
}

/// Appends the line of each entry that was not parked after this front. If memory runs out, a part of them.
pub(crate) fn append_named_entries(
    out: &mut Vec<u8>,
    front: &str,
    names: &Names,
    entries: &[Entry],
) -> Result<(), NoMemory>
    ensures { OnOk result (out.new.items ≡ out.old.items ++ flat_map (spec.named_entry front.now names.now) entries.now) }
{
    for entry in entries {
        if !matches!(entry.reply, Reply::Parked) {
            append_text(out, front)?;
            append_named_call(out, names, &entry.op, entry.reply)?;
            append_text(out, "\n")?;
        }
    }
    Ok(())
}

fn name_in(op: &Op) -> Option<Name>
    ensures { result ≡ option_and_then (λ m. m.1) (creation op.now) }
{
    match op {
        Op::Create { name, .. } => name.as_ref().map(Name::copy),
        _ => None,
    }
}

// The names of the components of this history, in one pass.
fn comp_names(alloc: Global, history: &[Entry]) -> Result<Vec<Option<Name>>, NoMemory>
    ensures { IfOk result (λ v. v.items ≡ (summaries.names_in history.now []).comps) }
{
    let mut names = Vec::new(alloc);
    names.push(None)?;
    for entry in history {
        if created(&entry.op, entry.reply).is_some() {
            names.push(name_in(&entry.op))?;
        }
    }
    Ok(names)
}

/// The names that the components of this history have, and these of its behaviours.
pub fn names_in(alloc: Global, history: &[Entry], runs: Vec<Naming>) -> Result<Names, NoMemory>
    ensures { IfOk result (λ names. names ≡ summaries.names_in history.now runs.items) }
{
    let comps = comp_names(alloc, history)?;
    Ok(Names {
        comps: Sequence::new(comps),
        runs: Sequence::new(runs),
    })
}

/// No names.
pub fn no_names(alloc: Global) -> Names
    ensures { result ≡ summaries.no_names }
{
    Names {
        comps: Sequence::new(Vec::new(alloc)),
        runs: Sequence::new(Vec::new(alloc)),
    }
}
