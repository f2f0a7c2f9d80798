//! The text of a model.
use crate::following::{ModelRun, is_step};
use crate::given::target;
use std::alloc::Global;
use tc_blocks::Line;
use tc_entry::{Comp, Entry, Name, NoMemory, Op, Reply};
use tc_text::{append_number, append_text, write_op};

// Appends what a behaviour on this component calls a component.
fn append_comp(out: &mut Vec<u8>, own: Option<Comp>, comp: Comp) -> Result<(), NoMemory> {
    if comp.0 == 0 {
        return append_text(out, "mtc");
    }
    if own == Some(comp) {
        return append_text(out, "self");
    }
    append_text(out, "c")?;
    append_number(out, u64::from(comp.0))
}

// Appends these parameters: a component that comes again has the name of its place.
fn append_parameters(out: &mut Vec<u8>, comps: &[Comp]) -> Result<(), NoMemory> {
    for (place, comp) in comps.iter().enumerate() {
        if comps.iter().take(place).any(|other| *other == *comp) {
            append_text(out, " p")?;
            append_number(out, place as u64)?;
        } else {
            append_text(out, " c")?;
            append_number(out, u64::from(comp.0))?;
        }
    }
    Ok(())
}

// Appends a create: what it makes is named by its number.
fn append_create(
    out: &mut Vec<u8>,
    alive: bool,
    name: &Option<Name>,
    reply: Reply,
) -> Result<(), NoMemory> {
    append_text(out, "create ")?;
    match reply {
        Reply::Made(comp) => append_comp(out, None, comp)?,
        _ => append_text(out, "none")?,
    }
    if alive {
        append_text(out, " alive")?;
    }
    if name.is_some() {
        append_text(out, " named ")?;
    }
    append_name(out, name)
}

// Appends the name.
fn append_name(out: &mut Vec<u8>, name: &Option<Name>) -> Result<(), NoMemory> {
    if let Some(name) = name {
        out.extend_from_slice(name.bytes())?;
    }
    Ok(())
}

// The words of an operation before the component that it names.
fn words_of(op: &Op) -> &'static str {
    match op {
        Op::Start { .. } => "start ",
        Op::Stop(_) => "stop ",
        Op::Kill(_) => "kill ",
        Op::Running(_) => "running ",
        Op::Alive(_) => "alive ",
        Op::Done(_) => "done ",
        Op::Killed(_) => "killed ",
        Op::Wait { killed: true, .. } => "wait killed ",
        _ => "wait done ",
    }
}

// Appends the step of an entry, by a behaviour on this component.
fn append_step(
    out: &mut Vec<u8>,
    runs: &[ModelRun],
    own: Option<Comp>,
    entry: &Entry,
) -> Result<(), NoMemory> {
    if let Op::Create { alive, name } = &entry.op {
        return append_create(out, *alive, name, entry.reply);
    }
    let Some(comp) = target(&entry.op) else {
        return write_op(out, &entry.op);
    };
    append_text(out, words_of(&entry.op))?;
    append_comp(out, own, comp)?;
    let Op::Start { run, args, .. } = &entry.op else {
        return Ok(());
    };
    let Some(started) = runs.get(usize::from(run.0)) else {
        return Ok(());
    };
    append_text(out, " ")?;
    append_name(out, &started.name)?;
    for (place, comp) in started.given.as_slice().iter().enumerate() {
        let comp = match args.as_slice().get(place) {
            Some(arg) => *arg,
            None if entry.reply.is_ok() => *comp,
            None => Comp(0),
        };
        append_text(out, " ")?;
        append_comp(out, own, comp)?;
    }
    Ok(())
}

// The lines of the steps of each run.
fn steps_of(alloc: Global, runs: &[ModelRun], lines: &[Line]) -> Result<Vec<Vec<u8>>, NoMemory> {
    let mut texts = Vec::new(alloc);
    for _ in runs {
        texts.push(Vec::new(alloc))?;
    }
    for line in lines {
        if let Line::Entry(entry) = line {
            let at = usize::from(entry.caller.0);
            if at < runs.len() && at < texts.len() && is_step(&entry.op) {
                append_text(&mut texts[at], "  ")?;
                append_step(&mut texts[at], runs, runs[at].on, entry)?;
                append_text(&mut texts[at], "\n")?;
            }
        }
    }
    Ok(texts)
}

/// Appends the test case of this name and these runs, whose steps are among the lines.
pub(crate) fn append_case(
    alloc: Global,
    out: &mut Vec<u8>,
    name: &Name,
    runs: &[ModelRun],
    lines: &[Line],
) -> Result<(), NoMemory> {
    let texts = steps_of(alloc, runs, lines)?;
    append_text(out, "testcase ")?;
    out.extend_from_slice(name.bytes())?;
    append_text(out, "\n")?;
    for (at, own) in runs.iter().enumerate() {
        append_text(out, "behaviour ")?;
        append_name(out, &own.name)?;
        append_parameters(out, own.given.as_slice())?;
        append_text(out, "\n")?;
        if let Some(steps) = texts.get(at) {
            out.extend_from_slice(steps.as_slice())?;
        }
        append_text(out, "end\n")?;
    }
    append_text(out, "end\n")
}
