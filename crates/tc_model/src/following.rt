//! A block followed by the component table, line by line, up to its first fault.
ghost use Rattle.std.specs.Prelude.{◌≡◌, ◌<◌, ◌||◌, ◌↔◌, [], true, IfErr, IfNone, IfOk, IfSome, not};
ghost use Rattle.tc_rules.specs.Prelude.{IsBehaviours, is_finish, is_wake, past_of};
ghost use Rattle.tc_model.specs.{Inside.{AreWays, IsCallFault, IsEndFault, IsEntryTaken}, Models.IsFollowed, Reasons.{CanCall, IsFirstFault}};

use crate::given::Ways;
use crate::reason::{Reason, Refusal};
use std::alloc::Global;
use tc_blocks::{Block, Line};
use tc_course::Course;
use tc_entry::{Comp, Entry, Name, NoMemory, Op, Reply, Run};
use tc_step::STEPS;

/// A run of a model.
#[derive(Drop)]
pub(crate) struct ModelRun {
    pub(crate) run: Run,
    /// The name of its behaviour, if the block has one or it was given one.
    pub(crate) name: Option<Name>,
    /// Whether a start names it, or it is the main component's.
    pub(crate) is_named: bool,
    /// The component that it is started on, once it is.
    pub(crate) on: Option<Comp>,
    /// What it is given: its arguments, and what it or a run that it starts uses besides.
    pub(crate) given: Vec<Comp>,
    /// How many arguments a start gives it at most.
    arguments: usize,
}

/// Whether the operation is a step of a script.
pub(crate) fn is_step(op: &Op) -> bool
    ensures { result ≡ not (is_wake op.now || is_finish op.now) }
{
    !matches!(op, Op::Wake { .. } | Op::Finish)
}

// Notes what a start says of the run that it names.
fn note_start(runs: &mut [ModelRun], entry: &Entry) {
    if let Op::Start { comp, run, args } = &entry.op
        && let Some(named) = runs.get_mut(usize::from(run.0))
    {
        named.is_named = true;
        named.arguments = named.arguments.max(args.as_slice().len());
        if entry.reply.is_ok() {
            named.on = Some(*comp);
        }
    }
}

// Notes the name of a run's behaviour.
fn note_name(runs: &mut [ModelRun], run: Run, name: &Name) {
    if let Some(named) = runs.get_mut(usize::from(run.0)) {
        named.name = Some(name.copy());
    }
}

// Whether a behaviour of a script can call this after the course.
fn can_call(course: &Course, behaviours: u16, entry: &Entry) -> bool
    requires { behaviours ≡ course.now.behaviours }
    ensures { (result ≡ true) ↔ CanCall behaviours (past_of course.now) entry.now }
{
    if entry.caller.0 >= behaviours {
        return false;
    }
    let known = course.known(entry.caller);
    if known.comp().is_none() || known.has_left() {
        return false;
    }
    match (known.wake(), &entry.op) {
        (Some(wake), Op::Wake { .. }) => wake.same(&entry.op)
            && !matches!(entry.reply, Reply::Parked),
        (None, Op::Wake { .. }) | (Some(_), _) => false,
        (None, Op::Start { run, args, .. }) => {
            run.0 < behaviours && (run.0 != 0 || args.as_slice().is_empty())
        }
        (None, _) => true,
    }
}

// Why no script brings the entry after the course, apart from what it names.
fn call_fault(course: &Course, behaviours: u16, entry: &Entry) -> Option<Reason>
    requires { behaviours ≡ course.now.behaviours }
    ensures { IsCallFault behaviours (past_of course.now) entry.now result }
{
    if !course.would(entry.caller, &entry.op).same(&entry.reply) {
        return Some(Reason::NotLegal);
    }
    if !can_call(course, behaviours, entry) {
        return Some(Reason::NotCalled);
    }
    if is_step(&entry.op) && course.known(entry.caller).called() >= STEPS {
        return Some(Reason::ManySteps);
    }
    None
}

// The course with the entry; or why no script brings it.
fn with_entry(
    alloc: Global,
    course: Course,
    behaviours: u16,
    ways: &mut Ways,
    entry: &Entry,
) -> Result<Result<Course, Reason>, NoMemory>
    requires behaviours { behaviours ≡ course.behaviours }
    requires ways { AreWays behaviours (past_of course) ways.old }
    ensures { IfOk result (IsEntryTaken behaviours (past_of course) entry.now ways.new) }
{
    if let Some(reason) = call_fault(&course, behaviours, entry) {
        return Ok(Err(reason));
    }
    if let Some(reason) = ways.take(alloc, &course, entry)? {
        return Ok(Err(reason));
    }
    Ok(Ok(course.with(entry.caller, entry.op.copy())?))
}

// Why the course, which the block is, is no complete one with its verdict, if it is none.
fn end_fault(course: &Course, block: &Block) -> Option<Reason>
    requires { block.now.header.behaviours ≡ course.now.behaviours }
    ensures { IsEndFault course.now.behaviours (past_of course.now) block.now.verdict result }
{
    if course.verdict() != block.verdict {
        return Some(Reason::NotLegal);
    }
    for run in 0..block.header.behaviours {
        if course.turn(&[], Run(run)).is_some() {
            return Some(Reason::NotOver);
        }
    }
    None
}

// Follows the block from the opening of its test case. Its first fault, if it has one.
fn follow_lines(
    alloc: Global,
    opening: Course,
    ways: &mut Ways,
    runs: &mut [ModelRun],
    block: &Block,
) -> Result<Option<Refusal>, NoMemory>
    requires opening { past_of opening ≡ [] }
    requires behaviours { block.now.header.behaviours ≡ opening.behaviours }
    requires ways { AreWays opening.behaviours [] ways.old }
    ensures followed { IfOk result (λ o. IfNone o (IsFollowed block.now)) }
    ensures refused { IfOk result (λ o. IfSome o (IsFirstFault block.now)) }
{
    let mut course = opening;
    let mut line = block.first_line;
    for each in block.lines.as_slice() {
        line = line.checked_add(1).ok_or(NoMemory)?;
        match each {
            Line::Entry(entry) => {
                course = match with_entry(alloc, course, block.header.behaviours, ways, entry)? {
                    Ok(course) => course,
                    Err(reason) => return Ok(Some(Refusal { line, reason })),
                };
                note_start(runs, entry);
            }
            Line::Named { run, name } => note_name(runs, *run, name),
            _ => {}
        }
    }
    line = line.checked_add(1).ok_or(NoMemory)?;
    Ok(end_fault(&course, block).map(|reason| Refusal { line, reason }))
}

// The runs of that many behaviours, of which nothing is known.
fn unnamed_runs(alloc: Global, behaviours: u16) -> Result<Vec<ModelRun>, NoMemory> {
    let mut runs = Vec::new(alloc);
    for run in 0..behaviours {
        runs.push(ModelRun {
            run: Run(run),
            name: None,
            is_named: run == 0,
            on: None,
            given: Vec::new(alloc),
            arguments: 0,
        })?;
    }
    Ok(runs)
}

// Gives the run this, and the main component for each argument more.
fn give_run(run: &mut ModelRun, given: Vec<Comp>) -> Result<(), NoMemory> {
    run.given = given;
    for _ in run.given.len()..run.arguments {
        run.given.push(Comp(0))?;
    }
    Ok(())
}

// Gives each run what it is given, and leaves out the last runs that no start names.
fn give_runs(runs: &mut Vec<ModelRun>, given: Vec<Vec<Comp>>) -> Result<(), NoMemory> {
    let mut used = 0;
    for (place, given) in given.into_iter().enumerate() {
        if let Some(run) = runs.get_mut(place) {
            give_run(run, given)?;
            if run.is_named {
                used = place + 1;
            }
        }
    }
    runs.truncate(used);
    Ok(())
}

/// The runs of the block's model. Or the block's first fault.
pub(crate) fn follow(
    alloc: Global,
    block: &Block,
) -> Result<Result<Vec<ModelRun>, Refusal>, NoMemory>
    requires { IsBehaviours block.now.header.behaviours }
    ensures followed { IfOk result (λ r. IfOk r (λ runs. IsFollowed block.now)) }
    ensures refused { IfOk result (λ r. IfErr r (IsFirstFault block.now)) }
{
    let behaviours = block.header.behaviours;
    let mut runs = unnamed_runs(alloc, behaviours)?;
    let mut ways = Ways::opening(alloc, behaviours)?;
    let opening = Course::opening(alloc, behaviours)?;
    if let Some(refusal) = follow_lines(alloc, opening, &mut ways, runs.as_mut_slice(), block)? {
        return Ok(Err(refusal));
    }
    give_runs(&mut runs, ways.given)?;
    Ok(Ok(runs))
}
