//! What the program does with a task.
ghost use Rattle.std.specs.Prelude.{◌≡◌, ◌≢◌, true, IfErr, IfOk, MatchOption, OnOk};
ghost use Rattle.tc_command.specs.declared.task.Task.TheVariants.{Run, Serve};
ghost use Rattle.tc_judge.specs.Prelude.{AreToRun};
ghost use Rattle.tc_answer.specs.Inside.{AreReadyAs};
ghost use Rattle.tc_answer.specs.Prelude.{held_streams};
ghost use Rattle.tc_program.specs.{Inside.IsAsked, Inside.IsMadeInParts, Inside.is_whole, Limits.limit_of, Made.IsMade, Program.IsCarriedOut, Program.IsDone};

use crate::explained::{explains, refuse_text};
use crate::explore::explore_text;
use crate::limits::text_limit;
use crate::listing::list_text;
use crate::model::{model_input, model_text};
use crate::replaying::replay_text;
use crate::serve::serve_input;
use std::alloc::Global;
use std::io::{Read, Write};
use std::sync::Wait;
use std::thread::Threads;
use std::time::Clock;
use tc_answer::{Answer, Outcome, RunFault, give_answer, read_text, refuse};
use tc_campaign::Case;
use tc_command::{RunOptions, Task};
use tc_judge::{
    cases_to_run, check_input, check_text, compare_text, is_of_judged, report_compared,
    report_input, report_text,
};
use tc_run::{fault_of, run_cases, with_jobs};
use tc_step::Script;

// What is made of the text for a task that is no run.
fn made_text(alloc: Global, task: &Task, text: &[u8]) -> Result<Answer, RunFault>
    requires no_run { (o : RunOptions) → task.now ≢ Run o }
    requires no_service { task.now ≢ Serve }
    ensures { IsMade task.now text.now result }
{
    match task {
        Task::Replay { .. } => replay_text(alloc, text),
        Task::Check { choice, .. } => check_text(alloc, choice, text),
        Task::Compare {
            form: None,
            choice,
            ..
        } => compare_text(alloc, choice, text),
        Task::Compare {
            form: Some(form),
            choice,
            ..
        } => report_compared(alloc, form, choice, text),
        Task::Report { form, choice, .. } => report_text(alloc, form, choice, text),
        Task::Model { choice, .. } => model_text(alloc, choice, text),
        Task::Explore(options) => explore_text(alloc, options, text),
        Task::List { choice, .. } => list_text(alloc, choice, text),
        Task::Run(_) | Task::Serve => unreachable!(),
    }
}

// Does what the task asks for with its text, or returns the test cases that it asks to run.
fn do_text<'t, W: Write, E: Write>(
    alloc: Global,
    task: &'t Task,
    text: &[u8],
    writer: &mut W,
    errors: &mut E,
) -> Result<(&'t RunOptions, Vec<Case<Script>>), Outcome>
    requires { task.now ≢ Serve }
    ensures done { IfErr result (IsDone task.now text.now (held_streams W.contents writer.old writer.new E.contents errors.old errors.new)) }
    ensures asked { IfOk result (λ r. (task.now ≡ Run r.0.now) × AreReadyAs (AreToRun r.0.now.choice text.now) r.1.items) }
    ensures unwritten { OnOk result (writer.new ≡ writer.old) }
    ensures untold { OnOk result (errors.new ≡ errors.old) }
{
    let Task::Run(options) = task else {
        return match made_text(alloc, task, text) {
            Ok(answer) => Err(give_answer(alloc, &answer, writer, errors)),
            Err(fault) => Err(refuse_text(alloc, errors, task, text, fault)),
        };
    };
    match cases_to_run(alloc, text, &options.choice) {
        Ok(cases) => Ok((options, cases)),
        Err(fault) => Err(refuse_text(alloc, errors, task, text, fault)),
    }
}

// What is made of the input part by part, if neither an explanation nor the form needs its text.
fn made_in_parts<I: Read>(
    alloc: Global,
    task: &Task,
    reader: &mut I,
) -> Option<Result<Answer, RunFault>>
    ensures { MatchOption result ((reader.new ≡ reader.old) × (is_whole (limit_of task.now) ≡ true))
        (IsMadeInParts task.now (I.remaining reader.old)) }
{
    if explains(task) {
        return None;
    }
    match task {
        Task::Check { choice, .. } => Some(check_input(alloc, choice, reader)),
        Task::Report { form, choice, .. } => {
            if !is_of_judged(form) {
                return None;
            }
            Some(report_input(alloc, form, choice, reader))
        }
        Task::Model { choice, .. } => Some(model_input(alloc, choice, reader)),
        Task::Replay { .. }
        | Task::Run(_)
        | Task::Serve
        | Task::List { .. }
        | Task::Compare { .. }
        | Task::Explore(_) => None,
    }
}

/// Does what the task asks for with its input, or returns the test cases that it asks to run.
pub(crate) fn begin<'t, I: Read, W: Write, E: Write>(
    alloc: Global,
    task: &'t Task,
    reader: &mut I,
    writer: &mut W,
    errors: &mut E,
) -> Result<(&'t RunOptions, Vec<Case<Script>>), Outcome>
    ensures done { IfErr result (IsCarriedOut task.now (I.remaining reader.old)
        (held_streams W.contents writer.old writer.new E.contents errors.old errors.new)) }
    ensures asked { IfOk result (λ r. IsAsked task.now (I.remaining reader.old) r.0.now r.1.items) }
    ensures unwritten { OnOk result (writer.new ≡ writer.old) }
    ensures untold { OnOk result (errors.new ≡ errors.old) }
{
    if let Task::Serve = task {
        return Err(serve_input(alloc, reader, writer, errors));
    }
    match made_in_parts(alloc, task, reader) {
        Some(Ok(answer)) => return Err(give_answer(alloc, &answer, writer, errors)),
        Some(Err(fault)) => return Err(refuse(alloc, errors, fault)),
        None => {}
    }
    match read_text(alloc, reader, text_limit(task)) {
        Ok(text) => do_text(alloc, task, text.as_slice(), writer, errors),
        Err(fault) => Err(refuse(alloc, errors, fault)),
    }
}

/// Does what the task asks for with its input.
pub fn carry_out<R, I: Read, W: Write, E: Write>(
    rt: &R,
    alloc: Global,
    task: &Task,
    reader: &mut I,
    writer: &mut W,
    errors: &mut E,
) -> Outcome
where
    R: Threads + Wait + Clock + Copy + Send + 'static,
    ensures { IsCarriedOut task.now (I.remaining reader.old) (held_streams W.contents writer.old writer.new E.contents errors.old errors.new) result }
{
    let (options, cases) = match begin(alloc, task, reader, writer, errors) {
        Ok(asked) => asked,
        Err(outcome) => return outcome,
    };
    let Ok(cases) = with_jobs(rt, alloc, cases) else {
        return refuse(alloc, errors, RunFault::NoMemory);
    };
    match run_cases(rt, alloc, cases, options, writer, errors) {
        Ok(outcome) => outcome,
        Err(fault) => refuse(alloc, errors, fault_of(fault)),
    }
}
