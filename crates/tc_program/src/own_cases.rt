//! What a program with test cases of its own does with its arguments.
ghost use Rattle.std.specs.Prelude.{◌≡◌, All, IfOk, IfErr, OnErr, map, string_bytes};
ghost use Rattle.std.specs.IoError.{error_kind};
ghost use Rattle.tc_answer.specs.Prelude.{case_name, AreChosenOf, held_streams};
ghost use Rattle.tc_campaign.specs.Prelude.{HasNames};
ghost use Rattle.tc_program.specs.{Answer.IsUnreadInput, Cases.DoesCases, Cases.IsAnsweredWithCases, Cases.RefusesCases, Cases.WereMade, Inside.IsOfCases, Made.IsListed};

use crate::answering::{answer_refused, answer_unread};
use crate::listing::listed;
use std::alloc::Global;
use std::io;
use std::io::Write;
use std::sync::Wait;
use std::thread::Threads;
use std::time::Clock;
use tc_answer::{Answer, Outcome, RunFault, choose_cases, give_answer, refuse};
use tc_campaign::Case;
use tc_command::{Choice, Task, read_cases_task};
use tc_exec::Callable;
use tc_run::{fault_of, run_cases};
use tc_verdict::NoMemory;

// The chosen ones of the test cases that were made.
fn asked<B: Drop>(
    alloc: Global,
    cases: Result<Vec<Case<B>>, NoMemory>,
    choice: &Choice,
) -> Result<Vec<Case<B>>, RunFault>
    ensures chosen { IfOk result (λ v. AreChosenOf case_name (WereMade cases) choice.now v.items) }
    ensures refused { IfErr result (RefusesCases (WereMade cases) choice.now) }
{
    match cases {
        Ok(cases) => choose_cases(alloc, cases, choice),
        Err(NoMemory) => Err(RunFault::NoMemory),
    }
}

// The list of these, as an answer.
fn list_of_asked<B: Drop>(
    alloc: Global,
    cases: Result<Vec<Case<B>>, NoMemory>,
    choice: &Choice,
) -> Result<Answer, RunFault>
    ensures done { IfOk result (IsListed case_name (AreChosenOf case_name (WereMade cases) choice.now)) }
    ensures refused { IfErr result (RefusesCases (WereMade cases) choice.now) }
{
    let cases = asked(alloc, cases, choice)?;
    Ok(listed(alloc, cases.as_slice())?)
}

// Does with the test cases what the task asks for.
fn do_task<R, B: Callable, W: Write, E: Write>(
    rt: &R,
    alloc: Global,
    cases: Result<Vec<Case<B>>, NoMemory>,
    task: &Task,
    writer: &mut W,
    errors: &mut E,
) -> Outcome
where
    R: Threads + Wait + Clock + Copy + Send + 'static,
    requires names { IfOk cases (λ v. All HasNames v.items) }
    requires of_cases { IsOfCases task.now }
    ensures { DoesCases B.outcome (WereMade cases) task.now (held_streams W.contents writer.old writer.new E.contents errors.old errors.new) result }
{
    let options = match task {
        Task::Run(options) => options,
        Task::List {
            choice,
            explains: _,
        } => {
            return match list_of_asked(alloc, cases, choice) {
                Ok(answer) => give_answer(alloc, &answer, writer, errors),
                Err(fault) => refuse(alloc, errors, fault),
            };
        }
        _ => unreachable!(),
    };
    let cases = match asked(alloc, cases, &options.choice) {
        Ok(cases) => cases,
        Err(fault) => return refuse(alloc, errors, fault),
    };
    match run_cases(rt, alloc, cases, options, writer, errors) {
        Ok(outcome) => outcome,
        Err(fault) => refuse(alloc, errors, fault_of(fault)),
    }
}

/// Does with test cases what the arguments ask for, the first of which is the program's name: what `ttrun run` does with
/// those of a script, by the same options, except those of a text. The arguments, or the test cases, may not be
/// available.
pub fn answer_cases<R, B: Callable, W: Write, E: Write>(
    rt: &R,
    alloc: Global,
    words: io::Result<Vec<String>>,
    cases: Result<Vec<Case<B>>, NoMemory>,
    writer: &mut W,
    errors: &mut E,
) -> Outcome
where
    R: Threads + Wait + Clock + Copy + Send + 'static,
    requires names { IfOk cases (λ v. All HasNames v.items) }
    ensures had { IfOk words (λ given. IsAnsweredWithCases B.outcome (WereMade cases) (map string_bytes given.items)
        (held_streams W.contents writer.old writer.new E.contents errors.old errors.new) (writer.new ≡ writer.old) result) }
    ensures not_had { IfErr words (λ error. IsUnreadInput (error_kind error) (E.contents errors.old) (E.contents errors.new) result) }
    ensures unwritten { OnErr words (writer.new ≡ writer.old) }
{
    let words = match words {
        Ok(words) => words,
        Err(error) => return answer_unread(alloc, &error, errors),
    };
    match read_cases_task(alloc, words.as_slice()) {
        Ok(task) => do_task(rt, alloc, cases, &task, writer, errors),
        Err(refused) => answer_refused(alloc, &refused, writer, errors),
    }
}
