//! The arguments of a program with test cases of its own.
ghost use Rattle.std.specs.Prelude.{◌≡◌, IfOk, map, string_bytes};
ghost use Rattle.clap.specs.Words.{app_of};
ghost use Rattle.tc_command.specs.{Asked.IsCasesReading, Command.cases_app};

use crate::command::{RUN_OPTIONS, Subcommand, VERSION, with_options};
use crate::read::{Refused, subcommand_task};
use crate::refusal::told_by;
use crate::task::Task;
use clap::Command;
use std::alloc::{AllocError, Global};

// What its help says at its end.
const CASES_HELP: &str = "\
Standard output is the report. VERDICT is none, pass, inconc, fail or error. A
* in a NAME of --only stands for any letters, or none: --only 't_*'. --shard
K/N runs every N-th of the chosen test cases, from the K-th on. --list takes
no other option than --only and --shard, and --junit is not taken with --live.
Status: 0 for none and pass, 1 for inconc and fail, 2 for error, 3 for an
abort or a refusal.";

// The name of the program: the last part of the first argument.
fn program_name(words: &[String]) -> &str {
    let path = words.first().map_or("", |path| path.as_str());
    path.rsplit_once('/').map_or(path, |(_, name)| name)
}

// The command of the program of this name, with the version of this library.
fn cases_command<'a>(alloc: Global, name: &str) -> Result<Command<'a>, AllocError>
    ensures { IfOk result (λ c. app_of c ≡ cases_app) }
{
    let before_the_version = format!(in alloc; "{name}, with ttrun")?;
    let program = Command::new(alloc, "program")
        .about("runs the test cases of this program, and writes their report")
        .version(VERSION)
        .after_help(CASES_HELP)
        .display_name(before_the_version.as_str())?;
    with_options(alloc, program, Subcommand::Run, &RUN_OPTIONS[..12])
}

/// What the arguments of a program with test cases of its own ask for, the first of which is its name: what those of
/// `ttrun run` do, without the options that need a script. They are refused as `read_task` refuses them.
pub fn read_cases_task(alloc: Global, words: &[String]) -> Result<Task, Refused>
    ensures { IsCasesReading (map string_bytes words.entry.now) result }
{
    let mut command = cases_command(alloc, program_name(words))?;
    let matches = command.try_get_matches_from_mut(words)?;
    match subcommand_task(alloc, Subcommand::Run, &matches, false) {
        Ok(task) => Ok(task),
        Err(refusal) => Err(told_by(&mut command, refusal)?),
    }
}
