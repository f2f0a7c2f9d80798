//! The program's command, with its subcommands and their options.
ghost use Rattle.std.specs.Prelude.{◌≡◌, ◌∷◌, [], IfOk, codes, false, find};
ghost use Rattle.std.specs.Str.{bytes_eq};
ghost use Rattle.clap.specs.Words.{app_of, new_app, rule_of};
ghost use Rattle.clap.specs.declared.builder.command.Command.TheViews.{out-Command};
ghost use Rattle.tc_command.specs.{Command.app_of_subcommand, Command.offer_of, Command.option_rule, Command.subcommands, Command.ttrun, Command.with_options as and_options, Inside.GrowsBy, Inside.with_named};

use clap::{Arg, ArgAction, Command};
use std::alloc::{AllocError, Global};

/// The version of the program.
pub const VERSION: &str = "1.0.0";

// What the help of the program says at its end.
const PROGRAM_HELP: &str = "\
Each command reads standard input and writes standard output:
  ttrun run < FILE
No argument at all means run.

Status of run, serve, replay and report: 0 for none and pass, 1 for inconc and
fail, 2 for error.
Status of check: 0 if each history is legal.
Status of model: 0 if each chosen history has a model.
Status of explore: 0 if each test case has one verdict, 1 if one has several,
2 if one has no verdict but error.
3 says that a test case was aborted, a history is not legal, or a search met
its limit; or that the arguments or the input were refused, memory ran out, or
standard input or output failed: standard error says which.";

// What the help says of `run`, and at its end.
const RUN_HELP: (&str, &str) = (
    "runs the campaign of a script, and writes its report",
    "\
Standard input is a script: ttrun run < FILE. Standard output is the report.
With --failed it is a script, and after it histories or evidence of its test
cases: cat FILE EVIDENCE | ttrun run --failed runs those that are missing, are
not legal, or have a verdict other than none and pass. With --last only the
last of each name counts.

VERDICT is none, pass, inconc, fail or error. A * in NAME stands for any
letters, or none: --only 't_*'. --shard K/N runs every N-th of the chosen test
cases, from the K-th on. --list takes no form, no --live, no --progress and no
--stop-on, and --junit is not taken with --live.
Status: 0 for none and pass, 1 for inconc and fail, 2 for error, 3 for an
abort or a refusal.",
);

// What the help says of `explore`, and at its end.
const EXPLORE_HELP: (&str, &str) = (
    "looks for every overall verdict that a test case can have",
    "\
Standard input is a script: ttrun explore < FILE. Standard output is a line
for each test case: its name, the verdicts found, and how the search ended.
N is from 1 to 1000000, and 100000 without --states. --only, --shard and
--failed choose test cases as those of run do, with --last too.
Status: 0 if each test case has one verdict, 1 if one has several, 2 if one
has no verdict but error, 3 if a search met its limit, or for a refusal.",
);

// What the help says of `report`, and at its end.
const REPORT_HELP: (&str, &str) = (
    "reads histories, and writes them in one of these forms",
    "\
Standard input is histories or evidence: ttrun report --csv < FILE. Nothing is
written to standard output if one of them is not legal. --only and --failed
choose as those of check do, with --last too, but not for --html. With
--script the input is what check --script reads, and --only and --shard choose
as there. Test cases that are missing come last, and the lines of check
--script go to standard error. --long is as for check, without --text and
--html.
Status: 0 for none and pass, 1 for inconc and fail, 2 for error and for a test
case that is not over, 3 if a history is not legal, for such a line, or for a
refusal.",
);

// What the help says of `replay`, and at its end.
const REPLAY_HELP: (&str, &str) = (
    "replays a list of moves, and prints each reply and the verdict",
    "\
Standard input is a list of moves: ttrun replay < FILE. Standard output is a
line for each reply, and then the overall verdict.
Status: 0 for none and pass, 1 for inconc and fail, 2 for error, 3 for a
refusal.",
);

// What the help says of `check`, and at its end.
const CHECK_HELP: (&str, &str) = (
    "replays histories and evidence, and says which are legal",
    "\
Standard input is histories or evidence: ttrun check < FILE. Standard output
has a line for each, and none after the first that is not legal. --only, as
for run, and --failed leave out lines of legal ones. With --last only the last
of each name counts. With --long the input may have any length, and each
history 16 MiB; no fault is explained.
With --script the input is a script, and after it histories or evidence of its
test cases: cat FILE EVIDENCE | ttrun check --script. With --only and --shard,
as for run, it is as if the script had only these test cases. --failed is not
taken with it. After the lines of check a line says
  unknown NAME       the script has no test case NAME
  twice NAME         NAME came before
  out of order NAME  a later test case came before
  no course NAME     this is no complete course of the scripts of NAME
  missing NAME       there is nothing of NAME
Status: 0 if each history is legal, and with --script no such line is printed;
otherwise 3.",
);

// What the help says of `model`, and at its end.
const MODEL_HELP: (&str, &str) = (
    "writes a script of which histories and evidence are courses",
    "\
Standard input is histories or evidence: ttrun model < FILE. Standard output
is a script with a test case for each: ttrun explore says of it whether
another order of the same calls gives another verdict. --only, --failed,
--last and --long are as for check. Of a history that has no such script
standard error names the first line that none has, and says why.
Status: 0 if each chosen history has one; otherwise 3.",
);

// What the help says of `serve`, and at its end.
const SERVE_HELP: (&str, &str) = (
    "answers moves line by line, and writes evidence of the test cases",
    "\
Standard input is lines, each answered as soon as it has come:
  case NAME N       opens a test case of N behaviours, 1 to 256
  behaviour K NAME  names the behaviour of run K
  MOVE              a move of a list, but no wake: its reply
  B # TEXT          a remark of run B, 1 to 200 printable ASCII bytes
  end               closes the test case: its overall verdict
Standard output is evidence of the test cases. A refused line changes nothing;
outside a test case it ends the service.
Status: 0 for none and pass, 1 for inconc and fail, 2 for error and for a test
case that is not over, 3 for a refused line or a fault.",
);

/// What the program does, by its subcommands.
#[derive(Clone, Copy)]
pub(crate) enum Subcommand {
    Run,
    Serve,
    Explore,
    Check,
    Report,
    Model,
    Replay,
}

/// All of them.
pub(crate) const SUBCOMMANDS: [Subcommand; 7] = [
    Subcommand::Run,
    Subcommand::Serve,
    Subcommand::Explore,
    Subcommand::Check,
    Subcommand::Report,
    Subcommand::Model,
    Subcommand::Replay,
];

/// The names of options.
pub(crate) type Names = &'static [&'static str];

/// The options of `run`, the last two of which need a script.
pub(crate) const RUN_OPTIONS: [&str; 14] = [
    "csv", "history", "evidence", "junit", "suite", "times", "live", "progress", "stop-on", "list",
    "only", "shard", "failed", "last",
];

const EXPLORE_OPTIONS: [&str; 9] = [
    "history", "evidence", "details", "locals", "states", "only", "shard", "failed", "last",
];

// The options of histories next to their script, as `run` was given them.
const CHECK_OPTIONS: [&str; 6] = ["script", "only", "shard", "failed", "last", "long"];

const REPORT_OPTIONS: [&str; 12] = [
    "text", "csv", "junit", "suite", "html", "summary", "script", "only", "shard", "failed",
    "last", "long",
];

const MODEL_OPTIONS: [&str; 4] = ["only", "failed", "last", "long"];

impl Subcommand {
    /// Its name.
    pub(crate) fn name(self) -> &'static str
        ensures { result.now ≡ (offer_of self).0 }
    {
        match self {
            Subcommand::Run => "run",
            Subcommand::Serve => "serve",
            Subcommand::Explore => "explore",
            Subcommand::Check => "check",
            Subcommand::Report => "report",
            Subcommand::Model => "model",
            Subcommand::Replay => "replay",
        }
    }
}

/// The subcommand of this name.
pub(crate) fn subcommand_named(name: &str) -> Option<Subcommand>
    ensures { result ≡ find (λ s. bytes_eq (offer_of s).0 name.now) subcommands }
{
    SUBCOMMANDS.iter().copied().find(|it| it.name() == name)
}

// What the help of `run` says of an option; of those of its script what that of `explore` does.
fn run_help(name: &str) -> &'static str {
    match name {
        "csv" => "writes the report as CSV",
        "history" => "writes the histories of the test cases",
        "evidence" => "writes histories with the names of behaviours",
        "junit" => "writes the report as a JUnit suite",
        "times" => "gives the JUnit suite times",
        "live" => "writes each test case as it finishes",
        "progress" => "reports all, or failures, on standard error",
        "stop-on" => "ends after a test case of this verdict or worse",
        "list" => "prints the names of test cases, and runs none",
        "only" => "runs this test case; may be given several times",
        "shard" => "runs the K-th of N shards of the test cases",
        _ => explore_help(name),
    }
}

// What the help of `explore` says of an option.
fn explore_help(name: &str) -> &'static str {
    match name {
        "history" => "writes a history for each verdict that was found",
        "evidence" => "writes these histories with the names of behaviours",
        "details" => "says where schedules part and who waits for whom",
        "locals" => "says which local verdicts are not always the same",
        "states" => "looks at N states of a test case at most",
        "only" => "explores this test case; may be given again, for others",
        "shard" => "explores the K-th of N shards of the test cases",
        "failed" => "leaves out what passed by evidence in the input",
        _ => history_help(name),
    }
}

// What the help of the other subcommands says of an option.
fn history_help(name: &str) -> &'static str {
    match name {
        "text" => "writes the text report",
        "csv" => "writes a table as CSV",
        "junit" => "writes a JUnit suite",
        "suite" => "calls the JUnit suite NAME instead of ttrun",
        "html" => "writes a page for a browser",
        "summary" => "writes the counts, and why test cases failed",
        "script" => "reads their script first, and compares them with it",
        "only" => "chooses this test case; may be given again, for others",
        "shard" => "awaits the K-th of N shards of the test cases",
        "failed" => "leaves out what has the verdict none or pass",
        "last" => "counts only the last history of each name",
        "long" => "takes any number of histories, 16 MiB each at most",
        "explain" => "says more of the fault of a refused text",
        "no-explain" => "says no more of it, also at a terminal",
        _ => "",
    }
}

fn help_of(subcommand: Subcommand, name: &str) -> &'static str {
    match subcommand {
        Subcommand::Run => run_help(name),
        Subcommand::Explore => explore_help(name),
        _ => history_help(name),
    }
}

// The option of this name, of which the help says this.
fn option_of<'a>(alloc: Global, name: &'a str, help: &'a str) -> Arg<'a>
    ensures rule { rule_of result ≡ option_rule name.entry.now }
    ensures local { result.global ≡ false }
{
    let option = Arg::new(alloc, name).long(name).help(help);
    match name {
        "only" => option.value_name("NAME").action(ArgAction::Append),
        "progress" => option
            .value_name("failures")
            .num_args(..=1)
            .action(ArgAction::Set),
        "suite" => option.value_name("NAME").action(ArgAction::Set),
        "stop-on" => option.value_name("VERDICT").action(ArgAction::Set),
        "states" => option.value_name("N").action(ArgAction::Set),
        "shard" => option.value_name("K/N").action(ArgAction::Set),
        _ => option.action(ArgAction::SetTrue),
    }
}

/// The command with the options of these names more.
pub(crate) fn with_options<'a>(
    alloc: Global,
    mut command: Command<'a>,
    subcommand: Subcommand,
    names: &[&'static str],
) -> Result<Command<'a>, AllocError>
    ensures { IfOk result (GrowsBy (with_named names.now) command.entry) }
{
    for name in names {
        command = command.arg(option_of(alloc, name, help_of(subcommand, name)))?;
    }
    Ok(command)
}

// The command of a subcommand that has these options, and those of explanations. The help says the first text of it,
// and the other at its end.
fn offered<'a>(
    alloc: Global,
    subcommand: Subcommand,
    help: (&'a str, &'a str),
    names: &[&'static str],
) -> Result<Command<'a>, AllocError>
    ensures options { IfOk result (λ c. app_of c ≡ and_options
        (with_named names.now (new_app (offer_of subcommand).0)) (codes "explain" ∷ codes "no-explain" ∷ [])) }
    ensures local { IfOk result (λ c. (out-Command c).has_globals ≡ false) }
{
    let command = Command::new(alloc, subcommand.name())
        .about(help.0)
        .after_help(help.1);
    let command = with_options(alloc, command, subcommand, names)?;
    with_options(alloc, command, subcommand, &["explain", "no-explain"])
}

fn subcommand_of<'a>(alloc: Global, subcommand: Subcommand) -> Result<Command<'a>, AllocError>
    ensures options { IfOk result (λ c. app_of c ≡ app_of_subcommand subcommand) }
    ensures local { IfOk result (λ c. (out-Command c).has_globals ≡ false) }
{
    match subcommand {
        Subcommand::Run => offered(alloc, subcommand, RUN_HELP, &RUN_OPTIONS),
        Subcommand::Serve => Ok(
            Command::new(alloc, "serve")
                .about(SERVE_HELP.0)
                .after_help(SERVE_HELP.1),
        ),
        Subcommand::Explore => offered(alloc, subcommand, EXPLORE_HELP, &EXPLORE_OPTIONS),
        Subcommand::Check => offered(alloc, subcommand, CHECK_HELP, &CHECK_OPTIONS),
        Subcommand::Report => offered(alloc, subcommand, REPORT_HELP, &REPORT_OPTIONS),
        Subcommand::Model => offered(alloc, subcommand, MODEL_HELP, &MODEL_OPTIONS),
        Subcommand::Replay => offered(alloc, subcommand, REPLAY_HELP, &[]),
    }
}

/// The command of the subcommand, with the program's name in its usage.
pub(crate) fn usage_command<'a>(
    alloc: Global,
    subcommand: Subcommand,
) -> Result<Command<'a>, AllocError> {
    let usage = format!(in alloc; "ttrun {}", subcommand.name())?;
    subcommand_of(alloc, subcommand)?.bin_name(usage.as_str())
}

/// The command with its subcommands.
pub(crate) fn command<'a>(alloc: Global) -> Result<Command<'a>, AllocError>
    ensures { IfOk result (λ c. app_of c ≡ ttrun) }
{
    let mut program = Command::new(alloc, "ttrun")
        .about("the component control runtime of a TTCN-3 test executor")
        .version(VERSION)
        .after_help(PROGRAM_HELP);
    for subcommand in &SUBCOMMANDS {
        program = program.subcommand(subcommand_of(alloc, *subcommand)?)?;
    }
    Ok(program)
}
