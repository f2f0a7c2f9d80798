//! The arguments, and the task that they ask for.
ghost use Rattle.std.specs.Prelude.{◌≡◌, [], ◌&&◌, IfOk, IfErr, OnOk, None, codes, false, is_none, is_some, map, not, option_copied, string_bytes, unwrap_or};
ghost use Rattle.std.specs.List.{list_any};
ghost use Rattle.clap.specs.Takes.{is_given};
ghost use Rattle.clap.specs.Words.{all_of, first_of, found_of, kind_of, rows_of, subcommand_rows_of};
ghost use Rattle.clap.specs.declared.error.{Error.Error as ClapError, kind.ErrorKind.TheVariants.OutOfMemory};
ghost use Rattle.tc_command.specs.{Asked.Asks, Asked.Chooses, Asked.IsReadAs, Asked.IsReading, Asked.command_line_of, Asked.form_of, Asked.is_explained, Asked.lacks_option, Asked.lacks_script as spec_lacks_script, Asked.option_faults, Asked.report_form_of, Inside.AreValues, Inside.IsRefusedBy, Inside.IsTaken, Inside.IsWordRefused, declared.command.Subcommand.TheVariants.Check, declared.command.Subcommand.TheVariants.Explore, declared.command.Subcommand.TheVariants.Report, declared.command.Subcommand.TheVariants.Run, declared.read.Refused.Refused};

use crate::command::{Names, Subcommand, command, subcommand_named, usage_command};
use crate::refusal::{Refusal, told_by};
use crate::stray::with_tip;
use crate::task::{Choice, ExploreOptions, Form, ReportForm, RunOptions, Task};
use crate::word::{self, WordFault};
use clap::error::ErrorKind;
use clap::parser::ValueSource;
use clap::{ArgMatches, Error};
use std::alloc::{AllocError, Global};
use tc_entry::Name;
use tc_verdict::Verdict;

/// Why arguments ask for no task.
#[derive(Drop)]
pub enum Refused {
    /// They ask for help or for the version, or are refused, or memory ran out.
    Line(Error),
    /// The value of an option names nothing.
    Word(WordFault),
}

impl From<Error> for Refused {
    ghost from_gives = { λ error r. r ≡ Refused.Line error };

    fn from(error: Error) -> Refused {
        Refused::Line(error)
    }
}

impl From<AllocError> for Refused {
    ghost from_gives = { λ _ r. (e : ClapError) × (r ≡ Refused.Line e) × (kind_of e ≡ OutOfMemory) };

    fn from(error: AllocError) -> Refused {
        Refused::Line(Error::from(error))
    }
}

// Options with others that exclude them. A subcommand that lacks one of them is never given both. The definition of
// what is refused has this table from here.
const APART: [(&str, Names); 16] = [
    ("explain", &["no-explain"]),
    ("text", &["csv", "junit", "html", "summary"]),
    ("csv", &["history", "evidence", "junit", "html", "summary"]),
    ("history", &["evidence", "junit"]),
    ("evidence", &["junit"]),
    ("junit", &["html", "summary"]),
    ("html", &["summary", "failed", "last"]),
    ("script", &["failed", "long"]),
    ("text", &["long"]),
    ("html", &["long"]),
    ("explain", &["long"]),
    ("history", &["details", "locals"]),
    ("evidence", &["details", "locals"]),
    ("list", &["csv", "history", "evidence", "junit"]),
    ("list", &["live", "progress", "stop-on"]),
    ("junit", &["live"]),
];

// Whether the arguments have this option.
#[tactic(auto, using(crate::proofs::Options::given_of))]
fn has_option(matches: &ArgMatches<'_>, id: &str) -> bool
    ensures { result ≡ is_given id.now (rows_of (found_of matches.now)) }
{
    match matches.value_source(id) {
        Some(source) => matches!(source, ValueSource::CommandLine),
        None => matches.contains_id(id),
    }
}

// The first of these options that is given.
fn one_of(options: &ArgMatches<'_>, names: &[&'static str]) -> Option<&'static str>
    ensures { is_some result ≡ list_any (λ n. is_given n.now (rows_of (found_of options.now))) names.now }
{
    for name in names {
        if has_option(options, name) {
            return Some(name);
        }
    }
    None
}

// The first of these options that is given with one that is listed after it, and that one.
fn apart(
    options: &ArgMatches<'_>,
    rows: &[(&'static str, Names)],
) -> Option<(&'static str, &'static str)>
    ensures { is_some result ≡ list_any (λ p. is_given p.0.now (rows_of (found_of options.now))
        && list_any (λ o. is_given o.now (rows_of (found_of options.now))) p.1.now) rows.now }
{
    for (first, others) in rows {
        if has_option(options, first)
            && let Some(second) = one_of(options, others)
        {
            return Some((first, second));
        }
    }
    None
}

// Whether the first of these options is given, without the second.
fn lacks(options: &ArgMatches<'_>, first: &str, second: &str) -> bool
    ensures { result ≡ (is_given first.now (rows_of (found_of options.now))
        && not (is_given second.now (rows_of (found_of options.now)))) }
{
    has_option(options, first) && !has_option(options, second)
}

// Whether faults are explained: if that is asked for, and at a terminal unless it is declined.
fn explains(options: &ArgMatches<'_>, at_terminal: bool) -> bool
    ensures { result ≡ is_explained at_terminal (rows_of (found_of options.now)) }
{
    has_option(options, "explain") || (at_terminal && !has_option(options, "no-explain"))
}

// The value of this option, the first if it has more.
#[tactic(auto, using(crate::proofs::Options::first_word))]
fn word_of<'a>(options: &ArgMatches<'a>, id: &str) -> Option<&'a str>
    ensures { option_copied result ≡ first_of id.now (rows_of (found_of options.now)) }
{
    options.get_str(id)
}

// The form that the options of `run` ask for, with the name of the suite.
fn form(options: &ArgMatches<'_>, suite: Option<Name>) -> Form
    requires { suite ≡ first_of (codes "suite") (rows_of (found_of options.now)) }
    ensures { result ≡ form_of (rows_of (found_of options.now)) }
{
    if has_option(options, "csv") {
        Form::Csv
    } else if has_option(options, "history") {
        Form::History
    } else if has_option(options, "evidence") {
        Form::Evidence
    } else if has_option(options, "junit") {
        Form::Junit(suite)
    } else {
        Form::Text
    }
}

// The form that the options of `report` ask for, if they ask for one, with the name of the suite.
fn report_form(options: &ArgMatches<'_>, suite: Option<Name>) -> Option<ReportForm>
    ensures is { suite ≡ first_of (codes "suite") (rows_of (found_of options.now))
        → result ≡ report_form_of (rows_of (found_of options.now)) }
    ensures none { is_none result ≡ is_none (report_form_of (rows_of (found_of options.now))) }
{
    if has_option(options, "text") {
        Some(ReportForm::Text)
    } else if has_option(options, "csv") {
        Some(ReportForm::Csv)
    } else if has_option(options, "junit") {
        Some(ReportForm::Junit(suite))
    } else if has_option(options, "html") {
        Some(ReportForm::Html)
    } else if has_option(options, "summary") {
        Some(ReportForm::Summary)
    } else {
        None
    }
}

// The values of this option.
#[tactic(auto, using(crate::proofs::Options::words_are, crate::proofs::Options::no_words))]
fn words_of<'a>(options: &'a ArgMatches<'_>, id: &str) -> &'a [&'a str]
    ensures { map (λ w. w.now) result.now ≡ unwrap_or (all_of id.now (rows_of (found_of options.now))) [] }
{
    options.get_strs(id).unwrap_or(&[])
}

// What the values of the options name, and which test cases they choose.
#[derive(Drop)]
struct Values {
    choice: Choice,
    suite: Option<Name>,
    stop_on: Option<Verdict>,
    failures: bool,
    states: usize,
}

// It, or the first value that names nothing.
fn values_of(alloc: Global, options: &ArgMatches<'_>) -> Result<Values, Refusal>
    ensures taken { IfOk result (AreValues (rows_of (found_of options.now))) }
    ensures refused { IfErr result (IsWordRefused (rows_of (found_of options.now))) }
{
    let shard = word::shard(word_of(options, "shard"))?;
    let only = word::patterns(alloc, words_of(options, "only"))?;
    let suite = word::suite(word_of(options, "suite"))?;
    let stop_on = word::stop_on(word_of(options, "stop-on"))?;
    let failures = word::failures(word_of(options, "progress"))?;
    let states = word::states(word_of(options, "states"))?;
    Ok(Values {
        choice: Choice {
            only,
            shard,
            failed: has_option(options, "failed"),
            last: has_option(options, "last"),
            long: has_option(options, "long"),
        },
        suite,
        stop_on,
        failures,
        states,
    })
}

// What the options of `run` ask for.
fn run_task(options: &ArgMatches<'_>, values: Values, at_terminal: bool) -> Task
    requires { AreValues (rows_of (found_of options.now)) values }
    ensures { Asks at_terminal (Run, rows_of (found_of options.now)) result }
{
    let explains = explains(options, at_terminal);
    let choice = values.choice;
    if has_option(options, "list") {
        return Task::List { choice, explains };
    }
    Task::Run(RunOptions {
        form: form(options, values.suite),
        times: has_option(options, "times"),
        live: has_option(options, "live"),
        progress: has_option(options, "progress"),
        failures: values.failures,
        stop_on: values.stop_on,
        choice,
        explains,
    })
}

// What the options of `explore` ask for.
fn explore_task(options: &ArgMatches<'_>, values: Values, at_terminal: bool) -> Task
    requires { AreValues (rows_of (found_of options.now)) values }
    ensures { Asks at_terminal (Explore, rows_of (found_of options.now)) result }
{
    Task::Explore(ExploreOptions {
        histories: has_option(options, "history"),
        evidence: has_option(options, "evidence"),
        details: has_option(options, "details"),
        locals: has_option(options, "locals"),
        states: values.states,
        choice: values.choice,
        explains: explains(options, at_terminal),
    })
}

// What the options of `check` ask for, or those of `report` in this form, with what they choose.
fn judging(
    options: &ArgMatches<'_>,
    at_terminal: bool,
    form: Option<ReportForm>,
    choice: Choice,
) -> Task
    requires { Chooses (rows_of (found_of options.now)) choice }
    ensures check { form ≡ None → Asks at_terminal (Check, rows_of (found_of options.now)) result }
    ensures report { is_none form ≡ false → report_form_of (rows_of (found_of options.now)) ≡ form
        → Asks at_terminal (Report, rows_of (found_of options.now)) result }
{
    let explains = explains(options, at_terminal);
    if has_option(options, "script") {
        return Task::Compare {
            form,
            choice,
            explains,
        };
    }
    match form {
        Some(form) => Task::Report {
            form,
            choice,
            explains,
        },
        None => Task::Check { choice, explains },
    }
}

// Whether a shard is chosen, or what is on a page, and there is no script.
fn lacks_script(options: &ArgMatches<'_>) -> bool
    ensures { result ≡ spec_lacks_script (rows_of (found_of options.now)) }
{
    lacks(options, "shard", "script")
        || (has_option(options, "html") && lacks(options, "only", "script"))
}

// What is said of the options of this subcommand that lack one that they need.
fn lacking(subcommand: Subcommand, options: &ArgMatches<'_>) -> Option<&'static str>
    ensures { is_some result ≡ lacks_option subcommand (rows_of (found_of options.now)) }
{
    let reports = matches!(subcommand, Subcommand::Report);
    let reads_script = !matches!(subcommand, Subcommand::Check | Subcommand::Model) && !reports;
    if (reports || matches!(subcommand, Subcommand::Check)) && lacks_script(options) {
        Some("the arguments '--shard', and '--only' with '--html', need '--script'")
    } else if reports && report_form(options, None).is_none() {
        Some(
            "one of the arguments '--text', '--csv', '--junit', '--html' and '--summary' is needed",
        )
    } else if (reports || reads_script) && lacks(options, "suite", "junit") {
        Some("the argument '--suite' needs '--junit'")
    } else if reads_script && lacks(options, "times", "junit") {
        Some("the argument '--times' needs '--junit'")
    } else if reads_script && lacks(options, "last", "failed") {
        Some("the argument '--last' needs '--failed'")
    } else {
        None
    }
}

// Refuses options that exclude each other, or lack one that they need.
fn refuse(alloc: Global, subcommand: Subcommand, options: &ArgMatches<'_>) -> Result<(), Refusal>
    ensures none { OnOk result (option_faults (subcommand, rows_of (found_of options.now)) ≡ []) }
    ensures some { IfErr result (IsRefusedBy (subcommand, rows_of (found_of options.now))) }
{
    if let Some((first, second)) = apart(options, &APART) {
        let text = format!(in alloc; "the argument '--{first}' cannot be used with '--{second}'")?;
        return Err(Refusal::Options(ErrorKind::ArgumentConflict, text));
    }
    match lacking(subcommand, options) {
        Some(text) => {
            let text = format!(in alloc; "{text}")?;
            Err(Refusal::Options(ErrorKind::MissingRequiredArgument, text))
        }
        None => Ok(()),
    }
}

/// What a subcommand with its options asks for.
#[tactic(auto, using(crate::proofs::Options::has_form))]
pub(crate) fn subcommand_task(
    alloc: Global,
    subcommand: Subcommand,
    options: &ArgMatches<'_>,
    at_terminal: bool,
) -> Result<Task, Refusal>
    ensures taken { IfOk result (IsTaken at_terminal (subcommand, rows_of (found_of options.now))) }
    ensures refused { IfErr result (IsRefusedBy (subcommand, rows_of (found_of options.now))) }
{
    refuse(alloc, subcommand, options)?;
    let values = values_of(alloc, options)?;
    Ok(match subcommand {
        Subcommand::Run => run_task(options, values, at_terminal),
        Subcommand::Explore => explore_task(options, values, at_terminal),
        Subcommand::Report => {
            let form = report_form(options, values.suite);
            judging(options, at_terminal, form, values.choice)
        }
        Subcommand::Check => judging(options, at_terminal, None, values.choice),
        Subcommand::Model => Task::Model {
            choice: values.choice,
            explains: explains(options, at_terminal),
        },
        Subcommand::Replay => Task::Replay {
            explains: explains(options, at_terminal),
        },
        Subcommand::Serve => Task::Serve,
    })
}

// What the line asks for.
fn line_task(alloc: Global, matches: &ArgMatches<'_>, at_terminal: bool) -> Result<Task, Refused>
    ensures { IsReadAs at_terminal [] (command_line_of (rows_of (found_of matches.now)) (subcommand_rows_of matches.now)) result }
{
    let (name, options) = matches.subcommand().unwrap_or(("run", matches));
    let subcommand = subcommand_named(name).unwrap_or(Subcommand::Run);
    match subcommand_task(alloc, subcommand, options, at_terminal) {
        Ok(task) => Ok(task),
        Err(refusal) => Err(told_by(&mut usage_command(alloc, subcommand)?, refusal)?),
    }
}

/// What the arguments ask for, the first of which is the program's name; with no further one it is `run`. An error of
/// the kind DisplayHelp answers arguments that ask for help, one of the kind DisplayVersion those that ask for the
/// version, any other one arguments that are refused. If each option may be given, and the value of one names nothing,
/// that value is refused. Faults are explained at a terminal, unless that is declined; elsewhere if it is asked for.
pub fn read_task(alloc: Global, words: &[String], at_terminal: bool) -> Result<Task, Refused>
    ensures { IsReading at_terminal (map string_bytes words.entry.now) result }
{
    let mut command = command(alloc)?;
    match command.try_get_matches_from_mut(words) {
        Ok(matches) => line_task(alloc, &matches, at_terminal),
        Err(error) => Err(Refused::Line(with_tip(alloc, &mut command, words, error)?)),
    }
}
