//! Lines of words, and the task that each asks for.
use crate::calls::task_at;
use crate::checks::is;
use std::alloc::{AllocError, Global};
use std::process::Abort;
use std::str;
use std::test::Fail;
use tc_command::{Choice, ExploreOptions, Form, ReportForm, RunOptions, Task};
use tc_entry::Name;
use tc_verdict::name;

/// After each line its task, with each option in one place. Without words the campaign is run.
const LINES: &str = "\
ttrun => run
 => run
ttrun -- => run
ttrun check => check
ttrun check -- => check
ttrun replay => replay
another-name replay => replay
ttrun run => run
ttrun run --csv => run --csv
ttrun run --history => run --history
ttrun run --evidence => run --evidence
ttrun run --junit => run --junit
ttrun run --suite nightly --junit => run --junit --suite=nightly
ttrun run --junit --times => run --junit --times
ttrun run --times --suite a --progress --junit => run --junit --suite=a --times --progress
ttrun run --stop-on fail => run --stop-on=fail
ttrun run --stop-on=fail => run --stop-on=fail
ttrun run --csv --stop-on none => run --csv --stop-on=none
ttrun run --stop-on none --csv => run --csv --stop-on=none
ttrun run --stop-on error --history => run --history --stop-on=error
ttrun run --history --stop-on=error -- => run --history --stop-on=error
ttrun run --stop-on=fail --junit => run --junit --stop-on=fail
ttrun run --live => run --live
ttrun run --live -- => run --live
ttrun run --live --csv => run --csv --live
ttrun run --history --live => run --history --live
ttrun run --live --evidence --progress => run --evidence --live --progress
ttrun run --stop-on fail --live --history => run --history --live --stop-on=fail
ttrun run --progress => run --progress
ttrun run --csv --progress --live --stop-on fail => run --csv --live --progress --stop-on=fail
ttrun run --junit --progress => run --junit --progress
ttrun run --csv --progress=failures => run --csv --progress=failures
ttrun run --progress failures --only a => run --progress=failures --only=a
ttrun run --only a => run --only=a
ttrun run --only b --only=a --only b => run --only=b --only=a --only=b
ttrun run --shard 1/2 --csv => run --csv --shard=1/2
ttrun run --shard=2/3 --only a => run --only=a --shard=2/3
ttrun run --list => run --list
ttrun run --list --only a --only b => run --list --only=a --only=b
ttrun run --shard 4294967295/4294967295 --list => run --list --shard=4294967295/4294967295
ttrun run --failed => run --failed
ttrun run --failed --csv --shard 1/2 --live => run --csv --live --shard=1/2 --failed
ttrun run --only a --list --failed => run --list --only=a --failed
ttrun run --explain => run --explain
ttrun run --csv --explain --live --stop-on fail => run --csv --live --stop-on=fail --explain
ttrun run --only a* --only *b_* => run --only=a* --only=*b_*
ttrun run --list --explain => run --list --explain
ttrun run --failed --explain => run --failed --explain
ttrun run --last --failed => run --failed --last
ttrun run --list --failed --last => run --list --failed --last
ttrun run --no-explain => run
ttrun check --explain => check --explain
ttrun check --no-explain => check
ttrun check --only a --only=b* => check --only=a --only=b*
ttrun check --failed --explain => check --failed --explain
ttrun check --failed --only a => check --only=a --failed
ttrun check --last => check --last
ttrun check --long --last => check --last --long
ttrun check --script --last => check --script --last
ttrun check --script --explain => check --script --explain
ttrun check --script => check --script
ttrun check --shard 2/3 --script --only b --only a => check --script --only=b --only=a --shard=2/3
ttrun model => model
ttrun model --last --only a* --failed --only b => model --only=a* --only=b --failed --last
ttrun model --explain --last => model --last --explain
ttrun model --long --last => model --last --long
ttrun replay --explain => replay --explain
ttrun report --explain --junit => report --junit --explain
ttrun report --explain --script --csv --only a* => report --csv --script --only=a* --explain
ttrun report --csv => report --csv
ttrun report --text => report --text
ttrun report --script --only a --text => report --text --script --only=a
ttrun report --junit => report --junit
ttrun report --junit --suite=A_1 => report --junit --suite=A_1
ttrun report --summary => report --summary
ttrun report --failed --summary => report --summary --failed
ttrun report --last --summary --failed => report --summary --failed --last
ttrun report --script --last --csv => report --csv --script --last
ttrun report --long --junit --only a => report --junit --only=a --long
ttrun report --only a --csv --failed --only b => report --csv --only=a --only=b --failed
ttrun report --html --script --only a => report --html --script --only=a
ttrun report --summary --script --only a => report --summary --script --only=a
ttrun report --html => report --html
ttrun report --script --csv => report --csv --script
ttrun report --shard=1/2 --junit --only a --script => report --junit --script --only=a --shard=1/2
ttrun serve => serve
ttrun serve -- => serve
ttrun explore => explore --states=100000
ttrun explore --history => explore --history --states=100000
ttrun explore --states 7 => explore --states=7
ttrun explore --states=1000000 --history => explore --history --states=1000000
ttrun explore --evidence --states 7 => explore --evidence --states=7
ttrun explore --details => explore --details --states=100000
ttrun explore --states 7 --details => explore --details --states=7
ttrun explore --locals => explore --locals --states=100000
ttrun explore --locals --states 7 --details => explore --details --locals --states=7
ttrun explore --explain => explore --states=100000 --explain
ttrun explore --shard 1/3 --only a --only b* --failed => explore --states=100000 --only=a --only=b* --shard=1/3 --failed
ttrun explore --last --failed => explore --states=100000 --failed --last
ttrun explore --states 7 --explain --only a --history => explore --history --states=7 --only=a --explain";

/// The same at a terminal.
const AT_TERMINAL: &str = "\
ttrun => run --explain
ttrun run => run --explain
ttrun run --explain => run --explain
ttrun run --no-explain => run
ttrun run --no-explain --csv --failed => run --csv --failed
ttrun run --list => run --list --explain
ttrun run --no-explain --list => run --list
ttrun check => check --explain
ttrun check --no-explain => check
ttrun check --long => check --long --explain
ttrun check --script => check --script --explain
ttrun check --no-explain --script => check --script
ttrun model => model --explain
ttrun model --no-explain => model
ttrun replay => replay --explain
ttrun replay --no-explain => replay
ttrun report --csv => report --csv --explain
ttrun report --no-explain --csv => report --csv
ttrun report --script --csv => report --csv --script --explain
ttrun explore => explore --states=100000 --explain
ttrun explore --no-explain => explore --states=100000
ttrun serve => serve";

fn append_if(out: &mut String, is_given: bool, option: &str) -> Result<(), AllocError> {
    if is_given {
        out.push_str(option)
    } else {
        Ok(())
    }
}

fn append_names(out: &mut String, choice: &Choice) -> Result<(), Fail> {
    for name in &choice.only {
        write!(out, " --only={}", str::from_utf8(name.bytes())?)?;
    }
    Ok(())
}

fn append_choice(out: &mut String, choice: &Choice) -> Result<(), Fail> {
    append_names(out, choice)?;
    if let Some(shard) = choice.shard {
        let number = shard.place().saturating_add(1);
        write!(out, " --shard={number}/{}", shard.shards())?;
    }
    append_if(out, choice.failed, " --failed")?;
    append_if(out, choice.last, " --last")?;
    Ok(append_if(out, choice.long, " --long")?)
}

fn append_suite(out: &mut String, suite: &Option<Name>) -> Result<(), Fail> {
    if let Some(name) = suite {
        write!(out, " --suite={}", str::from_utf8(name.bytes())?)?;
    }
    Ok(())
}

fn append_form(out: &mut String, form: &Form) -> Result<(), Fail> {
    match form {
        Form::Text => Ok(out.push_str("run")?),
        Form::Csv => Ok(out.push_str("run --csv")?),
        Form::History => Ok(out.push_str("run --history")?),
        Form::Evidence => Ok(out.push_str("run --evidence")?),
        Form::Junit(suite) => {
            out.push_str("run --junit")?;
            append_suite(out, suite)
        }
    }
}

fn append_rule(out: &mut String, options: &RunOptions) -> Result<(), AllocError> {
    match options.stop_on {
        Some(verdict) => write!(out, " --stop-on={}", name(verdict)),
        None => Ok(()),
    }
}

fn append_run(out: &mut String, options: &RunOptions) -> Result<(), Fail> {
    append_form(out, &options.form)?;
    append_if(out, options.times, " --times")?;
    append_if(out, options.live, " --live")?;
    append_if(out, options.progress, " --progress")?;
    append_if(out, options.failures, "=failures")?;
    append_rule(out, options)?;
    append_choice(out, &options.choice)?;
    append_explains(out, options.explains)
}

fn append_explains(out: &mut String, explains: bool) -> Result<(), Fail> {
    Ok(append_if(out, explains, " --explain")?)
}

fn append_list(out: &mut String, choice: &Choice) -> Result<(), Fail> {
    out.push_str("run --list")?;
    append_choice(out, choice)
}

fn append_report(out: &mut String, form: &ReportForm) -> Result<(), Fail> {
    match form {
        ReportForm::Text => Ok(out.push_str("report --text")?),
        ReportForm::Csv => Ok(out.push_str("report --csv")?),
        ReportForm::Junit(suite) => {
            out.push_str("report --junit")?;
            append_suite(out, suite)
        }
        ReportForm::Html => Ok(out.push_str("report --html")?),
        ReportForm::Summary => Ok(out.push_str("report --summary")?),
    }
}

fn append_script(out: &mut String, form: &Option<ReportForm>, choice: &Choice) -> Result<(), Fail> {
    match form {
        None => out.push_str("check")?,
        Some(form) => append_report(out, form)?,
    }
    out.push_str(" --script")?;
    append_choice(out, choice)
}

fn append_explaining(out: &mut String, word: &str, explains: bool) -> Result<(), Fail> {
    out.push_str(word)?;
    append_explains(out, explains)
}

fn append_chosen(out: &mut String, choice: &Choice, explains: bool) -> Result<(), Fail> {
    append_choice(out, choice)?;
    append_explains(out, explains)
}

fn append_explore(out: &mut String, options: &ExploreOptions) -> Result<(), Fail> {
    out.push_str("explore")?;
    append_if(out, options.histories, " --history")?;
    append_if(out, options.evidence, " --evidence")?;
    append_if(out, options.details, " --details")?;
    append_if(out, options.locals, " --locals")?;
    write!(out, " --states={}", options.states)?;
    append_choice(out, &options.choice)?;
    append_explains(out, options.explains)
}

/// Appends a line that asks for the task.
fn append_task(out: &mut String, task: &Task) -> Result<(), Fail> {
    match task {
        Task::Replay { explains } => append_explaining(out, "replay", *explains),
        Task::Check { choice, explains } => {
            out.push_str("check")?;
            append_chosen(out, choice, *explains)
        }
        Task::Model { choice, explains } => {
            out.push_str("model")?;
            append_chosen(out, choice, *explains)
        }
        Task::Compare {
            form,
            choice,
            explains,
        } => {
            append_script(out, form, choice)?;
            append_explains(out, *explains)
        }
        Task::Run(options) => append_run(out, options),
        Task::Serve => Ok(out.push_str("serve")?),
        Task::List { choice, explains } => {
            append_list(out, choice)?;
            append_explains(out, *explains)
        }
        Task::Report {
            form,
            choice,
            explains,
        } => {
            append_report(out, form)?;
            append_chosen(out, choice, *explains)
        }
        Task::Explore(options) => append_explore(out, options),
    }
}

fn is_row(rt: &impl Abort, alloc: Global, at_terminal: bool, row: &str) -> Result<(), Fail> {
    let (line, wanted) = row.split_once(" => ").ok_or("a row")?;
    let task = task_at(alloc, line, at_terminal)?;
    let mut out = String::new(alloc);
    append_task(&mut out, &task)?;
    is(rt, row, out.as_str(), wanted);
    Ok(())
}

#[test]
fn lines_and_tasks(rt: HostRuntime) -> Result<(), Fail> {
    for row in LINES.lines() {
        is_row(&rt, rt.alloc(), false, row)?;
    }
    for row in AT_TERMINAL.lines() {
        is_row(&rt, rt.alloc(), true, row)?;
    }
    Ok(())
}
