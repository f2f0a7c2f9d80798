//! Scripts that are read and run, and the calls of the program over texts and results. There is room for the text of what they answer.
ghost use Rattle.std.specs.Prelude.{All, IfSome};
ghost use Rattle.tc_campaign.specs.Prelude.{HasNames};

use crate::stock::Stock;
use crate::tables::MOVES;
use crate::tells::{tell_calls, tell_number};
use crate::texts::HISTORIES;
use crate::trial::Trial;
use std::alloc::Global;
use std::sync::Wait;
use std::thread::Threads;
use tc_book::{Pass, open_case};
use tc_campaign::{Case, run_campaign};
use tc_entry::Name;
use tc_exec::{CaseError, Ending};
use tc_program::{Form, RunFault, check, give, replay, take_script};
use tc_report::{CampaignEnd, Results, write_text};
use tc_script::{Behaviour, Campaign, CaseScript, ReadFault, Script, ScriptJob, read_campaign};

/// A component is started again after its first behaviour has failed.
const RESTART: &str = "testcase t_fail
behaviour main
create p alive
start p first
wait done p
start p second
wait done p
setverdict pass
end
behaviour first
setverdict fail
end
behaviour second
getverdict
setverdict pass
end
end
";

/// Steps that wait for no other run.
const ALONE: &str = "testcase alone
behaviour main
create p alive named pump
create q
setverdict fail
running p
kill p
wait killed p
getverdict
killed all
end
end
";

/// Appends the next behaviour of a test case: its name, how many parameters it has, and how many steps.
fn tell_next(out: &mut Vec<u8>, behaviours: &mut CaseScript) {
    if let Some((name, script)) = behaviours.take_first() {
        // There is room for the text.
        let _ = out.extend_from_slice(name.bytes());
        tell_number(out, script.parameters());
        tell_number(out, script.steps().len());
        drop(script);
    }
}

/// Takes the first test case out of what was read, if it was, and its behaviours.
fn take_all(trial: &mut Trial, campaign: Option<Campaign>) {
    trial.begin_each(
        "Campaign::take_first CaseScript::take_first Script::parameters Script::steps",
    );
    if let Some(mut campaign) = campaign
        && let Some((_, mut behaviours)) = campaign.take_first()
    {
        for _ in 0..3 {
            tell_next(&mut trial.out, &mut behaviours);
        }
        drop(behaviours);
        drop(campaign);
    }
    trial.end();
    trial.end_call();
}

/// What was read; none if it was refused, which must be for memory.
fn kept(trial: &mut Trial, answer: Result<Campaign, bool>) -> Option<Campaign> {
    match answer {
        Ok(campaign) => Some(campaign),
        Err(is_memory) => {
            trial.refuse(is_memory);
            None
        }
    }
}

/// What a text spells; whether it is refused for memory.
fn read_of(alloc: Global, text: &str) -> Result<Campaign, bool> {
    match read_campaign(alloc, text.as_bytes()) {
        Ok(campaign) => Ok(campaign),
        Err(why) => Err(matches!(why, ReadFault::NoMemory)),
    }
}

/// What an input spells; whether it is refused for memory.
fn taken_of(alloc: Global, text: &str) -> Result<Campaign, bool> {
    let mut reader = text.as_bytes();
    match take_script(alloc, &mut reader) {
        Ok(campaign) => Ok(campaign),
        Err(why) => Err(why == RunFault::NoMemory),
    }
}

/// The readers of scripts.
pub(crate) fn read(trial: &mut Trial) {
    trial.begin("read_campaign");
    let answer = read_of(trial.alloc, RESTART);
    let campaign = kept(trial, answer);
    trial.end();
    take_all(trial, campaign);
    trial.begin("take_script");
    let answer = taken_of(trial.alloc, RESTART);
    let campaign = kept(trial, answer);
    trial.end();
    take_all(trial, campaign);
}

/// Takes in the status of a call that writes, or that it was refused, which leaves nothing.
fn written(trial: &mut Trial, answer: Result<u8, RunFault>) {
    match answer {
        Ok(status) => {
            // There is room for the text.
            let _ = trial.out.push(status);
        }
        Err(why) => trial.refuse(why == RunFault::NoMemory),
    }
    trial.end_call();
}

/// The calls of the program over an input and an output.
fn answer_texts(trial: &mut Trial) {
    trial.begin("tc_program::replay check");
    let answer = replay(trial.alloc, &mut MOVES.as_bytes(), &mut trial.out);
    written(trial, answer);
    let answer = check(trial.alloc, &mut HISTORIES.as_bytes(), &mut trial.out);
    written(trial, answer);
    trial.end();
}

/// The results in this form.
fn give_in(trial: &mut Trial, stock: &Stock, form: &Form) {
    trial.begin("give");
    let answer = give(trial.alloc, &stock.results, form, &mut trial.out);
    written(trial, answer);
    trial.end();
}

/// The answers of the program to texts, and the results in each form.
pub(crate) fn write(trial: &mut Trial, stock: &Stock) {
    answer_texts(trial);
    for form in &[
        Form::Text,
        Form::Csv,
        Form::History,
        Form::Evidence,
        Form::Junit(None),
    ] {
        give_in(trial, stock, form);
    }
}

/// The behaviours of the one test case of a text.
fn case_of(alloc: Global, text: &str) -> Option<(Name, CaseScript)> {
    let mut campaign = read_campaign(alloc, text.as_bytes()).ok()?;
    campaign.take_first()
}

/// The first script of a text, and a pass for it.
fn ready(alloc: Global) -> Option<(Script, Pass)> {
    let (_, mut behaviours) = case_of(alloc, ALONE)?;
    let (_, script) = behaviours.take_first()?;
    let (_, pass, _) = open_case(alloc, 1).ok()?;
    Some((script, pass))
}

/// A script that makes its calls on a pass, up to one for which memory ran out.
fn run_alone<R: Wait>(rt: &R, trial: &mut Trial) {
    if let Some((script, pass)) = ready(trial.alloc) {
        trial.begin("Script::run");
        let back = script.run(rt, trial.alloc, pass);
        tell_calls(&mut trial.out, back.pass.log());
        if back.ending == Ending::Starved {
            trial.refuse_part();
        }
        trial.end_call();
        trial.end();
        drop(back);
    }
}

/// The next behaviour of a test case, as a job.
fn next_of<R: Wait + Copy + Send + 'static>(
    rt: &R,
    alloc: Global,
    behaviours: &mut CaseScript,
) -> Option<(Name, ScriptJob<R>)> {
    let (name, script) = behaviours.take_first()?;
    Some((name, ScriptJob::new(*rt, alloc, script)))
}

/// The test case of the restart, with its three behaviours as jobs.
fn restart<R: Wait + Copy + Send + 'static>(
    rt: &R,
    alloc: Global,
) -> Option<Vec<Case<ScriptJob<R>>>>
    ensures { IfSome result (λ v. All HasNames v.items) }
{
    let (name, mut behaviours) = case_of(alloc, RESTART)?;
    let (main, first) = next_of(rt, alloc, &mut behaviours)?;
    let (one, second) = next_of(rt, alloc, &mut behaviours)?;
    let (two, third) = next_of(rt, alloc, &mut behaviours)?;
    let names = vec![in alloc; main, one, two].ok()?;
    let mut jobs = Vec::new(alloc);
    jobs.push(first).ok()?;
    jobs.push(second).ok()?;
    jobs.push(third).ok()?;
    vec![in alloc; Case { name, names, jobs }].ok()
}

/// Whether a campaign was aborted at its first test case, since memory or workers ran out.
fn is_refused(results: &Results) -> bool {
    let is_why = match &results.ending {
        CampaignEnd::Aborted { why, .. } => matches!(
            why,
            CaseError::NoMemory | CaseError::NoThread
        ),
        _ => false,
    };
    is_why && results.finished.as_slice().is_empty()
}

/// A campaign of scripts on two workers: its report is the one that it has with ample memory, or it was aborted.
fn run_restart<R: Threads + Wait + Copy + Send + 'static>(rt: &R, trial: &mut Trial) {
    let alloc = trial.alloc;
    if let Some(cases) = restart(rt, alloc) {
        trial.begin("run_campaign");
        let results = run_campaign(rt, alloc, cases, None, 2);
        let is_whole = matches!(results.ending, CampaignEnd::Complete);
        if !is_whole {
            trial.holds(is_refused(&results));
            trial.refuse_part();
        }
        trial.end();
        if is_whole {
            // A report that is not whole is another text.
            let _ = write_text(alloc, &results, &mut trial.out);
        }
        trial.end_call();
    }
}

/// Scripts that are run, without a worker and with two.
pub(crate) fn run<R: Threads + Wait + Copy + Send + 'static>(rt: &R, trial: &mut Trial) {
    run_alone(rt, trial);
    run_restart(rt, trial);
}
