//! Scripts that are run: one whose pass has another number of arguments than it has parameters, and those of a test case.
use crate::checks::{holds, is};
use std::alloc::Global;
use std::test::Fail;
use tc_book::{Pass, Sequence, open_case};
use tc_campaign::{CampaignEnd, Finished, Results, write_text};
use tc_entry::Name;
use tc_exec::{Back, CaseReport, Ending, Job, run_case};
use tc_reader::{CaseScript, Script, read_campaign};
use tc_script::Behaviour;

/// The second behaviour has a parameter.
const SCRIPT: &[u8] = b"testcase t
behaviour main
start mtc w mtc
end
behaviour w a
end
end
";

/// The test case of a script.
fn case_of(alloc: Global, script: &[u8]) -> Result<(Name, CaseScript), Fail> {
    let mut campaign = read_campaign(alloc, script)?;
    Ok(campaign.take_first().ok_or("a test case")?)
}

/// The next of its behaviours.
fn next_of(behaviours: &mut CaseScript) -> Result<(Name, Script), Fail> {
    Ok(behaviours.take_first().ok_or("a behaviour")?)
}

/// The script of the second behaviour.
fn second(alloc: Global) -> Result<Script, Fail> {
    let (_, mut behaviours) = case_of(alloc, SCRIPT)?;
    next_of(&mut behaviours)?;
    let (_, script) = next_of(&mut behaviours)?;
    Ok(script)
}

#[test]
fn wrong_argument_count_runs_nothing(rt: HostRuntime) -> Result<(), Fail> {
    let script = second(rt.alloc())?;
    let (_, pass, _) = open_case(rt.alloc(), 1)?;
    let back = script.run(&rt, rt.alloc(), pass);
    is(&rt, "the ending", back.ending, Ending::Returned);
    is(&rt, "the log", back.pass.log().len(), 0);
    holds(&rt, "the pass goes on", !back.pass.is_ended());
    Ok(())
}

/// A worker asks whether its starter is alive, and sets pass.
const PAIR: &[u8] = b"testcase t_pass
behaviour main
  create p
  start p worker mtc
  wait done p
  getverdict
end
behaviour worker boss
  alive boss
  setverdict pass
end
end
";

const REPORT: &str = "testcase t_pass
run 0 main on 0
  create -> made 1
  start 1 1 0 -> ok
  wait done 1 -> matched
  getverdict -> none
  finish -> ok
run 1 worker on 1
  alive 0 -> true
  setverdict pass -> ok
  finish -> ok
local 0 none
local 1 pass
verdict pass
cases 1 none 0 pass 1 inconc 0 fail 0 error 0
complete
";

/// The text of a report.
fn text_of(
    alloc: Global,
    name: Name,
    names: Vec<Name>,
    report: CaseReport,
) -> Result<Vec<u8>, Fail> {
    let names = Sequence::new(names);
    let finished = vec![in alloc;
        Finished {
            name,
            names,
            report
        },
    ]?;
    let results = Results {
        finished: Sequence::new(finished),
        ending: CampaignEnd::Complete,
    };
    let mut text = Vec::new(alloc);
    write_text(alloc, &results, &mut text)?;
    Ok(text)
}

/// The behaviours of a test case are jobs of a case, without a campaign.
#[test]
fn scripts_are_run_as_jobs(rt: HostRuntime) -> Result<(), Fail> {
    let alloc = rt.alloc();
    let (name, mut behaviours) = case_of(alloc, PAIR)?;
    let (main, first) = next_of(&mut behaviours)?;
    let (worker, second) = next_of(&mut behaviours)?;
    let first: Box<dyn FnOnce(Pass) -> Back + Send> = Box::new(
        alloc,
        move |pass: Pass| first.run(&rt, alloc, pass),
    )?;
    let second: Box<dyn FnOnce(Pass) -> Back + Send> = Box::new(
        alloc,
        move |pass: Pass| second.run(&rt, alloc, pass),
    )?;
    let jobs = vec![in alloc; Job::new(first), Job::new(second)]?;
    let report = run_case(&rt, alloc, jobs, 64)?;
    let names = vec![in alloc; main, worker]?;
    let text = text_of(alloc, name, names, report)?;
    is(&rt, "the report", text.as_slice(), REPORT.as_bytes());
    Ok(())
}
