//! Names of `tc_campaign`: test cases one after the other, and the texts of their results.
ghost use Rattle.std.specs.Prelude.{IfOk};
ghost use Rattle.tc_campaign.specs.Outline.{HasNames};

use crate::checks::{holds, is};
use std::alloc::Global;
use std::process::Abort;
use std::str;
use std::test::Fail;
use tc_book::Pass;
use tc_campaign::{
    CampaignEnd, Case, Finished, OutFault, Results, Tally, run_campaign, status_of, tally,
    write_csv, write_history, write_text,
};
use tc_exec::{Back, Ending, Job};
use tc_table::Name;
use tc_verdict::{UserVerdict, Verdict};

type Boxed = Box<dyn FnOnce(Pass) -> Back + Send>;

/// A behaviour that sets a verdict.
fn sets(pass: Pass, verdict: UserVerdict) -> Back {
    let mut pass = pass;
    let ending = match pass.set_verdict(verdict) {
        Ok(()) => Ending::Returned,
        Err(_) => Ending::Starved,
    };
    Back { pass, ending }
}

fn name(text: &str) -> Result<Name, Fail> {
    Ok(Name::read(text).ok_or("a name")?)
}

/// A test case of one behaviour.
fn case(alloc: Global, text: &str, job: Job) -> Result<Case, Fail>
    ensures { IfOk result HasNames }
{
    Ok(Case {
        name: name(text)?,
        names: vec![in alloc; name("main")?]?,
        jobs: vec![in alloc; job]?,
    })
}

const CSV: &str = "\
testcase,components,none,pass,inconc,fail,error,verdict
a,1,0,1,0,0,0,pass
b,1,0,0,0,1,0,fail
";

const HISTORY: &str = "\
history 2 a 1
0 setverdict pass -> ok
0 finish -> ok
end pass
history 2 b 1
0 setverdict fail -> ok
0 finish -> ok
end fail
";

const TEXT: &str = "\
testcase a
run 0 main on 0
  setverdict pass -> ok
  finish -> ok
local 0 pass
verdict pass
testcase b
run 0 main on 0
  setverdict fail -> ok
  finish -> ok
local 0 fail
verdict fail
cases 2 none 0 pass 1 inconc 0 fail 1 error 0
stopped after b
";

/// The words of each fault of an output.
fn words_of(fault: OutFault) -> &'static str {
    match fault {
        OutFault::NoMemory => "no memory",
        OutFault::Write => "write fault",
    }
}

/// The three texts of the results.
fn are_written(rt: &impl Abort, alloc: Global, results: &Results) -> Result<(), Fail> {
    let mut out = Vec::new(alloc);
    write_text(alloc, results, &mut out)?;
    is(rt, "write_text", str::from_utf8(out.as_slice())?, TEXT);
    out.clear();
    write_csv(alloc, results, &mut out)?;
    is(rt, "write_csv", str::from_utf8(out.as_slice())?, CSV);
    out.clear();
    write_history(alloc, results, &mut out)?;
    is(
        rt,
        "write_history",
        str::from_utf8(out.as_slice())?,
        HISTORY,
    );
    let mut nothing: &mut [u8] = &mut [];
    let fault = write_csv(alloc, results, &mut nothing).err();
    let words = fault.map(words_of);
    is(
        rt,
        "a writer that takes no byte",
        words,
        Some("write fault"),
    );
    Ok(())
}

fn is_finished(rt: &impl Abort, finished: &Finished) {
    is(rt, "name", finished.name.bytes(), b"a".as_slice());
    is(rt, "names", finished.names.as_slice().len(), 1);
    is(rt, "report", finished.report.verdict, Verdict::Pass);
}

/// The name of the test case at which a campaign ended before its end.
fn last_of(ending: &CampaignEnd) -> Option<&Name> {
    match ending {
        CampaignEnd::Complete => None,
        CampaignEnd::StoppedAfter(name) => Some(name),
        CampaignEnd::Aborted { name, why: _ } => Some(name),
    }
}

fn are_results(rt: &impl Abort, results: &Results) -> Result<(), Fail> {
    is_finished(rt, results.finished.as_slice().first().ok_or("a case")?);
    let last = last_of(&results.ending).ok_or("a last case")?;
    is(rt, "ending", last.bytes(), b"b".as_slice());
    let counts = Tally {
        cases: 2,
        none: 0,
        pass: 1,
        inconc: 0,
        fail: 1,
        error: 0,
    };
    is(rt, "tally", tally(results), counts);
    is(rt, "status_of", status_of(results), 1);
    Ok(())
}

#[test]
fn a_campaign_stops(rt: HostRuntime) -> Result<(), Fail> {
    let alloc = rt.alloc();
    let a: Boxed = Box::new(alloc, move |pass: Pass| sets(pass, UserVerdict::Pass))?;
    let b: Boxed = Box::new(alloc, move |pass: Pass| sets(pass, UserVerdict::Fail))?;
    let c: Boxed = Box::new(alloc, move |pass: Pass| sets(pass, UserVerdict::Pass))?;
    let cases = vec![in alloc;
        case(alloc, "a", Job::new(a))?,
        case(alloc, "b", Job::new(b))?,
        case(alloc, "c", Job::new(c))?,
    ]?;
    let results = run_campaign(&rt, alloc, cases, Some(Verdict::Fail), 0);
    are_results(&rt, &results)?;
    are_written(&rt, alloc, &results)
}

#[test]
fn no_cases_are_complete(rt: HostRuntime) {
    let none: Vec<Case> = Vec::new(rt.alloc());
    let results = run_campaign(&rt, rt.alloc(), none, None, 0);
    let is_complete = matches!(results.ending, CampaignEnd::Complete);
    holds(&rt, "complete", is_complete);
    is(&rt, "finished", results.finished.as_slice().len(), 0);
}
