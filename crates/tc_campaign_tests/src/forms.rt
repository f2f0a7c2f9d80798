//! What only results that no program meets have: the forms of an aborted campaign, names of no behaviour, and the words
//! of each refusal.
use crate::checks::is;
use crate::results::{aborted, finished, name, results};
use std::alloc::Global;
use std::process::Abort;
use std::test::Fail;
use tc_book::Sequence;
use tc_campaign::{CampaignEnd, OutFault, Results, write_abort, write_evidence};
use tc_entry::{Entry, Fault, Op, Reply, Run, Target, UserVerdict, Verdict};
use tc_exec::CaseError;
use tc_report::{
    Summary, Times, csv_report, junit_report, summaries_of_results, summary_of_case,
    summary_report, worst_status, write_junit,
};

const TABLE: &str = "testcase,components,none,pass,inconc,fail,error,verdict
a,1,0,1,0,0,0,pass
b,1,0,0,0,1,0,fail
c,1,0,0,1,0,0,inconc
d,0,0,0,0,0,0,aborted
e,0,0,0,0,0,0,notrun
";

const SUITE: &str = "<?xml version=\"1.0\" encoding=\"UTF-8\"?>
<testsuites tests=\"5\" failures=\"2\" errors=\"1\" skipped=\"1\">
<testsuite name=\"ttrun\" tests=\"5\" failures=\"2\" errors=\"1\" skipped=\"1\">
<properties>
<property name=\"version\" value=\"7\"/>
</properties>
<testcase name=\"a\" classname=\"ttrun\">
<system-out>
  pass: mtc
</system-out>
</testcase>
<testcase name=\"b\" classname=\"ttrun\">
<failure type=\"fail\" message=\"run 0 main on mtc: setverdict fail -> ok\">
run 0 main on mtc: setverdict fail -> ok
  setverdict fail -> ok
  finish -> ok
</failure>
<system-out>
  fail: mtc
</system-out>
</testcase>
<testcase name=\"c\" classname=\"ttrun\">
<failure type=\"inconc\" message=\"run 0 main on mtc: setverdict inconc -> ok\">
run 0 main on mtc: setverdict inconc -> ok
  setverdict inconc -> ok
  finish -> ok
</failure>
<system-out>
  inconc: mtc
</system-out>
</testcase>
<testcase name=\"d\" classname=\"ttrun\">
<error type=\"aborted\" message=\"torn\"/>
<system-out>
</system-out>
</testcase>
<testcase name=\"e\" classname=\"ttrun\">
<skipped message=\"not run\"/>
<system-out>
</system-out>
</testcase>
</testsuite>
</testsuites>
";

const SUMMARY: &str = "cases 5 none 0 pass 1 inconc 1 fail 1 error 0
aborted 1
notrun 1

b: fail
  run 0 main on mtc: setverdict fail -> ok
  fail: mtc

c: inconc
  run 0 main on mtc: setverdict inconc -> ok
  inconc: mtc

d: aborted
  torn
";

const EVIDENCE: &str = "evidence 1 a 1
behaviour 0 main
0 setverdict pass -> ok
0 finish -> ok
end pass
";

/// Checks the forms of summaries.
fn have_forms<R: Abort>(rt: &R, alloc: Global, cases: &[Summary]) -> Result<(), Fail> {
    let table = csv_report(alloc, cases)?;
    is(rt, "the table", table.as_slice(), TABLE.as_bytes());
    let suite = junit_report(alloc, "7", &None, &Times::none(alloc), cases)?;
    is(rt, "the suite", suite.as_slice(), SUITE.as_bytes());
    let summary = summary_report(alloc, cases)?;
    is(rt, "the summary", summary.as_slice(), SUMMARY.as_bytes());
    is(rt, "the status", worst_status(cases), 2);
    Ok(())
}

/// Checks the suite that is written of test cases.
fn has_suite<R: Abort>(rt: &R, alloc: Global, cases: &[Summary]) -> Result<(), Fail> {
    let mut suite = Vec::new(alloc);
    write_junit(alloc, "7", &None, &Times::none(alloc), cases, &mut suite)?;
    is(rt, "the suite", suite.as_slice(), SUITE.as_bytes());
    Ok(())
}

#[test]
fn forms_of_an_aborted_campaign(rt: HostRuntime) -> Result<(), Fail> {
    let names = [name("a")?, name("b")?, name("c")?, name("d")?, name("e")?];
    let results = results(rt.alloc(), aborted("d", CaseError::Torn)?)?;
    let summaries = summaries_of_results(rt.alloc(), &names, &results)?;
    have_forms(&rt, rt.alloc(), summaries.as_slice())?;
    has_suite(&rt, rt.alloc(), summaries.as_slice())
}

// A call that the table replies to in another way than its history says is no reason to refuse a summary, nor is a number
// of behaviours that no test case has.
#[test]
fn no_history_is_refused_a_summary(rt: HostRuntime) -> Result<(), Fail> {
    for behaviours in [0, 1, 257] {
        let mut case = finished(rt.alloc(), "a", UserVerdict::Pass)?;
        case.report.behaviours = behaviours;
        case.report.verdict = Verdict::Error;
        let wait = Op::Wait {
            killed: false,
            target: Target::Any,
        };
        case.report.history.push(Entry {
            caller: Run(0),
            op: wait,
            reply: Reply::Fault(Fault::Stuck),
        })?;
        let summary = summary_of_case(rt.alloc(), &case)?;
        is(&rt, "the lines", summary.waits.as_slice(), b"");
    }
    Ok(())
}

/// Checks the line of an abort at the test case d.
fn is_told<R: Abort>(rt: &R, alloc: Global, why: CaseError, words: &str) -> Result<(), Fail> {
    let results = results(alloc, aborted("d", why)?)?;
    let mut line = Vec::new(alloc);
    let answer = write_abort(&results, &mut line);
    is(rt, "whether an abort is told of", answer, Ok(true));
    let wanted = format!(in alloc; "ttrun: aborted at d: {words}\n")?;
    is(rt, words, line.as_slice(), wanted.as_bytes());
    Ok(())
}

#[test]
fn words_of_refusals(rt: HostRuntime) -> Result<(), Fail> {
    for (why, words) in [
        (CaseError::NoBehaviours, "no behaviours"),
        (CaseError::TooManyBehaviours, "too many behaviours"),
        (CaseError::NoMemory, "no memory"),
        (CaseError::NoThread, "no thread"),
        (CaseError::Torn, "torn"),
    ] {
        is(&rt, words, why.text(), words);
        is(&rt, words, why.to_string(rt.alloc())?.as_str(), words);
        is_told(&rt, rt.alloc(), why, words)?;
    }
    Ok(())
}

#[test]
fn texts_of_the_faults(rt: HostRuntime) -> Result<(), Fail> {
    for (fault, words) in [
        (OutFault::NoMemory, "no memory"),
        (OutFault::Write, "write fault"),
    ] {
        is(&rt, words, fault.text(), words);
        is(&rt, words, fault.to_string(rt.alloc())?.as_str(), words);
    }
    Ok(())
}

// A name that is that of no behaviour is in no line.
#[test]
fn evidence_of_more_names(rt: HostRuntime) -> Result<(), Fail> {
    let mut case = finished(rt.alloc(), "a", UserVerdict::Pass)?;
    case.names.push(name("more")?)?;
    let results = Results {
        finished: Sequence::new(vec![in rt.alloc(); case]?),
        ending: CampaignEnd::Complete,
    };
    let mut out = Vec::new(rt.alloc());
    write_evidence(rt.alloc(), &results, &mut out)?;
    is(&rt, "the evidence", out.as_slice(), EVIDENCE.as_bytes());
    Ok(())
}
