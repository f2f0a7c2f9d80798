//! Names of `tc_program`: what the program `ttrun` does, over any reader and any writer.
use crate::checks::is;
use std::alloc::Global;
use std::process::Abort;
use std::str;
use std::test::Fail;
use tc_book::Sequence;
use tc_campaign::{CampaignEnd, Results};
use tc_exec::CaseError;
use tc_program::{
    Form, RunFault, abort_line, check, fault_line, give, replay, stop_word, take_script,
};
use tc_table::{Name, TextFault};
use tc_verdict::Verdict;

#[test]
fn moves_are_replayed(rt: HostRuntime) -> Result<(), Fail> {
    let mut reader = b"behaviours 1\n0 create\n".as_slice();
    let mut out = Vec::new(rt.alloc());
    let status = replay(rt.alloc(), &mut reader, &mut out)?;
    is(&rt, "status", status, 0);
    is(
        &rt,
        "output",
        str::from_utf8(out.as_slice())?,
        "made 1\nverdict none\n",
    );
    Ok(())
}

#[test]
fn histories_are_checked(rt: HostRuntime) -> Result<(), Fail> {
    let mut reader = b"history 2 t 1\nend none\n".as_slice();
    let mut out = Vec::new(rt.alloc());
    let status = check(rt.alloc(), &mut reader, &mut out)?;
    is(&rt, "status", status, 0);
    is(
        &rt,
        "output",
        str::from_utf8(out.as_slice())?,
        "legal t 0 none\n",
    );
    Ok(())
}

#[test]
fn a_script_is_taken(rt: HostRuntime) -> Result<(), Fail> {
    let mut reader = b"testcase t\nbehaviour main\nend\nend\n".as_slice();
    let mut campaign = take_script(rt.alloc(), &mut reader)?;
    let (name, _) = campaign.take_first().ok_or("a test case")?;
    is(&rt, "its name", name.bytes(), b"t".as_slice());
    Ok(())
}

/// The results of a campaign that was aborted at its first test case.
fn aborted(alloc: Global) -> Result<Results, Fail> {
    Ok(Results {
        finished: Sequence::new(Vec::new(alloc)),
        ending: CampaignEnd::Aborted {
            name: Name::read("t").ok_or("a name")?,
            why: CaseError::NoThread,
        },
    })
}

/// The results in a form; the status is 3.
fn is_given(rt: &impl Abort, alloc: Global, form: &Form, wanted: &str) -> Result<(), Fail> {
    let results = aborted(alloc)?;
    let mut out = Vec::new(alloc);
    let status = give(alloc, &results, form, &mut out)?;
    is(rt, "status", status, 3);
    is(rt, "output", str::from_utf8(out.as_slice())?, wanted);
    Ok(())
}

#[test]
fn results_are_given(rt: HostRuntime) -> Result<(), Fail> {
    let text = "cases 0 none 0 pass 0 inconc 0 fail 0 error 0\naborted at t: no thread\n";
    is_given(&rt, rt.alloc(), &Form::Text, text)?;
    let csv = "testcase,components,none,pass,inconc,fail,error,verdict\n";
    is_given(&rt, rt.alloc(), &Form::Csv, csv)?;
    is_given(&rt, rt.alloc(), &Form::History, "")
}

#[test]
fn an_abort_has_a_line(rt: HostRuntime) -> Result<(), Fail> {
    let results = aborted(rt.alloc())?;
    let mut out = Vec::new(rt.alloc());
    is(&rt, "abort_line", abort_line(&results, &mut out), Ok(true));
    let line = "ttrun: aborted at t: no thread\n";
    is(&rt, "the line", str::from_utf8(out.as_slice())?, line);
    Ok(())
}

#[test]
fn a_fault_has_a_line(rt: HostRuntime) -> Result<(), Fail> {
    let mut out = Vec::new(rt.alloc());
    fault_line(&RunFault::StopOn, &mut out)?;
    let line = "ttrun: --stop-on takes none, pass, inconc, fail or error\n";
    is(&rt, "the line", str::from_utf8(out.as_slice())?, line);
    Ok(())
}

/// The number of the line that a fault is in, if it is in one.
fn line_of(fault: RunFault) -> Option<usize> {
    match fault {
        RunFault::Text(TextFault::At { line, .. }) => Some(line),
        RunFault::Script(fault) => Some(fault.line),
        RunFault::Text(TextFault::NoMemory) => None,
        RunFault::TooLong | RunFault::Read | RunFault::Write | RunFault::NoMemory => None,
        RunFault::StopOn | RunFault::Only => None,
    }
}

#[test]
fn refused_inputs_write_nothing(rt: HostRuntime) -> Result<(), Fail> {
    let mut reader = b"behaviours 0\n".as_slice();
    let mut out = Vec::new(rt.alloc());
    let fault = replay(rt.alloc(), &mut reader, &mut out).err();
    is(&rt, "its line", fault.and_then(line_of), Some(1));
    is(&rt, "output", out.len(), 0);
    Ok(())
}

#[test]
fn the_word_of_stop_on(rt: HostRuntime) {
    is(&rt, "fail", stop_word("fail"), Ok(Verdict::Fail));
    is(&rt, "maybe", stop_word("maybe"), Err(RunFault::StopOn));
}
