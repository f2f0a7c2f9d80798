//! Names of `tc_script`: scripts, read and run.
use crate::checks::is;
use std::alloc::Global;
use std::test::Fail;
use tc_book::open_case;
use tc_exec::Ending;
use tc_script::{
    Behaviour, Campaign, CaseScript, ReadFault, Script, ScriptFault, ScriptKind, read_campaign,
};

/// The script of the first behaviour of a test case.
fn first_of(behaviours: &mut CaseScript) -> Result<Script, Fail> {
    let (_, script) = behaviours.take_first().ok_or("a behaviour")?;
    Ok(script)
}

/// The script of the first behaviour of a campaign.
fn script_of(campaign: &mut Campaign) -> Result<Script, Fail> {
    let (_, behaviours) = campaign.take_first().ok_or("a test case")?;
    let mut behaviours = behaviours;
    first_of(&mut behaviours)
}

const SCRIPT: &[u8] = b"testcase t\nbehaviour main\nsetverdict pass\nend\nend\n";

#[test]
fn a_script_is_read_and_run(rt: HostRuntime) -> Result<(), Fail> {
    let mut campaign = read_campaign(rt.alloc(), SCRIPT)?;
    let script = script_of(&mut campaign)?;
    let (_, pass, _) = open_case(rt.alloc(), 1)?;
    let back = script.run(&rt, rt.alloc(), pass);
    is(&rt, "the ending", back.ending, Ending::Returned);
    is(&rt, "the log", back.pass.log().len(), 1);
    Ok(())
}

/// The words of each kind of fault.
fn words_of(kind: ScriptKind) -> &'static str {
    match kind {
        ScriptKind::BadByte => "byte not allowed",
        ScriptKind::BadLine => "line not understood",
        ScriptKind::BadName => "bad name",
        ScriptKind::BadPlace => "not allowed here",
        ScriptKind::TooMany => "too many",
        ScriptKind::Cut => "text ends too early",
        ScriptKind::Twice => "name already used",
        ScriptKind::NoReference => "unbound reference",
        ScriptKind::UnknownBehaviour => "unknown behaviour",
        ScriptKind::MainParameters => "main behaviour takes no parameters",
        ScriptKind::Arguments => "wrong number of arguments",
    }
}

/// The line and the words of the fault of a text; none if it spells a campaign, or memory ran out.
fn refusal_of(alloc: Global, text: &[u8]) -> Option<(usize, &'static str)> {
    match read_campaign(alloc, text) {
        Err(ReadFault::Script(ScriptFault { line, kind })) => Some((line, words_of(kind))),
        Ok(_) | Err(ReadFault::NoMemory) => None,
    }
}

#[test]
fn a_script_is_refused(rt: HostRuntime) {
    let cut = refusal_of(rt.alloc(), b"testcase t\nbehaviour main\n");
    is(
        &rt,
        "a text that is cut",
        cut,
        Some((3, "text ends too early")),
    );
    is(&rt, "a whole text", refusal_of(rt.alloc(), SCRIPT), None);
}
