//! The list of the chosen test cases of a script.
ghost use Rattle.std.specs.Prelude.{◌≡◌, [], IfOk, IfErr};
ghost use Rattle.std.specs.List.{flat_map};
ghost use Rattle.tc_answer.specs.Prelude.{case_name};
ghost use Rattle.tc_answer.specs.Inside.{script_name};
ghost use Rattle.tc_judge.specs.Prelude.{AreToRun, RefusesRun};
ghost use Rattle.tc_program.specs.{Inside.case_line, Inside.list_text as text_of_list, Made.IsListed};

use std::alloc::Global;
use tc_answer::{Answer, RunFault};
use tc_campaign::Case;
use tc_command::Choice;
use tc_judge::cases_to_run;
use tc_verdict::NoMemory;

// The names of the test cases, each with a line feed.
fn list_of<B: Drop>(alloc: Global, cases: &[Case<B>]) -> Result<Vec<u8>, NoMemory>
    ensures { IfOk result (λ v. v.items ≡ flat_map case_line cases.now) }
{
    let mut text = Vec::new(alloc);
    for case in cases {
        text.extend_from_slice(case.name.bytes())?;
        text.push(b'\n')?;
    }
    Ok(text)
}

/// The list of the test cases, as an answer.
pub(crate) fn listed<B: Drop>(alloc: Global, cases: &[Case<B>]) -> Result<Answer, NoMemory>
    ensures { IfOk result (λ a. a ≡ record { out = text_of_list case_name cases.now; told = []; status = 0 }) }
{
    let list = list_of(alloc, cases)?;
    Ok(Answer::silent(alloc, list, 0))
}

/// What `run --list` makes of a script: the names of the test cases that a run is asked for, one a line; nothing is run.
pub(crate) fn list_text(alloc: Global, choice: &Choice, text: &[u8]) -> Result<Answer, RunFault>
    ensures done { IfOk result (IsListed script_name (AreToRun choice.now text.now)) }
    ensures refused { IfErr result (RefusesRun choice.now text.now) }
{
    let cases = cases_to_run(alloc, text, choice)?;
    Ok(listed(alloc, cases.as_slice())?)
}
