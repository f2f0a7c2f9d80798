//! The subcommand `explore`.
ghost use Rattle.std.specs.Prelude.{◌≡◌, ◌≤◌, ◌++◌, [], All, IfOk, IfErr, OnOk, fold, length, max};
ghost use Rattle.std.specs.List.{AllZip, flat_map};
ghost use Rattle.tc_entry.specs.declared.limits.TheConstants.{BEHAVIOURS};
ghost use Rattle.tc_course.specs.Prelude.{AreLegal};
ghost use Rattle.tc_explored.specs.Prelude.{explored_status as status_in};
ghost use Rattle.tc_judge.specs.Inside.{HasFewJobs};
ghost use Rattle.tc_judge.specs.Prelude.{RefusesRun};
ghost use Rattle.tc_program.specs.{Explore.Explores, Explore.explored_text, Explore.witness_blocks, Inside.IsExploredOf, Inside.TellsAfter, Inside.TellsLocalsIf};

use std::alloc::Global;
use tc_answer::{Answer, RunFault};
use tc_blocks::{Header, Kind};
use tc_campaign::Case;
use tc_command::ExploreOptions;
use tc_entry::{Name, Sequence};
use tc_explore::{Explored, explore, explore_locals};
use tc_explored::{append_details, append_line, append_locals, append_witnesses, explored_status};
use tc_judge::cases_to_run;
use tc_report::first_names;
use tc_step::Script;
use tc_verdict::NoMemory;

/// A test case that was explored.
#[derive(Drop)]
pub(crate) struct ExploredCase {
    pub(crate) name: Name,
    /// The names of its behaviours.
    pub(crate) names: Sequence<Name>,
    pub(crate) behaviours: u16,
    pub(crate) explored: Explored,
    pub(crate) details: Sequence<u8>,
}

// Appends the local verdicts of a test case with these scripts, of which it looks at that many states, if they are asked for.
#[tactic(auto, using(crate::proofs::Exploring::asked_rules))]
fn append_locals_if(
    alloc: Global,
    out: &mut Vec<u8>,
    locals: bool,
    scripts: &[Script],
    states: usize,
) -> Result<(), NoMemory>
    requires few { length scripts.now ≤ BEHAVIOURS }
    ensures { OnOk result (TellsLocalsIf locals states scripts.now out.old.items out.new.items) }
{
    if !locals {
        return Ok(());
    }
    let locals = explore_locals(alloc, scripts, states)?;
    append_locals(alloc, out, &locals)?;
    Ok(())
}

// What is printed after the line of a test case with these names of behaviours and these scripts.
fn details_of(
    alloc: Global,
    options: &ExploreOptions,
    names: &[Name],
    scripts: &[Script],
    explored: &Explored,
) -> Result<Vec<u8>, NoMemory>
    requires few { length scripts.now ≤ BEHAVIOURS }
    requires legal { AreLegal scripts.now explored.now.found }
    ensures { IfOk result (λ text. TellsAfter options.now names.now scripts.now explored.now text.items) }
{
    let mut out = Vec::new(alloc);
    append_locals_if(alloc, &mut out, options.locals, scripts, options.states)?;
    if options.details {
        append_details(alloc, &mut out, names, scripts, explored)?;
    }
    Ok(out)
}

// Explores a test case.
fn explore_case(
    alloc: Global,
    case: Case<Script>,
    options: &ExploreOptions,
) -> Result<ExploredCase, NoMemory>
    requires { length case.jobs.items ≤ BEHAVIOURS }
    ensures { IfOk result (IsExploredOf options.now case) }
{
    let Case { name, names, jobs } = case;
    let scripts = jobs.as_slice();
    let behaviours = scripts.len() as u16;
    let explored = explore(alloc, scripts, options.states)?;
    let details = details_of(alloc, options, names.as_slice(), scripts, &explored)?;
    Ok(ExploredCase {
        name,
        names: Sequence::new(names),
        behaviours,
        explored,
        details: Sequence::new(details),
    })
}

// Explores test cases.
fn explore_cases(
    alloc: Global,
    cases: Vec<Case<Script>>,
    options: &ExploreOptions,
) -> Result<Vec<ExploredCase>, NoMemory>
    requires { All HasFewJobs cases.items }
    ensures { IfOk result (λ explored. AllZip (IsExploredOf options.now) cases.items explored.items) }
{
    let mut explored = Vec::new(alloc);
    for case in cases {
        explored.push(explore_case(alloc, case, options)?)?;
    }
    Ok(explored)
}

// Appends the witnesses of a test case as blocks of this kind, with these names of behaviours.
fn append_blocks(
    out: &mut Vec<u8>,
    kind: Kind,
    names: &[Name],
    case: &ExploredCase,
) -> Result<(), NoMemory>
    requires { length names.now ≤ u16.MAX }
    ensures { OnOk result (out.new.items ≡ out.old.items ++ witness_blocks kind names.now case.now) }
{
    let header = Header {
        kind,
        name: case.name.copy(),
        behaviours: case.behaviours,
    };
    append_witnesses(out, &header, names, &case.explored)
}

// Appends what is written of a test case.
fn append_case(
    alloc: Global,
    out: &mut Vec<u8>,
    options: &ExploreOptions,
    case: &ExploredCase,
) -> Result<(), NoMemory>
    ensures { OnOk result (out.new.items ≡ out.old.items ++ explored_text options.now case.now) }
{
    if options.histories {
        return append_blocks(out, Kind::History2, &[], case);
    }
    if options.evidence {
        let names = first_names(case.names.as_slice(), case.behaviours);
        return append_blocks(out, Kind::Evidence, names, case);
    }
    append_line(alloc, out, &case.name, &case.explored)?;
    out.extend_from_slice(case.details.as_slice())?;
    Ok(())
}

// The text of the test cases.
fn text_of(
    alloc: Global,
    options: &ExploreOptions,
    explored: &[ExploredCase],
) -> Result<Vec<u8>, NoMemory>
    ensures { IfOk result (λ v. v.items ≡ flat_map (explored_text options.now) explored.now) }
{
    let mut out = Vec::new(alloc);
    for case in explored {
        append_case(alloc, &mut out, options, case)?;
    }
    Ok(out)
}

// The greatest status of the test cases.
fn status_of(explored: &[ExploredCase]) -> u8
    ensures { result ≡ fold (λ most e. max most (status_in e.explored)) 0 explored.now }
{
    let statuses = explored.iter().map(|case| explored_status(&case.explored));
    statuses.max().unwrap_or(0)
}

/// What `explore` makes of a script: what was found of each test case that is asked for, and the status. That is 3 if a
/// search did not come to its end, 2 if some test case can only end with error, 1 if some has more verdicts than one,
/// otherwise 0. Details are printed after the line of each test case.
pub(crate) fn explore_text(
    alloc: Global,
    options: &ExploreOptions,
    text: &[u8],
) -> Result<Answer, RunFault>
    ensures done { IfOk result (λ a. Explores options.now text.now a.out a.status × (a.told ≡ [])) }
    ensures refused { IfErr result (RefusesRun options.now.choice text.now) }
{
    let cases = cases_to_run(alloc, text, &options.choice)?;
    let explored = explore_cases(alloc, cases, options)?;
    let out = text_of(alloc, options, explored.as_slice())?;
    Ok(Answer::silent(alloc, out, status_of(explored.as_slice())))
}
