//! A test case that is refused, of each kind, and how the campaign ends then.
ghost use Rattle.std.specs.Prelude.{IfOk, All};
ghost use Rattle.tc_campaign.specs.Prelude.{HasNames};

use crate::cases::{Does, between, case_of};
use crate::checks::is;
use crate::results::name;
use std::alloc::Global;
use std::process::Abort;
use std::sync::Wait;
use std::test::Fail;
use std::thread::Threads;
use tc_book::{Pass, open_case};
use tc_campaign::{CampaignEnd, Case, Results, run_campaign, tally};
use tc_exec::{Back, CaseError, Ending, Job};

/// The results of three test cases, of which the second is of these behaviours.
fn run_between<R: Abort + Threads + Wait + Copy + Send + 'static>(
    rt: &R,
    alloc: Global,
    first: Option<Does>,
    others: u16,
) -> Result<Results, Fail> {
    let second = case_of(rt, alloc, "b", first, others)?;
    let cases = between(alloc, second)?;
    Ok(run_campaign(rt, alloc, cases, None, 1))
}

/// Why the campaign was aborted, if it was at the second test case.
fn why(results: &Results) -> Option<CaseError> {
    match &results.ending {
        CampaignEnd::Aborted { name, why } if name.bytes() == b"b".as_slice() => Some(*why),
        _ => None,
    }
}

/// Checks that a test case of these behaviours is refused for this reason.
fn refuses<R: Abort + Threads + Wait + Copy + Send + 'static>(
    rt: &R,
    alloc: Global,
    first: Option<Does>,
    others: u16,
    refusal: CaseError,
) -> Result<(), Fail> {
    let results = run_between(rt, alloc, first, others)?;
    is(rt, "the reason", why(&results), Some(refusal));
    is(rt, "the reports", tally(&results).cases, 1);
    Ok(())
}

// All five refusals, each between two cases that are not refused.
#[test]
fn each_refusal_aborts(rt: HostRuntime) -> Result<(), Fail> {
    let alloc = rt.alloc();
    refuses(&rt, alloc, None, 0, CaseError::NoBehaviours)?;
    refuses(&rt, alloc, None, 257, CaseError::TooManyBehaviours)?;
    refuses(&rt, alloc, Some(Does::Starves), 1, CaseError::NoMemory)?;
    refuses(&rt, alloc, None, 3, CaseError::NoThread)?;
    let (_, other, _) = open_case(alloc, 1)?;
    refuses(&rt, alloc, Some(Does::Exchanges(other)), 0, CaseError::Torn)
}

/// Ends its own case, and hands back the pass of another one.
fn exchanges<R: Wait>(rt: &R, pass: Pass, other: Pass) -> Back {
    let mut pass = pass;
    // It halts, as the case has ended.
    let _ = pass.stop_case(rt);
    Back {
        pass: other,
        ending: Ending::Returned,
    }
}

/// The test case b of two behaviours.
fn case_of_two(alloc: Global, first: Job, second: Job) -> Result<Vec<Case<Job>>, Fail>
    ensures { IfOk result (λ cases. All HasNames cases.items) }
{
    Ok(vec![in alloc;
        Case {
            name: name("b")?,
            names: vec![in alloc; name("main")?, name("other")?]?,
            jobs: vec![in alloc; first, second]?,
        },
    ]?)
}

// A case that is torn is named so where it has a worker too.
#[test]
fn a_torn_case_with_a_worker_aborts(rt: HostRuntime) -> Result<(), Fail> {
    let alloc = rt.alloc();
    let (_, other, _) = open_case(alloc, 1)?;
    let first: Box<dyn FnOnce(Pass) -> Back + Send> = Box::new(
        alloc,
        move |pass: Pass| exchanges(&rt, pass, other),
    )?;
    let second: Box<dyn FnOnce(Pass) -> Back + Send> = Box::new(
        alloc,
        move |pass: Pass| Back::after(pass, Ok(())),
    )?;
    let cases = case_of_two(alloc, Job::new(first), Job::new(second))?;
    let results = run_campaign(&rt, alloc, cases, None, 1);
    is(&rt, "the reason", why(&results), Some(CaseError::Torn));
    Ok(())
}
