//! The run of a campaign.
ghost use Rattle.std.specs.{Prelude.{◌≡◌, ◌≤◌, [], All, IfOk, IfErr, IfSome, IfNone, Option, length, map, slice_get, ℕ}, Vec.{vec_capacity, vec_len}};
ghost use Rattle.tc_rules.specs.Prelude.{Verdict as AnyVerdict};
ghost use Rattle.tc_report.specs.{Prelude.IsMet, declared.results.CampaignEnd.TheVariants.StoppedAfter};
ghost use Rattle.tc_campaign.specs.{Campaign.AreBack, Campaign.IsCalled, Campaign.IsCutShort, Campaign.IsObserved, Campaign.IsRunTo, Inside.HasThreads, Inside.IsOf, Inside.IsRefused, Inside.IsStep, Inside.IsUnrun, Inside.WasRun, Inside.ended_by, Outline.HasNames, Outline.outline_of};

use std::alloc::Global;
use std::sync::Wait;
use std::thread::Threads;
use tc_book::Sequence;
use tc_entry::{Name, Verdict};
use tc_exec::{Callable, Case, CaseError, CaseReport, Everyone, run_case_with};
use tc_report::{CampaignEnd, Finished, Kept, Observer, Results, is_met};

/// How a campaign continues after a test case.
#[derive(Drop)]
pub(crate) enum Step {
    /// With the next test case.
    GoesOn,
    /// It ends by the stopping rule.
    Stops(CampaignEnd),
    /// It ends, since the test case was refused.
    Refused(CampaignEnd),
    /// The observer has ended it.
    CutShort,
}

/// How the campaign ends after this test case, if it is the last by the stopping rule.
fn stop_after(stop_on: Option<Verdict>, case: &Finished) -> Option<CampaignEnd>
    ensures stopped { IfSome result (λ ending. (ending ≡ StoppedAfter case.now.name) × IsMet stop_on case.now.report.verdict) }
    ensures better { IfNone result (IsMet stop_on case.now.report.verdict → ⊥) }
{
    if is_met(stop_on, case.report.verdict) {
        Some(CampaignEnd::StoppedAfter(case.name.copy()))
    } else {
        None
    }
}

/// What becomes of a test case by the answer to its run: it is finished with the report, or the campaign is aborted at its name, for the
/// same reason.
fn ended(
    name: Name,
    names: Vec<Name>,
    answer: Result<CaseReport, CaseError>,
) -> Result<Finished, CampaignEnd>
    ensures { result ≡ ended_by name names.items answer }
{
    match answer {
        Ok(report) => Ok(Finished {
            name,
            names: Sequence::new(names),
            report,
        }),
        Err(why) => Err(CampaignEnd::Aborted { name, why }),
    }
}

/// Runs a test case. If it is refused, the campaign is aborted at its name.
fn finish<R: Threads + Wait + Copy + Send + 'static, B: Callable>(
    rt: &R,
    alloc: Global,
    case: Case<B>,
    threads: u16,
) -> Result<Finished, CampaignEnd>
    ensures finished { IfOk result (IsOf (outline_of case)) }
    ensures refused { IfErr result (IsRefused B.outcome threads case) }
    ensures called { IfOk result (IsCalled B.outcome case) }
    ensures threads { IfOk result (HasThreads threads) }
{
    let Case { name, names, jobs } = case;
    let answer = run_case_with(rt, alloc, jobs, threads, &mut Everyone);
    ended(name, names, answer)
}

/// Runs a test case and gives its report to the observer, before the next one begins; says how the campaign continues.
fn run_next<R: Threads + Wait + Copy + Send + 'static, B: Callable, O: Observer>(
    rt: &R,
    alloc: Global,
    case: Case<B>,
    stop_on: Option<Verdict>,
    threads: u16,
    observer: &mut O,
) -> Step
    ensures { IsStep B.outcome O.takes stop_on threads case observer.old observer.new result }
{
    let case = match finish(rt, alloc, case, threads) {
        Ok(case) => case,
        Err(ending) => return Step::Refused(ending),
    };
    let stop = stop_after(stop_on, &case);
    if !observer.take(case) {
        return Step::CutShort;
    }
    match stop {
        Some(ending) => Step::Stops(ending),
        None => Step::GoesOn,
    }
}

/// Runs the test cases up to the last by the stopping rule, or the first that is refused, or the one at which the
/// observer ends the campaign. Says how the campaign ended, if the observer did not end it.
fn run_all<R: Threads + Wait + Copy + Send + 'static, B: Callable, O: Observer>(
    rt: &R,
    alloc: Global,
    cases: Vec<Case<B>>,
    stop_on: Option<Verdict>,
    threads: u16,
    observer: &mut O,
) -> Option<CampaignEnd>
    ensures { WasRun B.outcome O.takes stop_on threads cases.items observer.old observer.new result }
{
    for case in cases {
        match run_next(rt, alloc, case, stop_on, threads, observer) {
            Step::GoesOn => {}
            Step::Stops(ending) => return Some(ending),
            Step::Refused(ending) => return Some(ending),
            Step::CutShort => return None,
        }
    }
    Some(CampaignEnd::Complete)
}

/// Runs the test cases of a campaign one after the other, and gives the report of each to the observer before the next
/// one begins. No report is kept here, so the campaign takes the memory of one test case.
///
/// It is run as by `run_campaign`, except that the observer may end it: then there is no answer, and no further test
/// case is run. Otherwise the answer is how it ended.
pub fn run_campaign_with<R: Threads + Wait + Copy + Send + 'static, B: Callable, O: Observer>(
    rt: &R,
    alloc: Global,
    cases: Vec<Case<B>>,
    stop_on: Option<Verdict>,
    threads: u16,
    observer: &mut O,
) -> Option<CampaignEnd>
    requires names { All HasNames cases.items }
    ensures ended { IfSome result (IsObserved B.outcome cases.items stop_on threads O.takes observer.old observer.new) }
    ensures cut { IfNone result (IsCutShort B.outcome cases.items stop_on threads O.takes observer.old observer.new) }
{
    run_all(rt, alloc, cases, stop_on, threads, observer)
}

/// How a campaign ends that has no room for its reports.
fn ending_without_room<B: Callable>(cases: Vec<Case<B>>) -> CampaignEnd
    ensures { IsUnrun (map outline_of cases.items) result }
{
    match cases.into_iter().next() {
        Some(case) => CampaignEnd::Aborted {
            name: case.name,
            why: CaseError::NoMemory,
        },
        None => CampaignEnd::Complete,
    }
}

/// The results of a campaign that has no room for its reports: none of its test cases is run, and it is aborted at the
/// first of them, if there is one.
pub fn without_room<B: Callable>(alloc: Global, cases: Vec<Case<B>>) -> Results
    ensures none { result.finished ≡ [] }
    ensures run { (stop_on : Option AnyVerdict) (threads : ℕ)
        → IsRunTo outline_of (IsCalled B.outcome) cases.items stop_on threads (AreBack B.outcome) result.finished result.ending }
{
    Results {
        finished: Sequence::new(Vec::new(alloc)),
        ending: ending_without_room(cases),
    }
}

// Runs the test cases, and keeps all of them: there is room.
fn run_kept<R: Threads + Wait + Copy + Send + 'static, B: Callable>(
    rt: &R,
    alloc: Global,
    cases: Vec<Case<B>>,
    stop_on: Option<Verdict>,
    threads: u16,
    kept: Kept,
) -> Results
    requires names { All HasNames cases.items }
    requires none { kept.finished.items ≡ [] }
    requires room { vec_len cases ≤ vec_capacity kept.finished }
    ensures run { IsRunTo outline_of (IsCalled B.outcome) cases.items stop_on threads (AreBack B.outcome) result.finished result.ending }
{
    let mut kept = kept;
    let ending = run_campaign_with(rt, alloc, cases, stop_on, threads, &mut kept);
    match ending {
        Some(ending) => kept.into_results(ending),
        None => unreachable!(),
    }
}

/// Runs the test cases of a campaign one after the other (ES 201 873-1, the execute statement), as by `run_campaign_with`
/// with an observer that keeps them, a `Kept`.
///
/// Each finished test case has the report of its own jobs. A test case whose verdict is `stop_on` or worse is the last.
/// A test case that is refused ends the campaign, and the finished test cases stay. The room for all reports is made
/// first; if it is refused the campaign is aborted at the first test case, with NoMemory. A campaign of no test cases
/// is complete, and takes no memory. Each test case may have that many worker threads. Campaigns and their stopping
/// rule are this project's own.
pub fn run_campaign<R: Threads + Wait + Copy + Send + 'static, B: Callable>(
    rt: &R,
    alloc: Global,
    cases: Vec<Case<B>>,
    stop_on: Option<Verdict>,
    threads: u16,
) -> Results
    requires names { All HasNames cases.items }
    ensures run { IsRunTo outline_of (IsCalled B.outcome) cases.items stop_on threads (AreBack B.outcome) result.finished result.ending }
{
    match Kept::with_room(alloc, cases.len()) {
        Ok(kept) => run_kept(rt, alloc, cases, stop_on, threads, kept),
        Err(_) => without_room(alloc, cases),
    }
}
