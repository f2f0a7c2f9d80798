//! The exit status, and the stopping rule.
ghost use Rattle.std.specs.Prelude.{◌≡◌, IsTrue, false, map};
ghost use Rattle.tc_report.specs.{Observers.IsMet, Status.ended as spec_ended, Status.ending_status as spec_ending, Status.results_status, Status.verdict_status as spec_status, Status.worst_of as spec_worst, Summary.case_summary};

use crate::results::{CampaignEnd, CaseEnd, Finished, Results};
use crate::summary::Summary;
use tc_entry::Verdict;
use tc_verdict::{name as name_of, worse_of};

/// Of the end of a test case its word, the verdict that it counts as, and what JUnit says of one without a verdict. It
/// counts as error if it is not over, is missing, or has no report, and as none if it was not run.
pub(crate) fn ended(ending: CaseEnd) -> (&'static str, Verdict, &'static str)
    ensures word { result.0.now ≡ (spec_ended ending).0 }
    ensures verdict { result.1 ≡ (spec_ended ending).1 }
    ensures message { result.2.now ≡ (spec_ended ending).2 }
{
    let error = Verdict::Error;
    match ending {
        CaseEnd::Over(verdict) => (name_of(verdict), verdict, ""),
        CaseEnd::Unfinished => ("unfinished", error, "the test case is not over"),
        CaseEnd::Aborted(why) => ("aborted", error, why.text()),
        CaseEnd::Missing => ("missing", error, "there is no history of the test case"),
        CaseEnd::NotRun => ("notrun", Verdict::None, ""),
    }
}

fn worst_overall(cases: &[Finished]) -> Verdict
    ensures { result ≡ spec_worst (map case_summary cases.now) }
{
    let mut worst = Verdict::None;
    for case in cases {
        worst = worse_of(worst, case.report.verdict);
    }
    worst
}

// The worst of the verdicts that the test cases count as, none if there is none.
fn worst_of(cases: &[Summary]) -> Verdict
    ensures { result ≡ spec_worst cases.now }
{
    let mut worst = Verdict::None;
    for case in cases {
        worst = worse_of(worst, ended(case.ending).1);
    }
    worst
}

/// The exit status for a verdict: 0 for none and pass, 1 for inconc and fail, 2 for error.
pub fn verdict_status(verdict: Verdict) -> u8
    ensures { result ≡ spec_status verdict }
{
    match verdict {
        Verdict::None | Verdict::Pass => 0,
        Verdict::Inconc | Verdict::Fail => 1,
        Verdict::Error => 2,
    }
}

/// The exit status for a campaign that ended so, if this is the worst overall verdict. It takes no memory.
pub(crate) fn ending_status(ending: &CampaignEnd, worst: Verdict) -> u8
    ensures { result ≡ spec_ending ending.now worst }
{
    match ending {
        CampaignEnd::Aborted { .. } => 3,
        CampaignEnd::Complete | CampaignEnd::StoppedAfter(_) => verdict_status(worst),
    }
}

/// The exit status: 3 if the campaign was aborted; otherwise 0 if the worst overall verdict is none or pass, 1 if it is
/// inconc or fail, 2 if it is error. It takes no memory.
pub fn status_of(results: &Results) -> u8
    ensures { result ≡ results_status results.now }
{
    ending_status(&results.ending, worst_overall(results.finished.as_slice()))
}

/// The exit status: 0 if the worst overall verdict is none or pass, 1 if it is inconc or fail, 2 if it is error. A test
/// case that is not over, is missing, or has no report, counts as error. It takes no memory.
pub fn worst_status(cases: &[Summary]) -> u8
    ensures { result ≡ spec_status (spec_worst cases.now) }
{
    verdict_status(worst_of(cases))
}

/// Whether a test case with this verdict is the last of its campaign.
pub fn is_met(stop_on: Option<Verdict>, verdict: Verdict) -> bool
    ensures met { IsTrue result → IsMet stop_on verdict }
    ensures better { result ≡ false → IsMet stop_on verdict → ⊥ }
{
    match stop_on {
        Some(worst) => worse_of(worst, verdict) == verdict,
        None => false,
    }
}
