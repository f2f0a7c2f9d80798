//! What a campaign hands back: its finished test cases, kept and counted.
ghost use Rattle.std.specs.{Prelude.{◌≡◌, ◌≤◌, ◌+◌, [], IfOk}, Vec.vec_capacity};
ghost use Rattle.tc_report.specs.{Inside.IsOneMore, Inside.cases_of as spec_cases, Inside.one_if, Observers.Keeps, Report.count_of as spec_count, Report.tally_of_cases};

use crate::observer::Observer;
use std::alloc::Global;
use tc_entry::{Name, NoMemory, Sequence, Verdict};
use tc_rules::{CaseError, Closed};

/// A test case that was run to its end.
#[derive(Drop)]
pub struct Finished {
    /// The name of the test case.
    pub name: Name,
    /// The names of its behaviours, that of run 0 first.
    pub names: Sequence<Name>,
    /// Its report.
    pub report: Closed,
}

/// How a test case ended, as far as its history says.
#[derive(Clone, Copy, Debug, PartialEq, Eq)]
pub enum CaseEnd {
    /// It is over, with this overall verdict.
    Over(Verdict),
    /// No entry of its history ended it.
    Unfinished,
    /// It has no report.
    Aborted(CaseError),
    /// Its script has it, and it has no history.
    Missing,
    /// Its campaign ended before it.
    NotRun,
}

/// How a campaign ended.
#[derive(Drop)]
pub enum CampaignEnd {
    /// All test cases were run.
    Complete,
    /// The stopping rule held after the test case of this name.
    StoppedAfter(Name),
    /// The test case of this name has no report.
    Aborted { name: Name, why: CaseError },
}

/// The results of a campaign.
#[derive(Drop)]
pub struct Results {
    /// The finished test cases, in their order.
    pub finished: Sequence<Finished>,
    /// How the campaign ended.
    pub ending: CampaignEnd,
}

/// How many test cases finished, and how many of them with each overall verdict.
#[derive(Clone, Copy, PartialEq, Eq, Debug)]
pub struct Tally {
    pub cases: usize,
    pub none: usize,
    pub pass: usize,
    pub inconc: usize,
    pub fail: usize,
    pub error: usize,
}

/// Keeps each finished test case, and ends the campaign if there is no room for it.
#[derive(Drop)]
pub struct Kept {
    /// Those that it was given.
    pub finished: Vec<Finished>,
}

impl Kept {
    /// Keeps none so far, and has room for that many.
    pub fn with_room(alloc: Global, cases: usize) -> Result<Kept, NoMemory>
        ensures none { IfOk result (λ kept. kept.finished.items ≡ []) }
        ensures room { IfOk result (λ kept. cases ≤ vec_capacity kept.finished) }
    {
        let finished = Vec::with_capacity(alloc, cases)?;
        Ok(Kept { finished })
    }

    /// The results of a campaign that gave it its test cases, and ended so.
    pub fn into_results(self, ending: CampaignEnd) -> Results
        ensures finished { result.finished ≡ self.finished.items }
        ensures ending { result.ending ≡ ending }
    {
        Results {
            finished: Sequence::new(self.finished),
            ending,
        }
    }
}

impl Observer for Kept {
    ghost takes = { Keeps };

    fn take(&mut self, case: Finished) -> bool {
        let fits = self.finished.len() < self.finished.capacity();
        if fits {
            self.finished.push_reserved(case);
        }
        fits
    }
}

/// How many of the verdicts are this one.
pub(crate) fn count_of(verdicts: &[Verdict], verdict: Verdict) -> usize
    ensures { result ≡ spec_count verdict verdicts.now }
{
    verdicts.iter().filter(|one| **one == verdict).count()
}

fn cases_of(cases: &[Finished], verdict: Verdict) -> usize
    ensures { result ≡ spec_cases verdict cases.now }
{
    let found = cases.iter().filter(|case| case.report.verdict == verdict);
    found.count()
}

fn count_more(count: usize, more: bool) -> Result<usize, NoMemory>
    ensures { IfOk result (λ n. n ≡ count + one_if more) }
{
    count.checked_add(usize::from(more)).ok_or(NoMemory)
}

/// The tally with this test case more; a count that is no number of the machine is more than there is memory for.
#[tactic(auto, using(crate::proofs::Counting::is_one_more))]
pub(crate) fn with_case(tally: &Tally, case: &Finished) -> Result<Tally, NoMemory>
    ensures { IfOk result (λ t. IsOneMore tally.now case.now t) }
{
    let verdict = case.report.verdict;
    Ok(Tally {
        cases: count_more(tally.cases, true)?,
        none: count_more(tally.none, verdict == Verdict::None)?,
        pass: count_more(tally.pass, verdict == Verdict::Pass)?,
        inconc: count_more(tally.inconc, verdict == Verdict::Inconc)?,
        fail: count_more(tally.fail, verdict == Verdict::Fail)?,
        error: count_more(tally.error, verdict == Verdict::Error)?,
    })
}

/// The tally of these test cases.
pub(crate) fn tally_cases(cases: &[Finished]) -> Tally
    ensures { result ≡ tally_of_cases cases.now }
{
    Tally {
        cases: cases.len(),
        none: cases_of(cases, Verdict::None),
        pass: cases_of(cases, Verdict::Pass),
        inconc: cases_of(cases, Verdict::Inconc),
        fail: cases_of(cases, Verdict::Fail),
        error: cases_of(cases, Verdict::Error),
    }
}
