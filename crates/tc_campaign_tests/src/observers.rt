//! Observers: what each is given, when, and what its refusal does.
ghost use Rattle.std.specs.Prelude.{⊤, All};
ghost use Rattle.tc_campaign.specs.Prelude.{HasNames};

use crate::cases::{Counts, Does, between, case_of, counted};
use crate::checks::{holds, is};
use crate::results::name;
use std::alloc::Global;
use std::io;
use std::io::Write;
use std::process::Abort;
use std::sync::Wait;
use std::test::Fail;
use std::thread::Threads;
use std::time::{Clock, Duration};
use tc_campaign::{
    CampaignEnd, Case, Finished, LiveForm, LiveWriter, Observer, OutFault, Progress,
    run_campaign_with,
};
use tc_entry::{Name, UserVerdict, Verdict};
use tc_exec::Callable;
use tc_report::{Shown, Stopwatch};
use tc_stream::devices::{NarrowWriter, WriteFailure};

/// Notes how many test cases have begun when each report comes, and ends the campaign at the report of this number.
#[derive(Drop)]
struct Noting {
    counts: Counts,
    noted: Vec<u64>,
    last: usize,
}

impl Noting {
    fn new(alloc: Global, last: usize) -> Result<Noting, Fail> {
        Ok(Noting {
            counts: Counts::new(alloc)?,
            noted: Vec::new(alloc),
            last,
        })
    }
}

impl Observer for Noting {
    ghost takes = { λ _ _ _ _. ⊤ };

    fn take(&mut self, _case: Finished) -> bool {
        let noted = self.noted.push(self.counts.begun());
        noted.is_ok() && self.noted.len() < self.last
    }
}

/// How a campaign of three counted test cases ends that is observed.
fn observe<R: Threads + Wait + Copy + Send + 'static>(
    rt: &R,
    alloc: Global,
    stop_on: Option<Verdict>,
    noting: &mut Noting,
) -> Result<Option<CampaignEnd>, Fail> {
    let cases = counted(alloc, &noting.counts)?;
    Ok(run_campaign_with(rt, alloc, cases, stop_on, 0, noting))
}

#[test]
fn each_report_comes_before_the_next_case(rt: HostRuntime) -> Result<(), Fail> {
    let mut noting = Noting::new(rt.alloc(), usize::MAX)?;
    let ending = observe(&rt, rt.alloc(), None, &mut noting)?;
    let is_complete = matches!(ending, Some(CampaignEnd::Complete));
    holds(&rt, "the campaign is complete", is_complete);
    let wanted = [1u64, 2, 3];
    is(
        &rt,
        "the reports",
        noting.noted.as_slice(),
        wanted.as_slice(),
    );
    Ok(())
}

#[test]
fn the_rule_stops_an_observed_campaign(rt: HostRuntime) -> Result<(), Fail> {
    let mut noting = Noting::new(rt.alloc(), usize::MAX)?;
    let ending = observe(&rt, rt.alloc(), Some(Verdict::Pass), &mut noting)?;
    let is_stopped = matches!(ending, Some(CampaignEnd::StoppedAfter(_)));
    holds(&rt, "the rule stops the campaign", is_stopped);
    is(&rt, "how many reports came", noting.noted.len(), 1);
    is(&rt, "how many cases began", noting.counts.begun(), 1);
    Ok(())
}

/// Observes the test cases up to the report of this number.
fn refuse_at<R: Abort + Threads + Wait + Copy + Send + 'static>(
    rt: &R,
    alloc: Global,
    last: usize,
) -> Result<(), Fail> {
    let mut noting = Noting::new(alloc, last)?;
    let ending = observe(rt, alloc, None, &mut noting)?;
    holds(rt, "the campaign is cut short", ending.is_none());
    is(rt, "how many reports came", noting.noted.len(), last);
    is(
        rt,
        "how many cases began",
        noting.counts.begun(),
        last as u64,
    );
    Ok(())
}

#[test]
fn no_case_begins_behind_a_refusal(rt: HostRuntime) -> Result<(), Fail> {
    for last in 1..4usize {
        refuse_at(&rt, rt.alloc(), last)?;
    }
    Ok(())
}

/// A writer that notes how many test cases had begun at each flush.
#[derive(Drop)]
struct Flushing {
    counts: Counts,
    taken: Vec<u8>,
    flushes: Vec<u64>,
}

impl Flushing {
    fn new(alloc: Global, counts: &Counts) -> Result<Flushing, Fail> {
        Ok(Flushing {
            counts: counts.share()?,
            taken: Vec::new(alloc),
            flushes: Vec::new(alloc),
        })
    }
}

impl Write for Flushing {
    fn write(&mut self, buf: &[u8]) -> io::Result<usize> {
        self.taken.extend_from_slice(buf)?;
        Ok(buf.len())
    }

    fn flush(&mut self) -> io::Result<()> {
        Ok(self.flushes.push(self.counts.begun())?)
    }
}

/// How a campaign ended that was written as its test cases finished, and its exit status; or why it was not written whole.
type LiveAnswer = Result<(CampaignEnd, u8), OutFault>;

/// Writes what follows the test cases of a campaign that ended so; without an ending the writer has ended it.
fn close<W: Write>(ending: Option<CampaignEnd>, live: &mut LiveWriter<'_, W>) -> LiveAnswer {
    let Some(ending) = ending else {
        return Err(live.fault.unwrap_or(OutFault::NoMemory));
    };
    let status = live.end(&ending)?;
    Ok((ending, status))
}

/// The answer to these test cases that are written by this as they finish.
fn write_cases<R: Threads + Wait + Copy + Send + 'static, B: Callable, W: Write>(
    rt: &R,
    alloc: Global,
    cases: Vec<Case<B>>,
    live: &mut LiveWriter<'_, W>,
) -> LiveAnswer
    requires { All HasNames cases.items }
{
    live.begin()?;
    let ending = run_campaign_with(rt, alloc, cases, None, 0, live);
    close(ending, live)
}

/// The answer to three counted test cases that are written as they finish.
fn write_three<R: Threads + Wait + Copy + Send + 'static, W: Write>(
    rt: &R,
    alloc: Global,
    counts: &Counts,
    writer: &mut W,
) -> Result<LiveAnswer, Fail> {
    let cases = counted(alloc, counts)?;
    let mut live = LiveWriter::new(alloc, LiveForm::Csv, writer);
    Ok(write_cases(rt, alloc, cases, &mut live))
}

/// The status of a campaign that is complete.
fn status_of(answer: &LiveAnswer) -> Result<u8, OutFault> {
    match answer {
        Ok((CampaignEnd::Complete, status)) => Ok(*status),
        Ok(_) => Ok(9),
        Err(fault) => Err(*fault),
    }
}

const HEADER: &str = "testcase,components,none,pass,inconc,fail,error,verdict\n";

const TABLE: &str = "testcase,components,none,pass,inconc,fail,error,verdict
a,1,0,1,0,0,0,pass
b,1,0,1,0,0,0,pass
c,1,0,1,0,0,0,pass
";

#[test]
fn a_live_campaign_is_written_case_by_case(rt: HostRuntime) -> Result<(), Fail> {
    let counts = Counts::new(rt.alloc())?;
    let mut writer = Flushing::new(rt.alloc(), &counts)?;
    let answer = write_three(&rt, rt.alloc(), &counts, &mut writer)?;
    is(&rt, "the status", status_of(&answer), Ok(0));
    is(&rt, "the table", writer.taken.as_slice(), TABLE.as_bytes());
    let wanted = [0u64, 1, 2, 3, 3];
    is(
        &rt,
        "the flushes",
        writer.flushes.as_slice(),
        wanted.as_slice(),
    );
    Ok(())
}

/// Writes the table to a writer that fails after this part of it; that many test cases begin.
fn fail_behind<R: Abort + Threads + Wait + Copy + Send + 'static>(
    rt: &R,
    alloc: Global,
    part: &str,
    cases: u64,
) -> Result<(), Fail> {
    let counts = Counts::new(alloc)?;
    let mut writer = NarrowWriter::new(alloc, part.len(), WriteFailure::Broken);
    let answer = write_three(rt, alloc, &counts, &mut writer)?;
    let wanted = if part == TABLE {
        Ok(0)
    } else {
        Err(OutFault::Write)
    };
    is(rt, "the answer", status_of(&answer), wanted);
    is(
        rt,
        "what is written",
        writer.taken.as_slice(),
        part.as_bytes(),
    );
    is(rt, "how many cases began", counts.begun(), cases);
    Ok(())
}

/// How many lines of a text are whole.
fn whole_lines(part: &str) -> u64 {
    let ends = part.as_bytes().iter().filter(|byte| **byte == b'\n');
    ends.count() as u64
}

// A test case begins if the header, and each test case before, has been written whole.
#[test]
fn no_case_begins_behind_a_write_fault(rt: HostRuntime) -> Result<(), Fail> {
    for fails_at in 0..=TABLE.len() {
        let part = TABLE.get(..fails_at).ok_or("a prefix")?;
        fail_behind(&rt, rt.alloc(), part, whole_lines(part).min(3))?;
    }
    Ok(())
}

/// A clock that says no time.
#[derive(Drop)]
struct NoClock;

impl Clock for NoClock {
    fn monotonic(&self) -> io::Result<Duration> {
        Err(io::Error::from(io::ErrorKind::Unsupported))
    }

    fn since_1970(&self) -> io::Result<Duration> {
        self.monotonic()
    }
}

/// Runs these test cases with one that writes their table, and reports them on this writer.
fn tell_cases<R: Threads + Wait + Copy + Send + 'static, B: Callable, W: Write>(
    rt: &R,
    alloc: Global,
    cases: Vec<Case<B>>,
    live: &mut LiveWriter<'_, W>,
    names: &[Name],
    lines: &mut Vec<u8>,
) -> (Option<CampaignEnd>, Result<(), OutFault>)
    requires { All HasNames cases.items }
{
    let mut failed = Vec::new(alloc);
    let shown = Shown { names, only: false };
    let mut watch = Stopwatch::new(alloc, &NoClock, true);
    let mut progress = Progress::new(alloc, &mut watch, shown, None, live, lines, &mut failed);
    progress.begin();
    let ending = run_campaign_with(rt, alloc, cases, None, 0, &mut progress);
    let told = progress.end();
    (ending, told)
}

/// What comes of three test cases, of which the second fails, that are reported and whose table goes to this writer.
fn tell<R: Abort + Threads + Wait + Copy + Send + 'static, W: Write>(
    rt: &R,
    alloc: Global,
    table: &mut W,
    lines: &mut Vec<u8>,
) -> Result<(LiveAnswer, Result<(), OutFault>), Fail> {
    let fails = Some(Does::Sets(UserVerdict::Fail));
    let second = case_of(rt, alloc, "b", fails, 0)?;
    let cases = between(alloc, second)?;
    let mut live = LiveWriter::new(alloc, LiveForm::Csv, table);
    live.begin()?;
    let names = vec![in alloc; name("a")?, name("b")?, name("c")?]?;
    let (ending, told) = tell_cases(rt, alloc, cases, &mut live, names.as_slice(), lines);
    Ok((close(ending, &mut live), told))
}

// A campaign whose table can't be written is reported up to the test case at which that was found.
#[test]
fn a_campaign_that_is_cut_short_is_told_of(rt: HostRuntime) -> Result<(), Fail> {
    let written = HEADER.len() + "a,1,0,1,0,0,0,pass\n".len();
    let mut table = NarrowWriter::new(rt.alloc(), written, WriteFailure::Full);
    let mut lines = Vec::new(rt.alloc());
    let (ended, told) = tell(&rt, rt.alloc(), &mut table, &mut lines)?;
    is(&rt, "the table", status_of(&ended), Err(OutFault::Write));
    is(&rt, "whether the lines were written", told, Ok(()));
    let wanted = "1/3 a ..
1/3 a pass
2/3 b ..
2/3 b fail: run 0 main on mtc: setverdict fail -> ok
failed: b fail: run 0 main on mtc: setverdict fail -> ok
1 passed, 1 failed
";
    is(&rt, "what is told", lines.as_slice(), wanted.as_bytes());
    Ok(())
}
