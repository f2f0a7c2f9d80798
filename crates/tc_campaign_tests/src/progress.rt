//! What is printed about test cases as they finish, to a writer that fails.
ghost use Rattle.std.specs.Prelude.{⊤};

use crate::checks::{holds, is};
use crate::devices::FAILURES;
use crate::results::{CASES, finished, name, results};
use std::alloc::Global;
use std::cell::Cell;
use std::io::Write;
use std::process::Abort;
use std::test::Fail;
use std::time::{Clock, Duration};
use std::{io, str};
use tc_campaign::{CampaignEnd, Finished, Observer, OutFault, Progress};
use tc_entry::{Name, Verdict};
use tc_report::{Shown, Stopwatch, Timed, Times, junit_report, summaries_of_results};
use tc_stream::devices::{NarrowWriter, WriteFailure};

const TOLD: &str = "1/3 a ..
1/3 a pass 0.007 s
2/3 b ..
2/3 b fail 0.041 s: run 0 main on mtc: setverdict fail -> ok
3/3 c ..
3/3 c inconc 75.100 s: run 0 main on mtc: setverdict inconc -> ok
failed: b fail: run 0 main on mtc: setverdict fail -> ok
failed: c inconc: run 0 main on mtc: setverdict inconc -> ok
1 passed, 2 failed, 75.1 s
";

// What a clock says one time after the other, in thousandths of a second: when each test case begins, when it has ended,
// and twice when all have.
const TIMES: [u64; 8] = [
    60_000, 60_007, 60_007, 60_048, 60_048, 135_148, 135_148, 135_149,
];

// 2024-02-29T23:59:59, in seconds since 1970.
const SECOND: u64 = 1_709_251_199;

/// A clock that says these times. After the last it fails.
#[derive(Drop)]
struct Watch {
    times: &'static [u64],
    place: Cell<usize>,
}

impl Watch {
    fn new(times: &'static [u64]) -> Watch {
        Watch {
            times,
            place: Cell::new(0),
        }
    }
}

impl Clock for Watch {
    fn monotonic(&self) -> io::Result<Duration> {
        let place = self.place.get();
        self.place.set(place.saturating_add(1));
        match self.times.get(place) {
            Some(time) => Ok(Duration::from_millis(*time)),
            None => Err(io::Error::from(io::ErrorKind::Unsupported)),
        }
    }

    fn since_1970(&self) -> io::Result<Duration> {
        Ok(Duration::from_millis(SECOND * 1000 + 999))
    }
}

/// Counts the test cases.
#[derive(Drop)]
struct Counting {
    taken: usize,
}

impl Observer for Counting {
    ghost takes = { λ _ _ _ _. ⊤ };

    fn take(&mut self, _case: Finished) -> bool {
        self.taken = self.taken.saturating_add(1);
        true
    }
}

/// The names of the test cases.
fn names(alloc: Global) -> Result<Vec<Name>, Fail> {
    let mut names = Vec::new(alloc);
    for (text, _) in CASES {
        names.push(name(text)?)?;
    }
    Ok(names)
}

/// Reports each test case, up to one with this verdict.
fn tell_each<E: Write>(
    alloc: Global,
    stop_on: Option<Verdict>,
    progress: &mut Progress<'_, '_, Counting, E, Watch>,
) -> Result<(), Fail> {
    progress.begin();
    for (text, setting) in CASES {
        let case = finished(alloc, text, setting)?;
        let last = stop_on == Some(case.report.verdict);
        progress.take(case);
        if last {
            break;
        }
    }
    Ok(())
}

/// Reports the test cases, or only those that have failed, and says how many were taken, and what came of it.
fn tell<E: Write>(
    alloc: Global,
    only: bool,
    stop_on: Option<Verdict>,
    times: &'static [u64],
    writer: &mut E,
) -> Result<(usize, Result<(), OutFault>), Fail> {
    let mut counting = Counting { taken: 0 };
    // What is in it is of another campaign, and is not printed.
    let mut failed = vec![in alloc; b'x']?;
    let names = names(alloc)?;
    let clock = Watch::new(times);
    let mut watch = Stopwatch::new(alloc, &clock, true);
    let mut progress = Progress::new(
        alloc,
        &mut watch,
        Shown {
            names: names.as_slice(),
            only,
        },
        stop_on,
        &mut counting,
        writer,
        &mut failed,
    );
    tell_each(alloc, stop_on, &mut progress)?;
    let told = progress.end();
    Ok((counting.taken, told))
}

/// Reports to a writer that fails at this byte, if it comes to it: a prefix is printed, and all test cases are taken.
fn tell_in_vain<R: Abort>(
    rt: &R,
    alloc: Global,
    failure: WriteFailure,
    fails_at: usize,
) -> Result<(), Fail> {
    let part = TOLD.as_bytes().get(..fails_at).ok_or("a prefix")?;
    let wanted = if fails_at == TOLD.len() {
        Ok(())
    } else {
        Err(OutFault::Write)
    };
    let mut writer = NarrowWriter::new(alloc, fails_at, failure);
    let (taken, answer) = tell(alloc, false, None, &TIMES, &mut writer)?;
    is(rt, "how many cases are taken", taken, CASES.len());
    is(rt, "the answer", answer, wanted);
    is(rt, "what is told", writer.taken.as_slice(), part);
    Ok(())
}

// The writer fails at each byte in turn, and not at all.
#[test]
fn behind_a_fault_nothing_more_is_told(rt: HostRuntime) -> Result<(), Fail> {
    for fails_at in 0..=TOLD.len() {
        for failure in FAILURES {
            tell_in_vain(&rt, rt.alloc(), failure, fails_at)?;
        }
    }
    Ok(())
}

/// What is printed by this clock, under this stopping rule.
fn told_of(
    alloc: Global,
    stop_on: Option<Verdict>,
    times: &'static [u64],
) -> Result<Vec<u8>, Fail> {
    let mut lines = Vec::new(alloc);
    let (_, answer) = tell(alloc, false, stop_on, times, &mut lines)?;
    answer?;
    Ok(lines)
}

const SHORT: [u64; 6] = [0, 9, 9, 19, 19, 118];

// Each time has three digits after its point.
#[test]
fn thousandths_of_a_second(rt: HostRuntime) -> Result<(), Fail> {
    let told = told_of(rt.alloc(), None, &SHORT)?;
    let text = str::from_utf8(told.as_slice())?;
    for time in ["pass 0.009 s\n", "fail 0.010 s: ", "inconc 0.099 s: "] {
        holds(&rt, time, text.contains(time));
    }
    Ok(())
}

// A clock that fails leaves out its time: here as the second test case ends, and as the third begins.
#[test]
fn without_a_time(rt: HostRuntime) -> Result<(), Fail> {
    let told = told_of(rt.alloc(), None, &[5, 4, 10])?;
    let wanted = "1/3 a ..
1/3 a pass 0.000 s
2/3 b ..
2/3 b fail: run 0 main on mtc: setverdict fail -> ok
3/3 c ..
3/3 c inconc: run 0 main on mtc: setverdict inconc -> ok
failed: b fail: run 0 main on mtc: setverdict fail -> ok
failed: c inconc: run 0 main on mtc: setverdict inconc -> ok
1 passed, 2 failed
";
    is(&rt, "what is told", told.as_slice(), wanted.as_bytes());
    Ok(())
}

/// Times of three test cases, of which two are kept.
fn kept_times(alloc: Global) -> Result<Times, Fail> {
    let clock = Watch::new(&TIMES);
    let mut watch = Stopwatch::new(alloc, &clock, true);
    watch.make_room(2)?;
    watch.begin();
    let mut counting = Counting { taken: 0 };
    let mut timed = Timed::new(&mut watch, &mut counting);
    for (text, setting) in CASES {
        timed.take(finished(alloc, text, setting)?);
    }
    Ok(watch.take_times())
}

// A clock that nobody wants a time of is not read.
#[test]
fn an_unread_clock(rt: HostRuntime) -> Result<(), Fail> {
    let clock = Watch::new(&TIMES);
    let mut watch = Stopwatch::new(rt.alloc(), &clock, false);
    watch.begin();
    is(&rt, "a time", watch.finish(), None);
    is(&rt, "how often it is read", clock.place.get(), 0);
    Ok(())
}

// A suite has the times that are known: none of the third test case.
#[test]
fn a_suite_has_times(rt: HostRuntime) -> Result<(), Fail> {
    let results = results(rt.alloc(), CampaignEnd::Complete)?;
    let cases = summaries_of_results(rt.alloc(), &[], &results)?;
    let times = kept_times(rt.alloc())?;
    let suite = junit_report(rt.alloc(), "7", &None, &times, cases.as_slice())?;
    let text = str::from_utf8(suite.as_slice())?;
    for part in [
        " skipped=\"0\" timestamp=\"2024-02-29T23:59:59\" time=\"75.149\">\n<properties>",
        "<testcase name=\"a\" classname=\"ttrun\" time=\"0.007\">\n",
        "<testcase name=\"b\" classname=\"ttrun\" time=\"0.041\">\n",
        "<testcase name=\"c\" classname=\"ttrun\">\n",
    ] {
        holds(&rt, part, text.contains(part));
    }
    Ok(())
}

// If only failures are reported, no other test case has a line.
#[test]
fn only_failures_have_lines(rt: HostRuntime) -> Result<(), Fail> {
    let mut lines = Vec::new(rt.alloc());
    let (_, answer) = tell(rt.alloc(), true, None, &TIMES, &mut lines)?;
    let wanted = "2/3 b fail 0.041 s: run 0 main on mtc: setverdict fail -> ok
3/3 c inconc 75.100 s: run 0 main on mtc: setverdict inconc -> ok
1 passed, 2 failed, 75.1 s
";
    is(&rt, "the answer", answer, Ok(()));
    is(&rt, "what is told", lines.as_slice(), wanted.as_bytes());
    Ok(())
}

// After a test case by which the campaign stops none is said to begin.
#[test]
fn none_begins_after_the_last(rt: HostRuntime) -> Result<(), Fail> {
    let told = told_of(rt.alloc(), Some(Verdict::Fail), &TIMES)?;
    let begins = b" ..".as_slice();
    let begun = told.windows(3).filter(|bytes| *bytes == begins).count();
    is(&rt, "how many begin", begun, 2);
    Ok(())
}
