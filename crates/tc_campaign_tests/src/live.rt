//! Texts that are written as test cases finish.
use crate::checks::{holds, is};
use crate::devices::{FAILURES, FORMS, text_of};
use crate::results::{CASES, finished, results};
use std::alloc::Global;
use std::io;
use std::io::Write;
use std::process::Abort;
use std::test::Fail;
use tc_book::Sequence;
use tc_campaign::{CampaignEnd, Finished, LiveForm, LiveWriter, Observer, OutFault};
use tc_entry::{UserVerdict, Verdict};
use tc_stream::devices::{NarrowWriter, WriteFailure};

/// Takes all bytes, and notes how many there were at each flush; the flush of this number fails, counted from 0. A flush of an
/// even number fails as one that was interrupted.
#[derive(Drop)]
struct Flushed {
    taken: Vec<u8>,
    flushes: Vec<usize>,
    fails_at: usize,
}

impl Flushed {
    fn new(alloc: Global, fails_at: usize) -> Flushed {
        Flushed {
            taken: Vec::new(alloc),
            flushes: Vec::new(alloc),
            fails_at,
        }
    }
}

impl Write for Flushed {
    fn write(&mut self, buf: &[u8]) -> io::Result<usize> {
        self.taken.extend_from_slice(buf)?;
        Ok(buf.len())
    }

    fn flush(&mut self) -> io::Result<()> {
        if self.flushes.len() == self.fails_at {
            return Err(io::Error::from(if self.fails_at % 2 == 0 {
                io::ErrorKind::Interrupted
            } else {
                io::ErrorKind::BrokenPipe
            }));
        }
        self.flushes.push(self.taken.len())?;
        Ok(())
    }
}

/// The text of the three test cases in this form.
fn whole_text(alloc: Global, form: LiveForm) -> Result<Vec<u8>, Fail> {
    let results = results(alloc, CampaignEnd::Complete)?;
    Ok(text_of(alloc, form, &results)?)
}

/// Whether the next test case is written.
fn take<W: Write>(alloc: Global, live: &mut LiveWriter<'_, W>, place: usize) -> Result<bool, Fail> {
    let (text, setting) = CASES.get(place).ok_or("a test case")?;
    Ok(live.take(finished(alloc, text, *setting)?))
}

/// How many of the test cases are written.
fn take_all<W: Write>(alloc: Global, live: &mut LiveWriter<'_, W>) -> Result<usize, Fail> {
    for place in 0..CASES.len() {
        if !take(alloc, live, place)? {
            return Ok(place);
        }
    }
    Ok(CASES.len())
}

/// Writes the test cases as they come, and says how many of them were taken, and what came of it.
fn write_all<W: Write>(
    alloc: Global,
    live: &mut LiveWriter<'_, W>,
) -> Result<(usize, Result<u8, OutFault>), Fail> {
    if let Err(fault) = live.begin() {
        return Ok((0, Err(fault)));
    }
    let taken = take_all(alloc, live)?;
    match live.fault {
        Some(fault) => Ok((taken, Err(fault))),
        None => Ok((taken, live.end(&CampaignEnd::Complete))),
    }
}

/// Writes the test cases as they come to this writer.
fn write_live<W: Write>(
    alloc: Global,
    form: LiveForm,
    writer: &mut W,
) -> Result<(usize, Result<u8, OutFault>), Fail> {
    let mut live = LiveWriter::new(alloc, form, writer);
    write_all(alloc, &mut live)
}

/// Adds where the text ends.
fn add_length(ends: &mut Vec<usize>, live: &LiveWriter<'_, Flushed>) -> Result<(), Fail> {
    Ok(ends.push(live.writer.taken.len())?)
}

/// Adds where the text ends after its opening, each test case and its closing.
fn add_ends(
    alloc: Global,
    ends: &mut Vec<usize>,
    live: &mut LiveWriter<'_, Flushed>,
) -> Result<(), Fail> {
    live.begin()?;
    add_length(ends, live)?;
    for place in 0..CASES.len() {
        take(alloc, live, place)?;
        add_length(ends, live)?;
    }
    live.end(&CampaignEnd::Complete)?;
    add_length(ends, live)
}

/// Writes the pieces to a writer that is flushed after each.
fn flush_each_piece<R: Abort>(rt: &R, alloc: Global, form: LiveForm) -> Result<(), Fail> {
    let mut writer = Flushed::new(alloc, usize::MAX);
    let mut ends = Vec::new(alloc);
    add_ends(
        alloc,
        &mut ends,
        &mut LiveWriter::new(alloc, form, &mut writer),
    )?;
    is(
        rt,
        "the flushes",
        writer.flushes.as_slice(),
        ends.as_slice(),
    );
    let whole = whole_text(alloc, form)?;
    is(rt, "the text", writer.taken.as_slice(), whole.as_slice());
    Ok(())
}

// At each flush the text ends after a test case: no flush comes late, and none is left out.
#[test]
fn each_piece_is_flushed(rt: HostRuntime) -> Result<(), Fail> {
    for form in FORMS {
        flush_each_piece(&rt, rt.alloc(), form)?;
    }
    Ok(())
}

/// Whether the test case is written.
fn take_one<W: Write>(alloc: Global, case: Finished, writer: &mut W) -> bool {
    let mut live = LiveWriter::new(alloc, LiveForm::Text, writer);
    live.take(case)
}

// A test case of as many components as there may be is flushed too.
#[test]
fn a_large_piece_is_flushed(rt: HostRuntime) -> Result<(), Fail> {
    let mut case = finished(rt.alloc(), "a", UserVerdict::Pass)?;
    case.report.locals = Sequence::new(vec![in rt.alloc(); Verdict::Pass; 1_000]?);
    let mut writer = Flushed::new(rt.alloc(), usize::MAX);
    let taken = take_one(rt.alloc(), case, &mut writer);
    holds(&rt, "the test case is taken", taken);
    let flushed = writer.flushes.as_slice().first().copied();
    is(&rt, "the flush", flushed, Some(writer.taken.len()));
    holds(&rt, "a large piece", writer.taken.len() > 10_000);
    Ok(())
}

/// Writes the text to a writer that fails at the flush of this number; the whole text is this.
fn flush_fails_at<R: Abort>(
    rt: &R,
    alloc: Global,
    whole: &[u8],
    fails_at: usize,
) -> Result<(), Fail> {
    let mut writer = Flushed::new(alloc, fails_at);
    let (taken, answer) = write_live(alloc, LiveForm::Text, &mut writer)?;
    is(rt, "the answer", answer, Err(OutFault::Write));
    let wanted = fails_at.saturating_sub(1).min(CASES.len());
    is(rt, "how many cases are taken", taken, wanted);
    let is_part = whole.starts_with(writer.taken.as_slice());
    holds(rt, "what is written is a part of the text", is_part);
    Ok(())
}

#[test]
fn each_flush_fails_in_turn(rt: HostRuntime) -> Result<(), Fail> {
    let whole = whole_text(rt.alloc(), LiveForm::Text)?;
    for fails_at in 0..CASES.len() + 2 {
        flush_fails_at(&rt, rt.alloc(), whole.as_slice(), fails_at)?;
    }
    Ok(())
}

/// Writes the text to a writer that fails at this write, if it comes to it; the whole text is this.
fn fails_at<R: Abort>(
    rt: &R,
    alloc: Global,
    form: LiveForm,
    whole: &[u8],
    place: usize,
    failure: WriteFailure,
) -> Result<(), Fail> {
    let part = whole.get(..place).ok_or("a prefix")?;
    let wanted = if place == whole.len() {
        Ok(1)
    } else {
        Err(OutFault::Write)
    };
    let mut writer = NarrowWriter::new(alloc, place, failure);
    let (_, answer) = write_live(alloc, form, &mut writer)?;
    is(rt, "the answer", answer, wanted);
    is(rt, "what is written", writer.taken.as_slice(), part);
    Ok(())
}

/// Each byte of the whole text is once the one that the writer fails at.
fn each_byte_fails<R: Abort>(
    rt: &R,
    alloc: Global,
    form: LiveForm,
    whole: &[u8],
    failure: WriteFailure,
) -> Result<(), Fail> {
    for place in 0..=whole.len() {
        fails_at(rt, alloc, form, whole, place, failure)?;
    }
    Ok(())
}

/// Each byte of the text is once the one that the writer fails at, in each way; how many writers there were.
fn each_write_fails<R: Abort>(rt: &R, alloc: Global, form: LiveForm) -> Result<usize, Fail> {
    let whole = whole_text(alloc, form)?;
    for failure in FAILURES {
        each_byte_fails(rt, alloc, form, whole.as_slice(), failure)?;
    }
    Ok(whole.len().saturating_add(1).saturating_mul(FAILURES.len()))
}

#[test]
fn each_live_write_fails_in_turn(rt: HostRuntime) -> Result<(), Fail> {
    let mut failures = 0usize;
    for form in FORMS {
        failures = failures.saturating_add(each_write_fails(&rt, rt.alloc(), form)?);
    }
    holds(&rt, "there are over 1,000 writers", failures > 1_000);
    Ok(())
}
