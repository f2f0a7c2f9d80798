//! Reports to writers that fail.
use crate::checks::{holds, is};
use crate::results::results;
use std::alloc::Global;
use std::io::Write;
use std::process::Abort;
use std::test::Fail;
use tc_campaign::{
    CampaignEnd, LiveForm, OutFault, Results, status_of, write_csv, write_evidence, write_history,
    write_text,
};
use tc_stream::devices::{NarrowWriter, WriteFailure};

pub(crate) const FORMS: [LiveForm; 4] = [
    LiveForm::Text,
    LiveForm::Csv,
    LiveForm::History,
    LiveForm::Evidence,
];

pub(crate) const FAILURES: [WriteFailure; 2] = [WriteFailure::Broken, WriteFailure::Full];

/// Writes the text of the results in this form.
fn give<W: Write>(
    alloc: Global,
    form: LiveForm,
    results: &Results,
    writer: &mut W,
) -> Result<(), OutFault> {
    match form {
        LiveForm::Text => write_text(alloc, results, writer),
        LiveForm::Csv => write_csv(alloc, results, writer),
        LiveForm::History => write_history(alloc, results, writer),
        LiveForm::Evidence => write_evidence(alloc, results, writer),
    }
}

/// The text of the results in this form.
pub(crate) fn text_of(
    alloc: Global,
    form: LiveForm,
    results: &Results,
) -> Result<Vec<u8>, OutFault> {
    let mut out = Vec::new(alloc);
    give(alloc, form, results, &mut out)?;
    Ok(out)
}

/// Writes the results to a writer that fails after this part of their text, which is so long.
fn fail_behind<R: Abort>(
    rt: &R,
    alloc: Global,
    form: LiveForm,
    results: &Results,
    part: &[u8],
    length: usize,
    writer: &mut NarrowWriter,
) {
    let place = part.len();
    let wanted = if place == length {
        Ok(())
    } else {
        Err(OutFault::Write)
    };
    is(rt, "the answer", give(alloc, form, results, writer), wanted);
    is(rt, "what is written", writer.taken.as_slice(), part);
    let writes = place.saturating_add(1).min(length);
    is(rt, "how many writes there were", writer.writes, writes);
}

/// Writes the results to a writer that fails at this write, in each way, if it comes to it; the whole text is this.
fn fails_at<R: Abort>(
    rt: &R,
    alloc: Global,
    form: LiveForm,
    results: &Results,
    whole: &[u8],
    place: usize,
) -> Result<(), Fail> {
    let part = whole.get(..place).ok_or("a prefix")?;
    for failure in FAILURES {
        let mut writer = NarrowWriter::new(alloc, place, failure);
        fail_behind(rt, alloc, form, results, part, whole.len(), &mut writer);
    }
    Ok(())
}

/// Each byte of the whole text is once the one that the writer fails at.
fn each_byte_fails<R: Abort>(
    rt: &R,
    alloc: Global,
    form: LiveForm,
    results: &Results,
    whole: &[u8],
) -> Result<(), Fail> {
    for place in 0..=whole.len() {
        fails_at(rt, alloc, form, results, whole, place)?;
    }
    Ok(())
}

/// Each byte of a text is once the one that the writer fails at, in each way; how many writers there were.
fn each_write_fails<R: Abort>(
    rt: &R,
    alloc: Global,
    form: LiveForm,
    results: &Results,
) -> Result<usize, Fail> {
    let whole = text_of(alloc, form, results)?;
    each_byte_fails(rt, alloc, form, results, whole.as_slice())?;
    Ok(whole.len().saturating_add(1).saturating_mul(FAILURES.len()))
}

/// Each byte of the texts is once the one that the writer fails at; how many writers there were.
fn all_writes_fail<R: Abort>(rt: &R, alloc: Global, results: &Results) -> Result<usize, Fail> {
    let mut failures = 0usize;
    for form in FORMS {
        failures = failures.saturating_add(each_write_fails(rt, alloc, form, results)?);
    }
    Ok(failures)
}

#[test]
fn each_write_fails_in_turn(rt: HostRuntime) -> Result<(), Fail> {
    let results = results(rt.alloc(), CampaignEnd::Complete)?;
    is(&rt, "the status", status_of(&results), 1);
    let failures = all_writes_fail(&rt, rt.alloc(), &results)?;
    holds(&rt, "there are over 800 writers", failures > 800);
    Ok(())
}
