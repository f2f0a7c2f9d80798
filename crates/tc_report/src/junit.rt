//! The JUnit report.
ghost use Rattle.std.specs.{Prelude.{◌≡◌, ◌==◌, ◌++◌, codes, filter, length, slice_get, unwrap_or, IfOk, IfErr, OnOk}, Fmt.decimal, Io.KnownBytes.Appends, List.flat_map, Option.{option_and_then, option_map_or}};
ghost use Rattle.tc_rules.specs.Prelude.{level_of, name_of as spec_name};
ghost use Rattle.tc_report.specs.{Output.LeavesPrefix, Status.ended as spec_ended, declared.summary.Summary.Summary as AnySummary};
ghost use Rattle.tc_report.specs.Junit as spec;

use crate::cause::{Cause, append_decision};
use crate::fault::OutFault;
use crate::naming::append_named_entries;
use crate::output::{append_between, append_count, write_made};
use crate::progress::append_time;
use crate::results::CaseEnd;
use crate::status::{ended, verdict_status};
use crate::stopwatch::Times;
use crate::summary::Summary;
use crate::summary_text::append_locals;
use jiff_core::civil::DateTime;
use jiff_fmt::temporal::DateTimePrinter;
use std::alloc::Global;
use std::io::Write;
use tc_entry::{Name, NoMemory, Verdict};
use tc_text::append_text;
use tc_verdict::name as name_of;

fn with_status(cases: &[Summary], status: u8) -> usize
    ensures { result ≡ spec.with_status status cases.now }
{
    cases
        .iter()
        .filter(|case| verdict_status(ended(case.ending).1) == status)
        .count()
}

fn with_verdict(cases: &[Summary], verdict: Verdict) -> usize
    ensures { result ≡ length (filter (λ (s : AnySummary). level_of (spec_ended s.ending).1 == level_of verdict) cases.now) }
{
    let found = cases.iter().filter(|one| ended(one.ending).1 == verdict);
    found.count()
}

#[tactic(auto, unfolding(crate::specs::Junit::counts_attributes))]
fn append_counts(out: &mut Vec<u8>, cases: &[Summary]) -> Result<(), NoMemory>
    ensures { OnOk result (out.new.items ≡ out.old.items ++ spec.counts_attributes cases.now) }
{
    append_count(out, " tests=\"", cases.len())?;
    append_count(out, "\" failures=\"", with_status(cases, 1))?;
    append_count(out, "\" errors=\"", with_status(cases, 2))?;
    append_count(out, "\" skipped=\"", with_verdict(cases, Verdict::None))?;
    append_text(out, "\"")
}

// Appends when a run began, as an attribute, if it is known: a second, as ISO 8601 has it.
fn append_stamp(out: &mut Vec<u8>, begun: Option<DateTime>) -> Result<(), NoMemory>
    ensures { OnOk result (out.new.items ≡ out.old.items ++ spec.stamp_attribute begun) }
{
    let Some(second) = begun else {
        return Ok(());
    };
    let text = DateTimePrinter::new()
        .precision(Some(0))
        .datetime_text(second);
    append_between(out, " timestamp=\"", text.as_str().as_bytes(), "\"")
}

fn suite_name(suite: &Option<Name>) -> &[u8]
    ensures { result.now ≡ unwrap_or suite.now (codes "ttrun") }
{
    match suite {
        Some(name) => name.bytes(),
        None => b"ttrun",
    }
}

fn append_byte(out: &mut Vec<u8>, byte: u8) -> Result<(), NoMemory>
    ensures { OnOk result (out.new.items ≡ out.old.items ++ spec.escaped_byte byte) }
{
    match byte {
        b'"' => append_text(out, "&quot;"),
        b'&' => append_text(out, "&amp;"),
        b'<' => append_text(out, "&lt;"),
        b']' => append_text(out, "&#93;"),
        _ => {
            out.push(byte)?;
            Ok(())
        }
    }
}

fn append_escaped(out: &mut Vec<u8>, bytes: &[u8]) -> Result<(), NoMemory>
    ensures { OnOk result (out.new.items ≡ out.old.items ++ flat_map spec.escaped_byte bytes.now) }
{
    for byte in bytes {
        append_byte(out, *byte)?;
    }
    Ok(())
}

#[tactic(auto, unfolding(crate::specs::Junit::cause_element))]
fn append_cause_element(out: &mut Vec<u8>, case: &Summary, cause: &Cause) -> Result<(), NoMemory>
    ensures { OnOk result (out.new.items ≡ out.old.items ++ spec.cause_element case.now cause.now) }
{
    let mut decision = Vec::new(*out.allocator());
    append_decision(&mut decision, &case.names, cause)?;
    append_escaped(out, decision.as_slice())?;
    append_text(out, "\">\n")?;
    append_escaped(out, decision.as_slice())?;
    append_text(out, "\n")?;
    out.extend_from_slice(case.waits.as_slice())?;
    append_named_entries(out, "  ", &case.names, cause.log.as_slice())
}

fn append_why(out: &mut Vec<u8>, case: &Summary, verdict: &str) -> Result<(), NoMemory>
    ensures { OnOk result (out.new.items ≡ out.old.items ++ option_map_or (spec.cause_element case.now)
        case.now.cause (codes "verdict " ++ (verdict.now ++ codes "\">\n"))) }
{
    match &case.cause {
        Some(cause) => append_cause_element(out, case, cause),
        None => append_between(out, "verdict ", verdict.as_bytes(), "\">\n"),
    }
}

// Appends the element of a verdict that is worse than pass, under this tag.
fn append_worse(
    out: &mut Vec<u8>,
    case: &Summary,
    tag: &str,
    verdict: Verdict,
) -> Result<(), NoMemory>
    ensures { OnOk result (out.new.items ≡ out.old.items ++ (codes "<" ++ (tag.now ++ (codes " type=\"" ++ (spec_name verdict
        ++ (codes "\" message=\"" ++ (option_map_or (spec.cause_element case.now) case.now.cause (codes "verdict " ++ (spec_name verdict
        ++ codes "\">\n")) ++ (codes "</" ++ (tag.now ++ codes ">\n"))))))))) }
{
    append_between(out, "<", tag.as_bytes(), " type=\"")?;
    append_text(out, name_of(verdict))?;
    append_text(out, "\" message=\"")?;
    append_why(out, case, name_of(verdict))?;
    append_between(out, "</", tag.as_bytes(), ">\n")
}

#[tactic(auto, unfolding(crate::specs::Junit::end_element))]
fn append_end_element(out: &mut Vec<u8>, case: &Summary) -> Result<(), NoMemory>
    ensures { OnOk result (out.new.items ≡ out.old.items ++ spec.end_element case.now case.now.ending) }
{
    match case.ending {
        CaseEnd::Over(Verdict::None) => append_text(out, "<skipped/>\n"),
        CaseEnd::Over(Verdict::Pass) => Ok(()),
        CaseEnd::Over(Verdict::Inconc) => append_worse(out, case, "failure", Verdict::Inconc),
        CaseEnd::Over(Verdict::Fail) => append_worse(out, case, "failure", Verdict::Fail),
        CaseEnd::Over(Verdict::Error) => append_worse(out, case, "error", Verdict::Error),
        CaseEnd::NotRun => append_text(out, "<skipped message=\"not run\"/>\n"),
        CaseEnd::Unfinished => append_text(
            out,
            "<error type=\"unfinished\" message=\"the test case is not over\"/>\n",
        ),
        CaseEnd::Aborted(why) => {
            append_text(out, "<error type=\"aborted\" message=\"")?;
            append_text(out, why.text())?;
            append_text(out, "\"/>\n")
        }
        CaseEnd::Missing => append_text(
            out,
            "<error type=\"missing\" message=\"there is no history of the test case\"/>\n",
        ),
    }
}

#[tactic(auto, unfolding(crate::specs::Junit::case_element))]
fn append_element(
    out: &mut Vec<u8>,
    suite: &[u8],
    time: Option<(u64, u32)>,
    case: &Summary,
) -> Result<(), NoMemory>
    ensures { OnOk result (out.new.items ≡ out.old.items ++ spec.case_element suite.now time case.now) }
{
    append_between(
        out,
        "<testcase name=\"",
        case.name.bytes(),
        "\" classname=\"",
    )?;
    out.extend_from_slice(suite)?;
    append_text(out, "\"")?;
    append_time(out, " time=\"", time, "\"")?;
    append_text(out, ">\n")?;
    append_end_element(out, case)?;
    append_text(out, "<system-out>\n")?;
    append_locals(out, &case.names, case.locals.as_slice())?;
    append_text(out, "</system-out>\n</testcase>\n")
}

fn time_at(times: &[Option<(u64, u32)>], place: usize) -> Option<(u64, u32)>
    ensures { result ≡ option_and_then (λ t. t) (slice_get times.now place) }
{
    *times.get(place)?
}

fn append_elements(
    out: &mut Vec<u8>,
    suite: &[u8],
    times: &[Option<(u64, u32)>],
    cases: &[Summary],
) -> Result<(), NoMemory>
    ensures { OnOk result (out.new.items ≡ out.old.items ++ spec.case_elements suite.now times.now cases.now) }
{
    for (at, case) in cases.iter().enumerate() {
        append_element(out, suite, time_at(times, at), case)?;
    }
    Ok(())
}

#[tactic(auto, unfolding(crate::specs::Junit::junit_of))]
fn append_suite(
    out: &mut Vec<u8>,
    version: &str,
    suite: &Option<Name>,
    times: &Times,
    cases: &[Summary],
) -> Result<(), NoMemory>
    ensures { OnOk result (out.new.items ≡ out.old.items ++ spec.junit_of version.now suite.now times.now cases.now) }
{
    let name = suite_name(suite);
    let first = "<?xml version=\"1.0\" encoding=\"UTF-8\"?>\n<testsuites";
    append_text(out, first)?;
    append_counts(out, cases)?;
    append_between(out, ">\n<testsuite name=\"", name, "\"")?;
    append_counts(out, cases)?;
    append_stamp(out, times.begun)?;
    append_time(out, " time=\"", times.whole, "\"")?;
    let before = ">\n<properties>\n<property name=\"version\" value=\"";
    append_between(out, before, version.as_bytes(), "\"/>\n</properties>\n")?;
    append_elements(out, name, times.cases.as_slice(), cases)?;
    append_text(out, "</testsuite>\n</testsuites>\n")
}

/// The JUnit report of these test cases with these times, by a program of this version: one suite with its counts, and an
/// element for each test case. The suite is called `ttrun` if no name is given.
pub fn junit_report(
    alloc: Global,
    version: &str,
    suite: &Option<Name>,
    times: &Times,
    cases: &[Summary],
) -> Result<Vec<u8>, NoMemory>
    ensures { IfOk result (λ v. v.items ≡ spec.junit_of version.now suite.now times.now cases.now) }
{
    let mut out = Vec::new(alloc);
    append_suite(&mut out, version, suite, times, cases)?;
    Ok(out)
}

/// Writes that report. The text is made whole before anything is written.
pub fn write_junit<W: Write>(
    alloc: Global,
    version: &str,
    suite: &Option<Name>,
    times: &Times,
    cases: &[Summary],
    writer: &mut W,
) -> Result<(), OutFault>
    ensures all { OnOk result (Appends (W.contents writer.old) (W.contents writer.new)
        (spec.junit_of version.now suite.now times.now cases.now)) }
    ensures part { IfErr result (LeavesPrefix (W.contents writer.old) (W.contents writer.new)
        (spec.junit_of version.now suite.now times.now cases.now)) }
{
    let text = junit_report(alloc, version, suite, times, cases)?;
    write_made(writer, text.as_slice())
}
