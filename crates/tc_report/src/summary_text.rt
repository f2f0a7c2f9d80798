//! The summary of test cases, a page for a person.
ghost use Rattle.std.specs.{Prelude.{◌≡◌, ◌==◌, ◌++◌, ◌∷◌, [], IfOk, OnOk, codes, filter, if◌then◌else◌, map, take}, Fmt.decimal, List.flat_map};
ghost use Rattle.tc_report.specs.{Cause.decided_text, Inside.IsNext, Inside.has_failed, Inside.is_shown, Inside.members as spec_members, Inside.numbers_with, InWords.component_in};
ghost use Rattle.tc_report.specs.SummaryText as spec;

use crate::cause::{Cause, append_decision};
use crate::naming::{Names, append_named_entries, append_place};
use crate::output::{append_between, append_count};
use crate::report::append_tally;
use crate::results::{CaseEnd, Tally};
use crate::status::{ended, verdict_status};
use crate::summary::Summary;
use std::alloc::Global;
use tc_entry::{Entry, NoMemory, Reply, Verdict};
use tc_text::append_text;
use tc_verdict::name as name_of;

fn ended_so(cases: &[Summary], word: &str) -> usize
    ensures { result ≡ spec.ended_so word.now cases.now }
{
    cases
        .iter()
        .filter(|case| ended(case.ending).0 == word)
        .count()
}

fn append_other(out: &mut Vec<u8>, word: &str, cases: &[Summary]) -> Result<(), NoMemory>
    ensures { OnOk result (out.new.items ≡ out.old.items ++ (if spec.ended_so word.now cases.now == 0 then []
        else word.now ++ (codes " " ++ (decimal (spec.ended_so word.now cases.now) ++ 10 ∷ [])))) }
{
    let count = ended_so(cases, word);
    if count == 0 {
        return Ok(());
    }
    append_text(out, word)?;
    append_count(out, " ", count)?;
    append_text(out, "\n")
}

#[tactic(auto, unfolding(crate::specs::SummaryText::counts_text))]
fn append_counts(out: &mut Vec<u8>, cases: &[Summary]) -> Result<(), NoMemory>
    ensures { OnOk result (out.new.items ≡ out.old.items ++ spec.counts_text cases.now) }
{
    let tally = Tally {
        cases: cases.len(),
        none: ended_so(cases, "none"),
        pass: ended_so(cases, "pass"),
        inconc: ended_so(cases, "inconc"),
        fail: ended_so(cases, "fail"),
        error: ended_so(cases, "error"),
    };
    append_tally(out, &tally)?;
    append_other(out, "unfinished", cases)?;
    append_other(out, "aborted", cases)?;
    append_other(out, "missing", cases)?;
    append_other(out, "notrun", cases)
}

fn members(alloc: Global, locals: &[Verdict], verdict: Verdict) -> Result<Vec<usize>, NoMemory>
    ensures { IfOk result (λ v. v.items ≡ numbers_with verdict locals.now) }
{
    let numbered = locals.iter().enumerate();
    let found = numbered.filter(|(_, local)| **local == verdict);
    Ok(found.map(|(comp, _)| comp).collect(alloc)?)
}

fn member_text(alloc: Global, names: &Names, comp: usize) -> Result<Vec<u8>, NoMemory>
    ensures { IfOk result (λ v. v.items ≡ component_in names.now comp) }
{
    let mut text = Vec::new(alloc);
    append_place(&mut text, names, comp)?;
    Ok(text)
}

// Appends one more text of a list: in the same line, if it has that many columns left, otherwise in the next. Returns how
// many columns the line has left then, of 78, one of them for a comma.
fn append_next(out: &mut Vec<u8>, room: usize, text: &[u8]) -> Result<usize, NoMemory>
    ensures { IfOk result (λ left. IsNext text.now room out.old.items left out.new.items) }
{
    if text.len() + 2 > room {
        append_text(out, ",\n    ")?;
        out.extend_from_slice(text)?;
        Ok(73usize.saturating_sub(text.len()))
    } else {
        append_text(out, ", ")?;
        out.extend_from_slice(text)?;
        Ok(room - (text.len() + 2))
    }
}

fn append_member(
    out: &mut Vec<u8>,
    names: &Names,
    room: usize,
    comp: usize,
) -> Result<usize, NoMemory>
    ensures { IfOk result (λ left. IsNext (component_in names.now comp) room out.old.items left out.new.items) }
{
    let text = member_text(*out.allocator(), names, comp)?;
    append_next(out, room, text.as_slice())
}

fn append_listed(
    out: &mut Vec<u8>,
    names: &Names,
    room: usize,
    members: &[usize],
) -> Result<(), NoMemory>
    ensures { OnOk result (out.new.items ≡ out.old.items ++ spec.listed room (map (component_in names.now) members.now)) }
{
    let mut room = room;
    let mut rest = members;
    while let Some((comp, others)) = rest.split_first() {
        room = append_member(out, names, room, *comp)?;
        rest = others;
    }
    append_text(out, "\n")
}

// Appends the lines of the components with a local verdict, if there are some.
fn append_members(
    out: &mut Vec<u8>,
    names: &Names,
    verdict: Verdict,
    members: &[usize],
) -> Result<(), NoMemory>
    ensures { OnOk result (out.new.items ≡ out.old.items
        ++ spec.verdict_group verdict (map (component_in names.now) members.now)) }
{
    let [first, others @ ..] = members else {
        return Ok(());
    };
    let text = member_text(*out.allocator(), names, *first)?;
    append_between(out, "  ", name_of(verdict).as_bytes(), ": ")?;
    out.extend_from_slice(text.as_slice())?;
    append_listed(out, names, 67usize.saturating_sub(text.len()), others)
}

fn append_locals_with(
    out: &mut Vec<u8>,
    names: &Names,
    locals: &[Verdict],
    verdict: Verdict,
) -> Result<(), NoMemory>
    ensures { OnOk result (out.new.items ≡ out.old.items
        ++ spec.verdict_group verdict (spec_members names.now locals.now verdict)) }
{
    let members = members(*out.allocator(), locals, verdict)?;
    append_members(out, names, verdict, members.as_slice())
}

/// Appends the components by their local verdicts, the worst first.
pub(crate) fn append_locals(
    out: &mut Vec<u8>,
    names: &Names,
    locals: &[Verdict],
) -> Result<(), NoMemory>
    ensures { OnOk result (out.new.items ≡ out.old.items ++ spec.verdict_groups names.now locals.now) }
{
    append_locals_with(out, names, locals, Verdict::Error)?;
    append_locals_with(out, names, locals, Verdict::Fail)?;
    append_locals_with(out, names, locals, Verdict::Inconc)?;
    append_locals_with(out, names, locals, Verdict::Pass)?;
    append_locals_with(out, names, locals, Verdict::None)
}

// Appends the last five of these calls, if there are some.
fn append_calls(out: &mut Vec<u8>, names: &Names, calls: &[Entry]) -> Result<(), NoMemory>
    ensures { OnOk result (out.new.items ≡ out.old.items ++ spec.calls_text names.now calls.now) }
{
    if calls.is_empty() {
        return Ok(());
    }
    append_text(out, "  after:\n")?;
    append_named_entries(out, "    ", names, &calls[calls.len().saturating_sub(5)..])
}

// Adds a copy of the entry if it is shown: if it was not parked.
fn add_if_shown(calls: &mut Vec<Entry>, entry: &Entry) -> Result<(), NoMemory>
    ensures { OnOk result (calls.new.items ≡ calls.old.items ++ filter is_shown (entry.now ∷ [])) }
{
    if !matches!(entry.reply, Reply::Parked) {
        calls.push(entry.copy())?;
    }
    Ok(())
}

// The entries of the run before the one that decided, as far as they are shown.
#[tactic(auto, using(std::proofs::lemmas::List::take_min))]
fn calls_before(alloc: Global, cause: &Cause) -> Result<Vec<Entry>, NoMemory>
    ensures { IfOk result (λ v. v.items ≡ filter is_shown (take cause.now.before cause.now.log)) }
{
    let mut calls = Vec::new(alloc);
    let log = cause.log.as_slice();
    for entry in &log[..cause.before.min(log.len())] {
        add_if_shown(&mut calls, entry)?;
    }
    Ok(calls)
}

fn append_decided(out: &mut Vec<u8>, case: &Summary, cause: &Cause) -> Result<(), NoMemory>
    ensures { OnOk result (out.new.items ≡ out.old.items ++ (codes "  " ++ (decided_text case.now.names cause.now ++ (codes "\n"
        ++ (case.now.waits ++ spec.calls_text case.now.names (filter is_shown (take cause.now.before cause.now.log))))))) }
{
    let calls = calls_before(*out.allocator(), cause)?;
    append_text(out, "  ")?;
    append_decision(out, &case.names, cause)?;
    append_text(out, "\n")?;
    out.extend_from_slice(case.waits.as_slice())?;
    append_calls(out, &case.names, calls.as_slice())
}

#[tactic(auto, unfolding(crate::specs::SummaryText::reason_lines))]
fn append_why(out: &mut Vec<u8>, case: &Summary) -> Result<(), NoMemory>
    ensures { OnOk result (out.new.items ≡ out.old.items ++ spec.reason_lines case.now case.now.ending case.now.cause) }
{
    match (case.ending, &case.cause) {
        (CaseEnd::Over(_), Some(cause)) => append_decided(out, case, cause),
        (CaseEnd::Aborted(why), _) => { append_between(out, "  ", why.text().as_bytes(), "\n") }
        _ => Ok(()),
    }
}

#[tactic(auto, unfolding(crate::specs::SummaryText::shown_case))]
fn append_failed(out: &mut Vec<u8>, case: &Summary) -> Result<(), NoMemory>
    ensures { OnOk result (out.new.items ≡ out.old.items ++ spec.shown_case case.now) }
{
    append_between(out, "\n", case.name.bytes(), ": ")?;
    append_text(out, ended(case.ending).0)?;
    append_text(out, "\n")?;
    append_why(out, case)?;
    append_locals(out, &case.names, case.locals.as_slice())
}

/// The summary of these test cases, a page for a person: their counts, and then each that failed. It has what decided its
/// verdict, at most five calls of the run before that, and the local verdicts of its components.
pub fn summary_report(alloc: Global, cases: &[Summary]) -> Result<Vec<u8>, NoMemory>
    ensures { IfOk result (λ v. v.items ≡ spec.summary_text cases.now) }
{
    let mut out = Vec::new(alloc);
    append_counts(&mut out, cases)?;
    for case in cases {
        if verdict_status(ended(case.ending).1) > 0 {
            append_failed(&mut out, case)?;
        }
    }
    Ok(out)
}
