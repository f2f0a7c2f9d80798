//! The text report, of results and of histories, with its tally and how a campaign ended.
ghost use Rattle.std.specs.{Prelude.{◌≡◌, ◌+◌, ◌++◌, ◌∷◌, OnOk, OnErr, IfOk, IfErr, IfSome, [], codes, is_some, reverse, slice_get, unwrap_or}, Fmt.decimal, Io.KnownBytes.Appends, Io.StartsWith, List.flat_map};
ghost use Rattle.tc_stream.specs.Prelude.{AppendsPrefix};
ghost use Rattle.tc_text.specs.Prelude.{op_text, reply_text};
ghost use Rattle.tc_rules.specs.Prelude.{comp_of, log_if, logs_below, name_of as spec_name, part};
ghost use Rattle.tc_report.specs.{Inside.name_or_none, Output.LeavesPrefix, Replayed.replayed_text, Replayed.verdicts_closing, Report.abort_text, Report.aborted_case, Report.aborted_text, Report.case_text, Report.ending_line, Report.local_lines, Report.report_text, Report.run_text, Report.shown_entry, Report.shown_op, Report.tally_line, Report.tally_of_cases, Report.verdict_line, declared.results.CampaignEnd.TheVariants.Aborted};

use crate::fault::OutFault;
use crate::naming::{Naming, behaviour_of, bytes_or};
use crate::output::{append_between, append_count, write_both, write_made};
use crate::results::{CampaignEnd, Finished, Results, Tally, count_of, tally_cases};
use crate::summary::Summary;
use std::alloc::Global;
use std::io::Write;
use tc_entry::{Comp, Entry, Name, NoMemory, Op, Reply, Run, Target, Verdict};
use tc_rules::{CaseError, RunLog, component_of};
use tc_stream::{WriteFault, write_whole};
use tc_text::{append_number, append_text, write_op, write_reply};
use tc_verdict::{UserVerdict, name as name_of};

/// Appends the operation. A Wake is shown as the Wait with the same target.
pub(crate) fn append_op(out: &mut Vec<u8>, op: &Op) -> Result<(), NoMemory>
    ensures { OnOk result (out.new.items ≡ out.old.items ++ op_text (shown_op op.now)) }
{
    match op {
        Op::Wake { killed, target } => {
            let (killed, target) = (*killed, *target);
            write_op(out, &Op::Wait { killed, target })
        }
        _ => write_op(out, op),
    }
}

fn set_line(setting: UserVerdict) -> &'static str
    ensures { result.now ≡ codes "  " ++ ((op_text (Op.SetVerdict setting) ++ (codes " -> " ++ reply_text Reply.Ok)) ++ 10 ∷ []) }
{
    match setting {
        UserVerdict::None => "  setverdict none -> ok\n",
        UserVerdict::Pass => "  setverdict pass -> ok\n",
        UserVerdict::Inconc => "  setverdict inconc -> ok\n",
        UserVerdict::Fail => "  setverdict fail -> ok\n",
    }
}

fn got_line(verdict: Verdict) -> &'static str
    ensures { result.now ≡ codes "  " ++ ((op_text Op.GetVerdict ++ (codes " -> " ++ reply_text (Reply.Local verdict))) ++ 10 ∷ []) }
{
    match verdict {
        Verdict::None => "  getverdict -> none\n",
        Verdict::Pass => "  getverdict -> pass\n",
        Verdict::Inconc => "  getverdict -> inconc\n",
        Verdict::Fail => "  getverdict -> fail\n",
        Verdict::Error => "  getverdict -> error\n",
    }
}

// What is shown of a verdict call: the commonest entries are shown by a whole line, and not put together.
fn verdict_call_line(entry: &Entry) -> Option<&'static str>
    ensures { IfSome result (λ line. line.now ≡ shown_entry entry.now) }
{
    match (&entry.op, entry.reply) {
        (Op::SetVerdict(setting), Reply::Ok) => Some(set_line(*setting)),
        (Op::GetVerdict, Reply::Local(verdict)) => Some(got_line(verdict)),
        _ => None,
    }
}

// What is shown of a status call of one component around its number: these entries are put together from three pieces.
fn status_pieces(entry: &Entry) -> Option<(&'static str, Comp, &'static str)>
    ensures { IfSome result (λ p. shown_entry entry.now ≡ p.0.now ++ (decimal p.1.0 ++ p.2.now)) }
{
    let (begin, target) = match entry.op {
        Op::Running(target) => ("  running ", target),
        Op::Alive(target) => ("  alive ", target),
        Op::Done(target) => ("  done ", target),
        Op::Killed(target) => ("  killed ", target),
        _ => return None,
    };
    match (target, entry.reply) {
        (Target::One(comp), Reply::Answer(true)) => Some((begin, comp, " -> true\n")),
        (Target::One(comp), Reply::Answer(false)) => Some((begin, comp, " -> false\n")),
        _ => None,
    }
}

/// Appends what is shown of an entry: nothing if it was parked.
pub(crate) fn append_entry(out: &mut Vec<u8>, entry: &Entry) -> Result<(), NoMemory>
    ensures { OnOk result (out.new.items ≡ out.old.items ++ shown_entry entry.now) }
{
    if let Some(line) = verdict_call_line(entry) {
        return append_text(out, line);
    }
    if let Some((begin, comp, end)) = status_pieces(entry) {
        append_count(out, begin, comp.0 as usize)?;
        return append_text(out, end);
    }
    if matches!(entry.reply, Reply::Parked) {
        return Ok(());
    }
    append_text(out, "  ")?;
    append_op(out, &entry.op)?;
    append_text(out, " -> ")?;
    write_reply(out, &entry.reply)?;
    append_text(out, "\n")
}

/// Appends the line of a run on this component, whose behaviour has this name.
pub(crate) fn append_run_line(
    out: &mut Vec<u8>,
    run: Run,
    name: &[u8],
    comp: Comp,
) -> Result<(), NoMemory>
    ensures { OnOk result (out.new.items ≡ out.old.items ++ (codes "run " ++ (decimal run.0 ++ (codes " "
        ++ (name.now ++ (codes " on " ++ (decimal comp.0 ++ 10 ∷ []))))))) }
{
    append_count(out, "run ", usize::from(run.0))?;
    append_between(out, " ", name, " on ")?;
    append_number(out, u64::from(comp.0))?;
    append_text(out, "\n")
}

fn append_run(out: &mut Vec<u8>, names: &[Name], log: &RunLog) -> Result<(), NoMemory>
    ensures { OnOk result (out.new.items ≡ out.old.items ++ run_text (λ b. unwrap_or (slice_get names.now b) []) log.now) }
{
    let name = names.get(usize::from(log.run.0));
    append_run_line(out, log.run, bytes_or(name, b""), log.comp)?;
    for entry in log.entries.as_slice() {
        append_entry(out, entry)?;
    }
    Ok(())
}

fn append_runs(out: &mut Vec<u8>, names: &[Name], logs: &[RunLog]) -> Result<(), NoMemory>
    ensures { OnOk result (out.new.items ≡ out.old.items
        ++ flat_map (run_text (λ b. unwrap_or (slice_get names.now b) [])) logs.now) }
{
    for log in logs {
        append_run(out, names, log)?;
    }
    Ok(())
}

fn append_local(out: &mut Vec<u8>, comp: usize, verdict: Verdict) -> Result<(), NoMemory>
    ensures { OnOk result (out.new.items ≡ out.old.items
        ++ (codes "local " ++ (decimal comp ++ (codes " " ++ (spec_name verdict ++ 10 ∷ []))))) }
{
    append_count(out, "local ", comp)?;
    append_between(out, " ", name_of(verdict).as_bytes(), "\n")
}

/// Appends the line of each component's local verdict.
pub(crate) fn append_locals(out: &mut Vec<u8>, locals: &[Verdict]) -> Result<(), NoMemory>
    ensures { OnOk result (out.new.items ≡ out.old.items ++ local_lines locals.now) }
{
    for (comp, verdict) in locals.iter().enumerate() {
        append_local(out, comp, *verdict)?;
    }
    Ok(())
}

/// Appends the line of an overall verdict; if memory runs out, a part of it.
pub fn append_verdict(out: &mut Vec<u8>, verdict: Verdict) -> Result<(), NoMemory>
    ensures ok { OnOk result (out.new.items ≡ out.old.items ++ verdict_line verdict) }
    ensures err { OnErr result (StartsWith out.new.items out.old.items) }
{
    append_between(out, "verdict ", name_of(verdict).as_bytes(), "\n")
}

/// Appends a finished test case.
pub(crate) fn append_case(out: &mut Vec<u8>, case: &Finished) -> Result<(), NoMemory>
    ensures { OnOk result (out.new.items ≡ out.old.items ++ case_text case.now) }
{
    let report = &case.report;
    append_between(out, "testcase ", case.name.bytes(), "\n")?;
    append_runs(out, case.names.as_slice(), report.logs.as_slice())?;
    append_locals(out, report.locals.as_slice())?;
    append_verdict(out, report.verdict)
}

/// Appends the line of the tally.
pub(crate) fn append_tally(out: &mut Vec<u8>, tally: &Tally) -> Result<(), NoMemory>
    ensures { OnOk result (out.new.items ≡ out.old.items ++ tally_line tally.now) }
{
    append_count(out, "cases ", tally.cases)?;
    append_count(out, " none ", tally.none)?;
    append_count(out, " pass ", tally.pass)?;
    append_count(out, " inconc ", tally.inconc)?;
    append_count(out, " fail ", tally.fail)?;
    append_count(out, " error ", tally.error)?;
    out.push(b'\n')?;
    Ok(())
}

/// Appends which case was refused, and why; if memory runs out, a part of it.
pub fn append_aborted(out: &mut Vec<u8>, name: &Name, why: CaseError) -> Result<(), NoMemory>
    ensures ok { OnOk result (out.new.items ≡ out.old.items ++ aborted_text name.now why) }
    ensures err { OnErr result (StartsWith out.new.items out.old.items) }
{
    append_between(out, "aborted at ", name.bytes(), ": ")?;
    append_text(out, why.text())
}

/// Appends the line of the ending.
pub(crate) fn append_ending(out: &mut Vec<u8>, ending: &CampaignEnd) -> Result<(), NoMemory>
    ensures { OnOk result (out.new.items ≡ out.old.items ++ ending_line ending.now) }
{
    match ending {
        CampaignEnd::Complete => append_text(out, "complete\n"),
        CampaignEnd::StoppedAfter(name) => {
            append_between(out, "stopped after ", name.bytes(), "\n")
        }
        CampaignEnd::Aborted { name, why } => {
            append_aborted(out, name, *why)?;
            append_text(out, "\n")
        }
    }
}

// Writes which case was refused, and why, as a line; if the writer fails, a prefix of it.
fn write_aborted<W: Write>(writer: &mut W, name: &Name, why: CaseError) -> Result<(), WriteFault>
    ensures all { OnOk result (Appends (W.contents writer.old) (W.contents writer.new) (abort_text (Aborted name.now why))) }
    ensures part { OnErr result (AppendsPrefix (W.contents writer.old) (W.contents writer.new) (abort_text (Aborted name.now why))) }
{
    write_both(writer, b"ttrun: aborted at ", name.bytes())?;
    write_both(writer, b": ", why.text().as_bytes())?;
    write_whole(writer, b"\n")?;
    Ok(())
}

/// If the campaign was aborted, writes the program's line on standard error and returns true; otherwise writes nothing
/// and returns false. It takes no memory. If the writer fails, a prefix of the line is written.
pub fn write_abort<W: Write>(results: &Results, writer: &mut W) -> Result<bool, WriteFault>
    ensures answer { IfOk result (λ is. is ≡ is_some (aborted_case results.now.ending)) }
    ensures all { OnOk result (Appends (W.contents writer.old) (W.contents writer.new) (abort_text results.now.ending)) }
    ensures part { OnErr result (AppendsPrefix (W.contents writer.old) (W.contents writer.new) (abort_text results.now.ending)) }
{
    let CampaignEnd::Aborted { name, why } = &results.ending else {
        return Ok(false);
    };
    write_aborted(writer, name, *why)?;
    Ok(true)
}

/// Counts the finished test cases by their overall verdicts. It takes no memory.
#[tactic(auto, using(crate::proofs::Counting::all_counted))]
pub fn tally(results: &Results) -> Tally
    ensures counts { result ≡ tally_of_cases results.now.finished }
    ensures all { result.none + result.pass + result.inconc + result.fail + result.error ≡ result.cases }
{
    tally_cases(results.finished.as_slice())
}

/// Writes the text report: each finished test case in order, the tally and the ending. The text is made whole before
/// anything is written.
pub fn write_text<W: Write>(
    alloc: Global,
    results: &Results,
    writer: &mut W,
) -> Result<(), OutFault>
    ensures all { OnOk result (Appends (W.contents writer.old) (W.contents writer.new) (report_text results.now)) }
    ensures part { IfErr result (λ fault. LeavesPrefix (W.contents writer.old) (W.contents writer.new) (report_text results.now) fault) }
{
    let mut text = Vec::new(alloc);
    for case in results.finished.as_slice() {
        append_case(&mut text, case)?;
    }
    append_tally(&mut text, &tally(results))?;
    append_ending(&mut text, &results.ending)?;
    write_made(writer, text.as_slice())
}

fn append_part(out: &mut Vec<u8>, history: &[Entry], run: u16) -> Result<(), NoMemory>
    ensures { OnOk result (out.new.items ≡ out.old.items ++ flat_map shown_entry (part history.now run)) }
{
    for entry in history {
        if entry.caller.0 == run {
            append_entry(out, entry)?;
        }
    }
    Ok(())
}

#[tactic(auto, using(crate::proofs::Replaying::run_started))]
fn append_run_of(
    out: &mut Vec<u8>,
    names: &[Naming],
    history: &[Entry],
    run: u16,
) -> Result<(), NoMemory>
    ensures { OnOk result (out.new.items ≡ out.old.items ++ flat_map (run_text (name_or_none names.now))
        (log_if (comp_of (reverse history.now) run) history.now run)) }
{
    match component_of(history, Run(run)) {
        Some(comp) => {
            let name = behaviour_of(names, usize::from(run));
            append_run_line(out, Run(run), bytes_or(name, b""), comp)?;
            append_part(out, history, run)
        }
        None => Ok(()),
    }
}

fn append_runs_of(
    out: &mut Vec<u8>,
    names: &[Naming],
    behaviours: u16,
    history: &[Entry],
) -> Result<(), NoMemory>
    ensures { OnOk result (out.new.items ≡ out.old.items
        ++ flat_map (run_text (name_or_none names.now)) (logs_below history.now behaviours)) }
{
    for run in 0..behaviours {
        append_run_of(out, names, history, run)?;
    }
    Ok(())
}

/// Appends what the text report says of the test case of this summary and that many behaviours, with this history and
/// this verdict. If memory runs out, a part of it.
pub fn append_replayed(
    out: &mut Vec<u8>,
    summary: &Summary,
    behaviours: u16,
    history: &[Entry],
    verdict: Verdict,
) -> Result<(), NoMemory>
    ensures { OnOk result (out.new.items ≡ out.old.items
        ++ replayed_text summary.now behaviours history.now verdict) }
{
    append_between(out, "testcase ", summary.name.bytes(), "\n")?;
    append_runs_of(out, summary.names.runs.as_slice(), behaviours, history)?;
    append_locals(out, summary.locals.as_slice())?;
    append_verdict(out, verdict)
}

/// Appends what follows the test cases of the text report, which have these verdicts. If memory runs out, a part of it.
pub fn append_closing(out: &mut Vec<u8>, verdicts: &[Verdict]) -> Result<(), NoMemory>
    ensures { OnOk result (out.new.items ≡ out.old.items ++ verdicts_closing verdicts.now) }
{
    let tally = Tally {
        cases: verdicts.len(),
        none: count_of(verdicts, Verdict::None),
        pass: count_of(verdicts, Verdict::Pass),
        inconc: count_of(verdicts, Verdict::Inconc),
        fail: count_of(verdicts, Verdict::Fail),
        error: count_of(verdicts, Verdict::Error),
    };
    append_tally(out, &tally)?;
    append_ending(out, &CampaignEnd::Complete)
}
