//! The subcommand `report`.
ghost use Rattle.std.specs.{Prelude.◌≡◌, Prelude.◌==◌, Prelude.◌++◌, Prelude.All, Prelude.List, Prelude.ℕ, Prelude.[], Prelude.codes, Prelude.false, Prelude.filter, Prelude.IfErr, Prelude.IfOk, Prelude.OnOk, Prelude.if◌then◌else◌, Prelude.length, Prelude.map, Prelude.true};
ghost use Rattle.tc_blocks.specs.declared.block.Block.{Block};
ghost use Rattle.tc_report.specs.Prelude.{bare_summary as bare};
ghost use Rattle.tc_report.specs.declared.results.CaseEnd.TheVariants.{Missing};
ghost use Rattle.tc_judge.specs.{Check.IsLegalBlock, Check.IsMadeOfBlocks, Check.IsMadeOfInput, Inside.AreChosenBlocks, Inside.AreJudgedIn, Inside.ArePicked, Inside.IsSummaryOf, Inside.IsTextFor, Inside.IsWholeOfBlock, Inside.Reports, Inside.illegal_line, Inside.is_picked as spec_picked, Inside.judged_text, Inside.names_found, Inside.summary_by, Check.is_chosen, Report.AnswersCases, Report.IsForm, Report.IsReport, Report.IsReported, Check.history_limit, Report.is_of_judged as spec_judged};

use crate::judged::{Judged, first_illegal, judge_input, judge_text};
use crate::kept::{Summarizes, Whole};
use crate::lines::{append_illegal, is_picked, name_blocks};
use crate::playing::Judgement;
use std::alloc::Global;
use std::io::Read;
use tc_answer::{Answer, REFUSED, RunFault, html_page};
use tc_command::{Choice, ReportForm, VERSION};
use tc_entry::{Name, Pattern, Sequence};
use tc_report::{
    CaseEnd, Summary, Times, append_closing, append_replayed, bare_summary, csv_report,
    junit_report, summary_report, worst_status,
};
use tc_rules::NoMemory;
use tc_text::append_text;

// The chosen blocks, and the judgement of the first of all that is not legal; or some pattern matches the name of no block.
fn pick<K: Drop>(
    choice: &Choice,
    mut blocks: Vec<Judged<K>>,
) -> Result<(Vec<Judged<K>>, Option<Judgement>), RunFault>
    ensures picked { IfOk result (λ r. ArePicked choice.now blocks.items r.0.items r.1) }
    ensures lacking { IfErr result (λ fault. (fault ≡ RunFault.Only) × (names_found choice.now blocks.items ≡ false)) }
{
    let illegal = first_illegal(blocks.as_slice());
    if !name_blocks(choice, blocks.as_slice()) {
        return Err(RunFault::Only);
    }
    let (only, failed) = (choice.only.as_slice(), choice.failed);
    blocks.retain(|block| is_picked(only, failed, &block.name, block.verdict));
    Ok((blocks, illegal))
}

// The test cases of the blocks.
fn cases_of<K: Summarizes + Drop>(
    alloc: Global,
    blocks: Vec<Judged<K>>,
) -> Result<Vec<Summary>, NoMemory>
    ensures { IfOk result (λ v. v.items ≡ map (summary_by K.summary) blocks.items) }
{
    let cases = blocks
        .into_iter()
        .map(|Judged { kept, .. }| kept.into_summary());
    Ok(cases.collect(alloc)?)
}

// The form of the blocks that the text spells, whose test cases these are.
fn form_text(
    alloc: Global,
    form: &ReportForm,
    text: &[u8],
    cases: &[Summary],
) -> Result<Vec<u8>, NoMemory>
    ensures { IfOk result (λ v. (given : List ℕ) (chosen : List Block) → IsTextFor form.now given chosen text.now
        → IsForm form.now given chosen cases.now v.items) }
{
    match form {
        ReportForm::Text => Ok(text.to_vec(alloc)?),
        ReportForm::Csv => csv_report(alloc, cases),
        ReportForm::Junit(suite) => {
            junit_report(alloc, VERSION, suite, &Times::none(alloc), cases)
        }
        ReportForm::Html => html_page(alloc, text),
        ReportForm::Summary => summary_report(alloc, cases),
    }
}

// Adds the test cases of these names, which are missing.
fn add_missing(alloc: Global, cases: &mut Vec<Summary>, missing: &[Name]) -> Result<(), NoMemory>
    ensures { OnOk result (cases.new.items ≡ cases.old.items ++ map (bare Missing) missing.now) }
{
    for name in missing {
        cases.push(bare_summary(alloc, CaseEnd::Missing, name))?;
    }
    Ok(())
}

/// This status, or 3 if there are notes.
pub(crate) fn noted_status(notes: &[u8], status: u8) -> u8
    ensures { result ≡ (if length notes.now == 0 then status else 3) }
{
    if notes.is_empty() { status } else { REFUSED }
}

// The answer for test cases, with lines for standard error.
#[tactic(auto, using(crate::proofs::Judging::answer_made))]
fn legal_answer(
    alloc: Global,
    form: &ReportForm,
    text: &[u8],
    cases: &[Summary],
    notes: Vec<u8>,
) -> Result<Answer, NoMemory>
    ensures { IfOk result (λ a. (given : List ℕ) (chosen : List Block) → IsTextFor form.now given chosen text.now
        → AnswersCases form.now given chosen notes.items cases.now a) }
{
    let out = form_text(alloc, form, text, cases)?;
    let status = noted_status(notes.as_slice(), worst_status(cases));
    Ok(Answer {
        out: Sequence::new(out),
        told: Sequence::new(notes),
        status,
    })
}

// The answer for blocks of which this is the judgement of the first that is not legal.
fn illegal_answer(alloc: Global, judgement: Judgement) -> Result<Answer, NoMemory>
    ensures { IfOk result (λ a. a ≡ record { out = []; told = codes "ttrun: " ++ illegal_line judgement; status = 3 }) }
{
    let mut line = Vec::new(alloc);
    append_text(&mut line, "ttrun: ")?;
    append_illegal(&mut line, judgement)?;
    Ok(Answer {
        out: Sequence::new(Vec::new(alloc)),
        told: Sequence::new(line),
        status: REFUSED,
    })
}

// The answer for blocks, of which these are the chosen ones, and missing test cases, with lines for standard error. The
// text is the one that the form is made of, if it is made of one. If all blocks are legal, the form is written; otherwise
// the line of `check` for the first that is not is printed.
fn report_blocks<K: Summarizes + Drop>(
    alloc: Global,
    form: &ReportForm,
    text: &[u8],
    chosen: Vec<Judged<K>>,
    illegal: Option<Judgement>,
    missing: &[Name],
    notes: Vec<u8>,
) -> Result<Answer, NoMemory>
    ensures { IfOk result (λ a. (given : List ℕ) (blocks of : List Block) → (All IsLegalBlock blocks → IsTextFor form.now given of text.now)
        → Reports blocks of (map (summary_by K.summary) chosen.items) illegal
        → IsReport form.now given blocks of missing.now notes.items a) }
{
    match illegal {
        None => {
            let mut cases = cases_of(alloc, chosen)?;
            add_missing(alloc, &mut cases, missing)?;
            legal_answer(alloc, form, text, cases.as_slice(), notes)
        }
        Some(judgement) => illegal_answer(alloc, judgement),
    }
}

// The text report of the blocks.
fn text_report(alloc: Global, blocks: &[Judged<Whole>]) -> Result<Vec<u8>, NoMemory>
    ensures { IfOk result (λ v. v.items ≡ judged_text blocks.now) }
{
    let mut out = Vec::new(alloc);
    let mut verdicts = Vec::new(alloc);
    for block in blocks {
        let (kept, verdict) = (&block.kept, block.verdict);
        let entries = kept.entries.as_slice();
        append_replayed(&mut out, &kept.summary, kept.behaviours, entries, verdict)?;
        verdicts.push(verdict)?;
    }
    append_closing(&mut out, verdicts.as_slice())?;
    Ok(out)
}

/// The same of blocks of which all is kept: the text report is made of them.
pub(crate) fn report_whole(
    alloc: Global,
    form: &ReportForm,
    text: &[u8],
    chosen: Vec<Judged<Whole>>,
    illegal: Option<Judgement>,
    missing: &[Name],
    notes: Vec<u8>,
) -> Result<Answer, NoMemory>
    ensures { IfOk result (λ a. (given : List ℕ) (blocks of : List Block) → (All IsLegalBlock blocks → text.now ≡ given)
        → AreChosenBlocks IsWholeOfBlock blocks of chosen.items illegal
        → IsReport form.now given blocks of missing.now notes.items a) }
{
    if let ReportForm::Text = form {
        let report = text_report(alloc, chosen.as_slice())?;
        let text = report.as_slice();
        return report_blocks(alloc, form, text, chosen, illegal, missing, notes);
    }
    report_blocks(alloc, form, text, chosen, illegal, missing, notes)
}

// What `report` makes of the blocks of a text, in another form than the text report.
fn reported(
    alloc: Global,
    form: &ReportForm,
    choice: &Choice,
    text: &[u8],
    blocks: Vec<Judged<Summary>>,
) -> Result<Answer, RunFault>
    ensures { (given : List ℕ) → ((chosen : List Block) → IsTextFor form.now given chosen text.now)
        → AreJudgedIn IsSummaryOf choice.now.last given blocks.items
        → IsMadeOfBlocks (All IsLegalBlock) choice.now given (IsReported form.now choice.now.last (is_chosen choice.now) given) result }
{
    let (chosen, illegal) = pick(choice, blocks)?;
    let answer = report_blocks(alloc, form, text, chosen, illegal, &[], Vec::new(alloc))?;
    Ok(answer)
}

/// Whether the form is made of what is judged, and neither of the text nor of what the runs did.
pub fn is_of_judged(form: &ReportForm) -> bool
    ensures { result ≡ spec_judged form.now }
{
    !matches!(form, ReportForm::Text | ReportForm::Html)
}

/// What `report` makes of a text of histories and evidence, each block of which is replayed on a table of its own. If all
/// are legal, each pattern has to match the name of one.
#[tactic(auto, using(crate::proofs::Judging::other_text))]
pub fn report_text(
    alloc: Global,
    form: &ReportForm,
    choice: &Choice,
    text: &[u8],
) -> Result<Answer, RunFault>
    ensures { IsMadeOfBlocks (All IsLegalBlock) choice.now text.now
        (IsReported form.now choice.now.last (is_chosen choice.now) text.now) result }
{
    match form {
        ReportForm::Text => {
            let blocks = judge_text::<Whole>(alloc, choice.last, text)?;
            let (chosen, illegal) = pick(choice, blocks)?;
            let notes = Vec::new(alloc);
            let answer = report_whole(alloc, form, text, chosen, illegal, &[], notes)?;
            Ok(answer)
        }
        _ => {
            let blocks = judge_text::<Summary>(alloc, choice.last, text)?;
            reported(alloc, form, choice, text, blocks)
        }
    }
}

/// The same of an input, of which only a part is in memory at a time, if the form is made of what is judged.
#[tactic(auto, using(crate::proofs::Judging::no_text))]
pub fn report_input<R: Read>(
    alloc: Global,
    form: &ReportForm,
    choice: &Choice,
    reader: &mut R,
) -> Result<Answer, RunFault>
    requires { spec_judged form.now ≡ true }
    ensures { IsMadeOfInput (history_limit choice.now.long) (R.remaining reader.old)
        (λ text made. IsMadeOfBlocks (All IsLegalBlock) choice.now text
        (IsReported form.now choice.now.last (is_chosen choice.now) text) made) result }
{
    let blocks = judge_input::<R, Summary>(alloc, choice, reader)?;
    reported(alloc, form, choice, &[], blocks)
}
