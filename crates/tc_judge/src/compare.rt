//! The blocks of evidence next to the test cases of their script.
ghost use Rattle.std.specs.Prelude.{◌≡◌, ◌↔◌, ◌≤◌, ◌<◌, ◌++◌, [], List, true, IfErr, IfOk, IfSome, OnOk, filter, length, map, not, position};
ghost use Rattle.std.specs.Option.{option_map_or};
ghost use Rattle.std.specs.List.{AllZip, flat_map};
ghost use Rattle.tc_entry.specs.declared.limits.TheConstants.{BEHAVIOURS};
ghost use Rattle.tc_blocks.specs.declared.block.Block.{Block};
ghost use Rattle.tc_reader.specs.Prelude.{CampaignView, among, is_text};
ghost use Rattle.tc_answer.specs.Prelude.{AreChosen, script_part};
ghost use Rattle.tc_answer.specs.Inside.{AreReadyAs, IsCaseOf};
ghost use Rattle.tc_judge.specs.{Compared.IsCheckedAgainst, Compared.IsReportedAgainst, Compared.RefusesAgainst, Compared.note, Compared.wrong_text, Inside.AreComparable, Inside.AreComparedIn, Inside.Finds, Inside.IsJudgedBlock, Inside.IsWhole, Inside.IsWholeOfBlock, Inside.Judges, Inside.Meets, Inside.StandsBeside, declared.compare.Wrong.TheVariants.Missing};

use crate::check::checked_status;
use crate::judged::{Judged, first_illegal, judge_text};
use crate::kept::Whole;
use crate::lines::printed_lines;
use crate::passed::{add_name, has_name};
use crate::report::{noted_status, report_whole};
use indexmap::IndexSet;
use std::alloc::Global;
use tc_answer::{Answer, RunFault, chosen_cases, split_script};
use tc_command::{Choice, ReportForm};
use tc_course::is_course;
use tc_entry::Name;
use tc_exec::Case;
use tc_step::Script;
use tc_text::append_text;
use tc_verdict::NoMemory;

/// What is wrong with a block, or with a test case, of evidence next to its script.
#[derive(Clone, Copy, Debug, PartialEq, Eq)]
pub(crate) enum Wrong {
    /// The script has no test case of this name.
    Unknown,
    /// A block of this name came before.
    Twice,
    /// A block of a later test case came before.
    OutOfOrder,
    /// The block is no complete course of the scripts with its verdict.
    NoCourse,
    /// No block has the name of this test case.
    Missing,
}

impl Wrong {
    // The words for it.
    fn text(self) -> &'static str
        ensures { result.now ≡ wrong_text self }
    {
        match self {
            Wrong::Unknown => "unknown ",
            Wrong::Twice => "twice ",
            Wrong::OutOfOrder => "out of order ",
            Wrong::NoCourse => "no course ",
            Wrong::Missing => "missing ",
        }
    }
}

// Appends the line that says what is wrong with the test case of this name, if something is; if memory runs out, a part of it.
fn append_note(out: &mut Vec<u8>, name: &Name, wrong: Option<Wrong>) -> Result<(), NoMemory>
    ensures { OnOk result (out.new.items ≡ out.old.items ++ option_map_or (note name.now) wrong []) }
{
    if let Some(wrong) = wrong {
        append_text(out, wrong.text())?;
        out.extend_from_slice(name.bytes())?;
        out.push(b'\n')?;
    }
    Ok(())
}

// The names of test cases, which are different.
#[tactic(auto, using(crate::proofs::Beside::name_more))]
fn names_of(alloc: Global, cases: &[Case<Script>]) -> Result<IndexSet<Name>, NoMemory>
    requires { AreComparable cases.now }
    ensures { IfOk result (λ names. names.keys ≡ map (λ k. k.name) cases.now) }
{
    let mut names = IndexSet::new(alloc);
    for case in cases {
        add_name(&mut names, &case.name)?;
    }
    Ok(names)
}

// The place of the name among these.
#[tactic(auto, unfolding(tc_reader::specs::Words::is_text))]
fn place_among(names: &IndexSet<Name>, name: &Name) -> Option<usize>
    ensures is { result ≡ position (is_text name.now) names.now.keys }
    ensures within { IfSome result (λ p. p < length names.now.keys) }
{
    names.get_index_of(name)
}

/// Test cases of a script, and which blocks there were so far.
#[derive(Drop)]
pub(crate) struct Comparing {
    /// The test cases, in their order.
    ready: Vec<Case<Script>>,
    /// The name of each.
    names: IndexSet<Name>,
    /// The names that the blocks had.
    met: IndexSet<Name>,
    /// One more than the place of the last test case that a block had the name of; 0 if there was none.
    next: usize,
}

impl Comparing {
    // The test cases, before any block.
    fn new(alloc: Global, ready: Vec<Case<Script>>) -> Result<Comparing, NoMemory>
        requires { AreComparable ready.items }
        ensures whole { IfOk result IsWhole }
        ensures beside { IfOk result (λ c. (cases : CampaignView) → AllZip IsCaseOf cases ready.items → StandsBeside cases [] c) }
    {
        Ok(Comparing {
            names: names_of(alloc, ready.as_slice())?,
            ready,
            met: IndexSet::new(alloc),
            next: 0,
        })
    }

    // What is wrong with the next block, if something is.
    fn wrong_with(&self, alloc: Global, block: &Judged<Whole>) -> Result<Option<Wrong>, NoMemory>
        requires { IsWhole self.now }
        ensures { IfOk result (Judges self.now block.now) }
    {
        let Some(place) = place_among(&self.names, &block.name) else {
            return Ok(Some(Wrong::Unknown));
        };
        if has_name(&self.met, &block.name) {
            return Ok(Some(Wrong::Twice));
        }
        if place + 1 < self.next {
            return Ok(Some(Wrong::OutOfOrder));
        }
        let scripts = self.ready[place].jobs.as_slice();
        let (kept, verdict) = (&block.kept, block.verdict);
        let entries = kept.entries.as_slice();
        let is = is_course(alloc, scripts, kept.behaviours, entries, verdict)?;
        Ok((!is).then_some(Wrong::NoCourse))
    }

    // Takes the name of the next block in.
    fn meet(&mut self, name: &Name) -> Result<(), NoMemory>
        requires { IsWhole self.old }
        ensures whole { OnOk result (IsWhole self.new) }
        ensures meets { OnOk result (Meets name.now self.old self.new) }
    {
        if let Some(place) = place_among(&self.names, name) {
            self.next = self.next.max(place + 1);
        }
        add_name(&mut self.met, name)?;
        Ok(())
    }

    // The names of the test cases that no block had, in their order.
    fn missing(&self, alloc: Global) -> Result<Vec<Name>, NoMemory>
        ensures { IfOk result (λ v. v.items ≡ filter (λ n. not (among n self.now.met.keys)) self.now.names.keys) }
    {
        let names = self.names.iter();
        let missing = names.filter(|name| !has_name(&self.met, name));
        Ok(missing.map(|name| name.copy()).collect(alloc)?)
    }
}

// Appends a line for each test case that is missing; if memory runs out, a part of them.
fn append_missing(out: &mut Vec<u8>, missing: &[Name]) -> Result<(), NoMemory>
    ensures { OnOk result (out.new.items ≡ out.old.items ++ flat_map (λ n. note n Missing) missing.now) }
{
    for name in missing {
        append_note(out, name, Some(Wrong::Missing))?;
    }
    Ok(())
}

/// What is wrong with blocks as courses of test cases.
#[derive(Drop)]
pub(crate) struct Comparison {
    /// A line for each block that is wrong, in their order, and then one for each test case that is missing.
    pub notes: Vec<u8>,
    /// The names of the test cases that have no block, in their order.
    pub missing: Vec<Name>,
}

// What is wrong with the blocks as courses of the test cases.
fn compare(
    alloc: Global,
    ready: Vec<Case<Script>>,
    blocks: &[Judged<Whole>],
) -> Result<Comparison, NoMemory>
    requires { AreComparable ready.items }
    ensures { IfOk result (λ r. (cases : CampaignView) (all : List Block) → AllZip IsCaseOf cases ready.items
        → AllZip (IsJudgedBlock IsWholeOfBlock) all blocks.now → Finds cases all r) }
{
    let mut comparing = Comparing::new(alloc, ready)?;
    let mut notes = Vec::new(alloc);
    for block in blocks {
        let wrong = comparing.wrong_with(alloc, block)?;
        append_note(&mut notes, &block.name, wrong)?;
        comparing.meet(&block.name)?;
    }
    let missing = comparing.missing(alloc)?;
    append_missing(&mut notes, missing.as_slice())?;
    Ok(Comparison { notes, missing })
}

/// The chosen test cases of the script that is before the blocks.
#[tactic(auto, using(crate::proofs::Beside::script_refused))]
pub(crate) fn chosen_before(
    alloc: Global,
    choice: &Choice,
    text: &[u8],
) -> Result<Vec<Case<Script>>, RunFault>
    ensures ready { IfOk result (λ v. AreReadyAs (AreChosen choice.now (script_part text.now)) v.items) }
    ensures refused { IfErr result (RefusesAgainst choice.now text.now) }
{
    let (script, _) = split_script(text);
    chosen_cases(alloc, script, choice)
}

// The blocks after a script, judged, and what is wrong with them as courses of its chosen test cases.
#[tactic(auto, using(crate::proofs::Beside::refusing_rules))]
fn compared(
    alloc: Global,
    choice: &Choice,
    text: &[u8],
) -> Result<(Vec<Judged<Whole>>, Comparison), RunFault>
    ensures found { IfOk result (λ r. AreComparedIn choice.now text.now r.0.items r.1) }
    ensures refused { IfErr result (RefusesAgainst choice.now text.now) }
{
    let ready = chosen_before(alloc, choice, text)?;
    let (_, rest) = split_script(text);
    let blocks = judge_text::<Whole>(alloc, choice.last, rest)?;
    let comparison = compare(alloc, ready, blocks.as_slice())?;
    Ok((blocks, comparison))
}

/// What `check --script` makes of a script with histories and evidence after it: what `check` makes of these, and then what
/// is wrong with them as courses of the chosen test cases of the script. The status is 3 if something is.
pub fn compare_text(alloc: Global, choice: &Choice, text: &[u8]) -> Result<Answer, RunFault>
    ensures done { IfOk result (λ a. IsCheckedAgainst choice.now text.now a.out a.status × (a.told ≡ [])) }
    ensures refused { IfErr result (RefusesAgainst choice.now text.now) }
{
    let (blocks, comparison) = compared(alloc, choice, text)?;
    let notes = comparison.notes.as_slice();
    let mut out = printed_lines(alloc, blocks.as_slice(), &[], false)?;
    out.extend_from_slice(notes)?;
    let status = noted_status(notes, checked_status(blocks.as_slice()));
    Ok(Answer::silent(alloc, out, status))
}

/// What `report --script` makes of a script with histories and evidence after it: what `report` makes of these, with the
/// chosen test cases that are missing. What is wrong goes to standard error, and then the status is 3.
pub fn report_compared(
    alloc: Global,
    form: &ReportForm,
    choice: &Choice,
    text: &[u8],
) -> Result<Answer, RunFault>
    ensures done { IfOk result (IsReportedAgainst form.now choice.now text.now) }
    ensures refused { IfErr result (RefusesAgainst choice.now text.now) }
{
    let (blocks, comparison) = compared(alloc, choice, text)?;
    let Comparison { notes, missing } = comparison;
    let illegal = first_illegal(blocks.as_slice());
    let (_, rest) = split_script(text);
    let missing = missing.as_slice();
    let answer = report_whole(alloc, form, rest, blocks, illegal, missing, notes)?;
    Ok(answer)
}
