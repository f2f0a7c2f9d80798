//! The test cases that a run is asked to run: not those that evidence shows to have passed, if it is given any.
ghost use Rattle.std.specs.Prelude.{◌≡◌, IfOk, IfErr, OnOk};
ghost use Rattle.tc_reader.specs.Prelude.{add, among};
ghost use Rattle.tc_answer.specs.Inside.{AreReadyAs};
ghost use Rattle.tc_judge.specs.{Compared.RefusesAgainst, Inside.HasSeen, Inside.shows_passed, Inside.with_failed, Compared.AreToRun, Compared.AreUnpassed, Compared.RefusesRun};

use crate::compare::chosen_before;
use crate::judged::{Judged, judge_text};
use crate::kept::Nothing;
use indexmap::IndexSet;
use std::alloc::Global;
use tc_answer::{RunFault, chosen_cases, split_script};
use tc_command::Choice;
use tc_entry::Name;
use tc_exec::Case;
use tc_report::verdict_status;
use tc_step::Script;
use tc_verdict::NoMemory;

/// The names that blocks have, and those of the blocks that do not show their test case to have passed.
#[derive(Drop)]
pub(crate) struct Seen {
    names: IndexSet<Name>,
    failed: IndexSet<Name>,
}

/// Adds a name, if it is not there.
#[tactic(auto, unfolding(tc_reader::specs::Words::is_text, tc_reader::specs::Names::among))]
pub(crate) fn add_name(names: &mut IndexSet<Name>, name: &Name) -> Result<(), NoMemory>
    ensures { OnOk result (names.new.keys ≡ add name.now names.old.keys) }
{
    names.insert(name.copy())?;
    Ok(())
}

// Whether the name is one of them.
#[tactic(auto, unfolding(tc_reader::specs::Words::is_text, tc_reader::specs::Names::among))]
pub(crate) fn has_name(names: &IndexSet<Name>, name: &Name) -> bool
    ensures { result ≡ among name.now names.now.keys }
{
    names.contains(name)
}

impl Seen {
    // Takes the next block in.
    fn take(&mut self, block: &Judged<Nothing>) -> Result<(), NoMemory>
        ensures names { OnOk result (self.new.names.keys ≡ add block.now.name self.old.names.keys) }
        ensures failed { OnOk result (self.new.failed.keys ≡ with_failed self.old.failed.keys block.now) }
    {
        add_name(&mut self.names, &block.name)?;
        if !(block.judgement.is_legal() && verdict_status(block.verdict) == 0) {
            add_name(&mut self.failed, &block.name)?;
        }
        Ok(())
    }

    // Whether the test case of this name has passed.
    fn has_passed(&self, name: &Name) -> bool
        ensures { result ≡ shows_passed self.now name.now }
    {
        has_name(&self.names, name) && !has_name(&self.failed, name)
    }
}

// The names that the blocks have.
fn seen_of(alloc: Global, blocks: &[Judged<Nothing>]) -> Result<Seen, NoMemory>
    ensures { IfOk result (HasSeen blocks.now) }
{
    let mut seen = Seen {
        names: IndexSet::new(alloc),
        failed: IndexSet::new(alloc),
    };
    for block in blocks {
        seen.take(block)?;
    }
    Ok(seen)
}

// The chosen test cases of the script but those that have passed by the evidence after it.
fn unpassed_cases(
    alloc: Global,
    text: &[u8],
    choice: &Choice,
) -> Result<Vec<Case<Script>>, RunFault>
    ensures are { IfOk result (λ v. AreReadyAs (AreUnpassed choice.now text.now) v.items) }
    ensures refused { IfErr result (RefusesAgainst choice.now text.now) }
{
    let mut cases = chosen_before(alloc, choice, text)?;
    let (_, rest) = split_script(text);
    let blocks = judge_text::<Nothing>(alloc, choice.last, rest)?;
    let seen = seen_of(alloc, blocks.as_slice())?;
    cases.retain(|case| !seen.has_passed(&case.name));
    Ok(cases)
}

/// The test cases that a run is asked for, of the campaign that the text spells.
#[tactic(auto, using(crate::proofs::Passing::to_run_rules))]
pub fn cases_to_run(
    alloc: Global,
    text: &[u8],
    choice: &Choice,
) -> Result<Vec<Case<Script>>, RunFault>
    ensures are { IfOk result (λ v. AreReadyAs (AreToRun choice.now text.now) v.items) }
    ensures refused { IfErr result (RefusesRun choice.now text.now) }
{
    if choice.failed {
        unpassed_cases(alloc, text, choice)
    } else {
        chosen_cases(alloc, text, choice)
    }
}
