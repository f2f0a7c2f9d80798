//! The subcommand `model`.
ghost use Rattle.std.specs.Prelude.{◌≡◌, IfOk, filter};
ghost use Rattle.tc_judge.specs.Prelude.{IsMadeOfInput, history_limit, is_chosen};
ghost use Rattle.tc_program.specs.{Inside.IsMadeOf, Model.AnswersBlocks, Model.IsModelled};

use std::alloc::Global;
use std::io::Read;
use tc_answer::{Answer, REFUSED, RunFault, SCRIPT_LIMIT, of_input};
use tc_blocks::{Block, read_evidence, read_evidence_from};
use tc_command::Choice;
use tc_entry::{NoMemory, Sequence};
use tc_judge::{counted, is_picked, limit_of, patterns_match};
use tc_model::{Models, models_of, notes_of};

// The chosen blocks.
fn chosen(blocks: Vec<Block>, choice: &Choice) -> Vec<Block>
    ensures { result.items ≡ filter (is_chosen choice.now) blocks.items }
{
    let mut blocks = blocks;
    let only = choice.only.as_slice();
    let failed = choice.failed;
    blocks.retain(|block| is_picked(only, failed, &block.header.name, block.verdict));
    blocks
}

// What is made of the chosen blocks.
fn answer(alloc: Global, blocks: Vec<Block>) -> Result<Answer, NoMemory>
    ensures { IfOk result (AnswersBlocks blocks.items) }
{
    let Models { attempts, text } = models_of(alloc, blocks, SCRIPT_LIMIT)?;
    let told = notes_of(alloc, attempts.as_slice())?;
    let status = if told.is_empty() { 0 } else { REFUSED };
    Ok(Answer {
        out: Sequence::new(text),
        told: Sequence::new(told),
        status,
    })
}

// What is made of these blocks: of the chosen among those that count the script of which they are complete courses, and a
// line for each block that has none. Each pattern has to match the name of one that counts.
fn model_blocks(alloc: Global, choice: &Choice, blocks: Sequence<Block>) -> Result<Answer, RunFault>
    ensures { IsMadeOf choice.now blocks result }
{
    let blocks = counted(alloc, choice.last, blocks.into_vec())?;
    if !patterns_match(blocks.as_slice(), choice.only.as_slice()) {
        return Err(RunFault::Only);
    }
    Ok(answer(alloc, chosen(blocks, choice))?)
}

/// What `model` makes of a text of histories and evidence.
#[tactic(auto, using(crate::proofs::Modelling::modelled_text))]
pub(crate) fn model_text(alloc: Global, choice: &Choice, text: &[u8]) -> Result<Answer, RunFault>
    ensures { IsModelled choice.now text.now result }
{
    match read_evidence(alloc, text) {
        Ok(blocks) => model_blocks(alloc, choice, blocks),
        Err(fault) => Err(RunFault::from(fault)),
    }
}

/// The same of an input, of which only the blocks are in memory.
#[tactic(auto, using(crate::proofs::Modelling::modelled_input))]
pub(crate) fn model_input<R: Read>(
    alloc: Global,
    choice: &Choice,
    reader: &mut R,
) -> Result<Answer, RunFault>
    ensures { IsMadeOfInput (history_limit choice.now.long) (R.remaining reader.old) (IsModelled choice.now) result }
{
    match read_evidence_from(alloc, reader, limit_of(choice.long)) {
        Ok(Ok(blocks)) => model_blocks(alloc, choice, blocks),
        Ok(Err(fault)) => Err(RunFault::from(fault)),
        Err(fault) => Err(of_input(fault)),
    }
}
