//! The models of blocks.
ghost use Rattle.std.specs.Prelude.{◌≡◌, ◌≤◌, ◌++◌, [], IfOk, OnOk, is_some, length, map};
ghost use Rattle.std.specs.List.{flat_map};
ghost use Rattle.tc_model.specs.{Inside.unread, Models.{AreAttempts, AreModels, AreTried, IsTried, attempt_note, of_block as spec_of_block, written}};

use crate::certified::are_spelled;
use crate::following::follow;
use crate::naming::{add_distinct, name_runs};
use crate::reason::{Reason, Refusal};
use crate::writing::append_case;
use indexmap::IndexSet;
use std::alloc::Global;
use tc_blocks::Block;
use tc_entry::{Name, NoMemory, is_behaviours};
use tc_reader::TEST_CASES;
use tc_text::{append_number, append_text};

/// The models of blocks: what came of each block, and the script of the models.
#[derive(Drop)]
pub struct Models {
    pub attempts: Vec<Attempt>,
    pub text: Vec<u8>,
}

/// A block, and why it has no model, if it has none.
#[derive(Drop)]
pub struct Attempt {
    pub block: Block,
    pub refusal: Option<Refusal>,
}

// A refusal of a whole block.
fn of_block(block: &Block, reason: Reason) -> Refusal
    ensures { result ≡ spec_of_block block.now reason }
{
    Refusal {
        line: block.first_line,
        reason,
    }
}

// Appends the model of the block to a text of at most that many bytes and adds the name of its test case, or says why it has none.
fn append_model(
    alloc: Global,
    text: &mut Vec<u8>,
    limit: usize,
    cases: &mut IndexSet<Name>,
    written: usize,
    block: &Block,
) -> Result<Option<Refusal>, NoMemory>
    ensures { IfOk result (IsTried written block.now) }
{
    if written >= TEST_CASES {
        return Ok(Some(of_block(block, Reason::ManyCases)));
    }
    if !is_behaviours(usize::from(block.header.behaviours)) {
        return Ok(Some(of_block(block, Reason::ManyBehaviours)));
    }
    let mut runs = match follow(alloc, block)? {
        Ok(runs) => runs,
        Err(refusal) => return Ok(Some(refusal)),
    };
    let (size, known) = (text.len(), cases.len());
    name_runs(alloc, runs.as_mut_slice())?;
    add_distinct(alloc, cases, block.header.name.copy())?;
    if let Some(name) = cases.as_slice().last() {
        let lines = block.lines.as_slice();
        append_case(alloc, text, name, runs.as_slice(), lines)?;
    }
    if text.len() > limit {
        text.truncate(size);
        cases.truncate(known);
        return Ok(Some(of_block(block, Reason::LongScript)));
    }
    Ok(None)
}

// Each block with what came of it, and the script of the models, of at most that many bytes.
#[tactic(auto, using(crate::proofs::Trying::are_tried))]
fn attempt_all(alloc: Global, blocks: Vec<Block>, limit: usize) -> Result<Models, NoMemory>
    ensures blocks { IfOk result (λ m. map (λ t. t.block) m.attempts.items ≡ blocks.items) }
    ensures tried { IfOk result (λ m. AreTried 0 m.attempts.items) }
{
    let mut attempts = Vec::new(alloc);
    let mut text = Vec::new(alloc);
    let mut cases = IndexSet::new(alloc);
    let mut written = 0;
    for block in blocks {
        let refusal = append_model(alloc, &mut text, limit, &mut cases, written, &block)?;
        if refusal.is_none() {
            written += 1;
        }
        attempts.push(Attempt { block, refusal })?;
    }
    Ok(Models { attempts, text })
}

// Refuses the block, if it is not refused.
fn refuse(attempt: &mut Attempt)
    ensures { attempt.new ≡ unread attempt.old }
{
    let other = of_block(&attempt.block, Reason::NotRead);
    attempt.refusal = Some(attempt.refusal.unwrap_or(other));
}

// Refuses all blocks that are not refused.
fn refuse_all(attempts: &mut [Attempt])
    ensures all { attempts.new ≡ map unread attempts.old }
    ensures blocks { map (λ t. t.block) attempts.new ≡ map (λ t. t.block) attempts.old }
    ensures none { written attempts.new ≡ [] }
{
    for attempt in attempts.iter_mut() {
        refuse(attempt);
    }
}

/// The models of blocks: a script of at most that many bytes, of which each block that is not refused is a complete
/// course. It is read again as a whole.
pub fn models_of(alloc: Global, blocks: Vec<Block>, limit: usize) -> Result<Models, NoMemory>
    ensures blocks { IfOk result (λ m. map (λ t. t.block) m.attempts.items ≡ blocks.items) }
    ensures models { IfOk result (λ m. AreModels m.text.items (written m.attempts.items)) }
    ensures short { IfOk result (λ m. length m.text.items ≤ limit) }
    ensures attempts { IfOk result (λ m. AreAttempts m.attempts.items) }
{
    let mut models = attempt_all(alloc, blocks, limit)?;
    let is_long = models.text.len() > limit;
    if is_long || !are_spelled(alloc, models.attempts.as_slice(), models.text.as_slice())? {
        refuse_all(models.attempts.as_mut_slice());
        models.text.clear();
    }
    Ok(models)
}

// Appends the line for a block, if it has no model; if memory runs out, a part of it.
fn append_note(out: &mut Vec<u8>, attempt: &Attempt) -> Result<(), NoMemory>
    ensures { OnOk result (out.new.items ≡ out.old.items ++ attempt_note attempt.now) }
{
    if let Some(refusal) = attempt.refusal {
        append_text(out, "ttrun: line ")?;
        append_number(out, refusal.line as u64)?;
        append_text(out, ": no model of ")?;
        out.extend_from_slice(attempt.block.header.name.bytes())?;
        append_text(out, ": ")?;
        append_text(out, refusal.reason.text())?;
        out.push(b'\n')?;
    }
    Ok(())
}

/// The lines for the blocks that have no model.
pub fn notes_of(alloc: Global, attempts: &[Attempt]) -> Result<Vec<u8>, NoMemory>
    ensures { IfOk result (λ v. v.items ≡ flat_map attempt_note attempts.now) }
{
    let mut out = Vec::new(alloc);
    for attempt in attempts {
        append_note(&mut out, attempt)?;
    }
    Ok(out)
}
