//! Which blocks are picked, and the lines that `check` prints.
ghost use Rattle.std.specs.Prelude.{◌≡◌, ◌++◌, ◌&&◌, IfOk, OnOk, not};
ghost use Rattle.std.specs.List.{list_any};
ghost use Rattle.tc_answer.specs.Prelude.{have_names, is_asked};
ghost use Rattle.tc_rules.specs.Prelude.{matches};
ghost use Rattle.tc_judge.specs.{Check.is_passing, Check.legal_line, Inside.gives_text, Inside.illegal_line, Inside.is_picked as spec_picked, Inside.line_by, Inside.names_found, Inside.printed};

use crate::judged::{Judged, Named, first_illegal};
use crate::playing::Judgement;
use std::alloc::Global;
use tc_answer::{append_place, is_asked};
use tc_command::Choice;
use tc_entry::{Name, Pattern};
use tc_report::verdict_status;
use tc_rules::{NoMemory, Verdict};
use tc_text::{append_number, append_text, write_reply};
use tc_verdict::name as name_of_verdict;

/// Whether a block of this name and this verdict is picked: its name is asked for, and if only what failed is, its verdict
/// is neither none nor pass.
pub fn is_picked(only: &[Pattern], failed: bool, name: &Name, verdict: Verdict) -> bool
    ensures { result ≡ (is_asked only.now name.now && not (failed && is_passing verdict)) }
{
    is_asked(only, name) && !(failed && verdict_status(verdict) == 0)
}

// Whether the pattern matches the name of a block.
fn has_block<B: Named>(blocks: &[B], pattern: &Pattern) -> bool
    ensures { result ≡ list_any (λ b. matches pattern.now (B.name_in b)) blocks.now }
{
    blocks.iter().any(|block| pattern.matches(&block.name()))
}

/// Whether each of the patterns matches the name of a block.
pub fn patterns_match<B: Named>(blocks: &[B], only: &[Pattern]) -> bool
    ensures { result ≡ have_names B.name_in only.now blocks.now }
{
    only.iter().all(|pattern| has_block(blocks, pattern))
}

/// Whether each of the patterns of the choice matches the name of a block, or a block is not legal.
pub(crate) fn name_blocks<K: Drop>(choice: &Choice, blocks: &[Judged<K>]) -> bool
    ensures { result ≡ names_found choice.now blocks.now }
{
    first_illegal(blocks).is_some() || patterns_match(blocks, choice.only.as_slice())
}

// Appends the line of a legal block; if memory runs out, a part of it.
fn append_legal(
    out: &mut Vec<u8>,
    name: &Name,
    entries: usize,
    verdict: Verdict,
) -> Result<(), NoMemory>
    ensures { OnOk result (out.new.items ≡ out.old.items ++ legal_line name.now entries verdict) }
{
    append_text(out, "legal ")?;
    out.extend_from_slice(name.bytes())?;
    append_text(out, " ")?;
    append_number(out, entries as u64)?;
    append_text(out, " ")?;
    append_text(out, name_of_verdict(verdict))?;
    out.push(b'\n')?;
    Ok(())
}

// Appends the words before what the table gives.
#[tactic(auto, unfolding(crate::specs::Inside::gives_text))]
fn append_gives(out: &mut Vec<u8>) -> Result<(), NoMemory>
    ensures { OnOk result (out.new.items ≡ out.old.items ++ gives_text) }
{
    append_text(out, ", table gives ")
}

/// Appends what is printed for a block that is not legal; if memory runs out, a part of it.
pub(crate) fn append_illegal(out: &mut Vec<u8>, judgement: Judgement) -> Result<(), NoMemory>
    ensures { OnOk result (out.new.items ≡ out.old.items ++ illegal_line judgement) }
{
    match judgement {
        Judgement::Legal { .. } => Ok(()),
        Judgement::OtherReply { line, given, reply } => {
            append_place(out, line)?;
            write_reply(out, &given)?;
            append_gives(out)?;
            write_reply(out, &reply)?;
            out.push(b'\n')?;
            Ok(())
        }
        Judgement::OtherVerdict {
            line,
            given,
            verdict,
        } => {
            append_place(out, line)?;
            append_text(out, name_of_verdict(given))?;
            append_gives(out)?;
            append_text(out, name_of_verdict(verdict))?;
            out.push(b'\n')?;
            Ok(())
        }
    }
}

// Appends what is printed for a block, if it is picked or not legal; if memory runs out, a part of it.
fn append_picked<K: Drop>(
    out: &mut Vec<u8>,
    block: &Judged<K>,
    only: &[Pattern],
    failed: bool,
) -> Result<(), NoMemory>
    ensures { OnOk result (out.new.items ≡ out.old.items ++ line_by (spec_picked only.now failed) block.now) }
{
    match block.judgement {
        Judgement::Legal { entries } if is_picked(only, failed, &block.name, block.verdict) => {
            append_legal(out, &block.name, entries, block.verdict)
        }
        judgement => append_illegal(out, judgement),
    }
}

/// What is printed for the blocks up to the first that is not legal: a line for each that is picked, and for that one.
pub(crate) fn printed_lines<K: Drop>(
    alloc: Global,
    blocks: &[Judged<K>],
    only: &[Pattern],
    failed: bool,
) -> Result<Vec<u8>, NoMemory>
    ensures { IfOk result (λ v. v.items ≡ printed (spec_picked only.now failed) blocks.now) }
{
    let mut out = Vec::new(alloc);
    for block in blocks {
        append_picked(&mut out, block, only, failed)?;
        if !block.judgement.is_legal() {
            return Ok(out);
        }
    }
    Ok(out)
}
