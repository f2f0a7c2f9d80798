//! Reading blocks.
ghost use Rattle.std.specs.Prelude.{◌≡◌, ◌<◌, ◌≤◌, ◌+◌, ◌∷◌, ℕ, List, length, IfOk, IfErr, OnOk, IfSome, MatchOption, MatchResult};
ghost use Rattle.tc_rules.specs.Prelude.{Entry as AnyEntry};
ghost use Rattle.tc_text.specs.Prelude.{IsLong, lines_of};
ghost use Rattle.tc_blocks.specs.{Histories.AreHistories, Histories.IsHistoryHeader, Inside.{AreAlike, AreTakenBy, IsFirst, IsFound, IsInsideFault, IsNoEntryLine, IsNoLine, IsOpenTo, IsWholeOf, TakesLineIn}, HistoryBlock.entry_text, HistoryText.IsEntry, Met.AreMet, Text.AreEvidence, Text.IsFault, Text.IsHeader, Text.IsLine, Text.format_of, declared.header.Header.Header};

use crate::History;
use crate::block::{Block, histories_of};
use crate::header::Kind;
use crate::history_line::{take_end_line, take_long_line, take_short_line};
use crate::line::Line;
use crate::met::MetRuns;
use crate::note::take_note;
use crate::parts::{finish, take_part};
use crate::reading::{OpenBlock, Reading};
use crate::taking::TakesEvidence;
use std::alloc::Global;
use tc_entry::{NoMemory, Sequence, Verdict};
use tc_text::{TextFault, TextKind};

// The line that is no entry and may come inside such a block after lines that are about these runs, which the first line
// spells, and what follows that line.
fn take_other<'a>(
    alloc: Global,
    kind: Kind,
    behaviours: u16,
    met: &MetRuns,
    text: &'a [u8],
) -> Result<Option<(Line, &'a [u8])>, NoMemory>
    requires few { behaviours ≤ 256 }
    requires no_entry { IsNoEntryLine (format_of kind) text.now }
    ensures { IfOk result (λ found. (before : List Line) → AreMet met.now before → IsFound (IsLine kind behaviours before) text.now found) }
{
    match kind {
        Kind::Evidence => take_note(alloc, behaviours, met, text),
        Kind::History1 | Kind::History2 => Ok(None),
    }
}

// Takes the line that the text begins with, which has this number, if it may come next inside the block; gives what
// follows it.
#[inline(never)]
fn take_any_line<'a, H: TakesEvidence>(
    alloc: Global,
    block: &mut OpenBlock<H::Begun>,
    text: &'a [u8],
    line: usize,
) -> Result<Option<&'a [u8]>, NoMemory>
    requires { (e : AnyEntry) (others : List (List ℕ)) → IsEntry (format_of block.old.kind) e
        → lines_of text.now ≡ entry_text e ∷ others → IsLong e.op }
    ensures { IfOk result (λ found. MatchOption found (IsNoLine block.old.kind block.old.behaviours block.old.met text.now)
        (λ rest. TakesLineIn H.opens text.now line block.old block.new rest.now)) }
{
    if let Some((entry, rest)) = take_long_line(block.kind.format(), text) {
        block.met.add_entry(&entry);
        H::take_entry(&mut block.begun, line, entry)?;
        return Ok(Some(rest));
    }
    let found = take_other(alloc, block.kind, block.behaviours, &block.met, text)?;
    let Some((other, rest)) = found else {
        return Ok(None);
    };
    block.met.add_line(&other);
    H::take(&mut block.begun, line, other)?;
    Ok(Some(rest))
}

// The same: of all lines most are entries with short operations, each of which is made where it is passed on.
#[inline(always)]
fn take_line<'a, H: TakesEvidence>(
    alloc: Global,
    block: &mut OpenBlock<H::Begun>,
    text: &'a [u8],
    line: usize,
) -> Result<Option<&'a [u8]>, NoMemory>
    ensures { IfOk result (λ found. MatchOption found (IsNoLine block.old.kind block.old.behaviours block.old.met text.now)
        (λ rest. TakesLineIn H.opens text.now line block.old block.new rest.now)) }
{
    let Some(((caller, short, reply), rest)) = take_short_line::<H>(text) else {
        return take_any_line::<H>(alloc, block, text, line);
    };
    block.met.add_caller(caller);
    H::take_short(&mut block.begun, line, caller, short, reply)?;
    Ok(Some(rest))
}

// Takes the lines inside the block with which the text continues, up to the block's last line or the end of the text. Gives
// the number of the line that it came to, and if that is the last one, its verdict and what follows it.
#[inline(never)]
pub(crate) fn take_lines<'a, H: TakesEvidence>(
    alloc: Global,
    block: &mut OpenBlock<H::Begun>,
    text: &'a [u8],
    first_line: usize,
) -> Result<(usize, Option<(Verdict, &'a [u8])>), TextFault>
    requires room { first_line + length text.now ≤ usize.MAX }
    requires met { (some : List Line) × AreMet block.old.met some }
    ensures met { OnOk result ((some : List Line) × AreMet block.new.met some) }
    ensures alike { OnOk result (AreAlike block.old block.new) }
    ensures taken { IfOk result (λ r. AreTakenBy H.opens block.old.kind block.old.behaviours text.now first_line block.old.met block.new.met
        block.old.begun block.new.begun r.0 r.1) }
    ensures room { IfOk result (λ r. r.0 ≤ first_line + length text.now) }
    ensures behind { IfOk result (λ r. IfSome r.1 (λ end. r.0 + 1 + length end.1.now ≤ first_line + length text.now)) }
    ensures less { IfOk result (λ r. IfSome r.1 (λ end. length end.1.now < length text.now)) }
    ensures fault { IfErr result (λ e. (at : ℕ) (h : Header) (inside : List Line)
        → IsOpenTo H.opens block.old.kind block.old.behaviours at h inside block.old.met block.old.begun first_line
        → IsInsideFault block.old.kind block.old.behaviours inside at text.now e) }
{
    let mut rest = text;
    let mut line = first_line;
    while !rest.is_empty() {
        if let Some(end) = take_end_line(rest) {
            return Ok((line, Some(end)));
        }
        let Some(behind) = take_line::<H>(alloc, block, rest, line)? else {
            return Err(TextFault::at(line, TextKind::Entry));
        };
        line += 1;
        rest = behind;
    }
    Ok((line, None))
}

// What the blocks that the text spells make, otherwise the text's first fault; NoMemory may come instead. The text may
// have histories only.
fn read_into<H: TakesEvidence + Drop>(
    alloc: Global,
    only_histories: bool,
    text: &[u8],
) -> Result<H, TextFault>
    ensures ok { IfOk result (λ made. IsWholeOf H.stands (IsFirst only_histories) text.now made) }
    ensures fault { IfErr result (λ e. IsFault (IsFirst only_histories) text.now e) }
{
    let mut reading = Reading::new(alloc, only_histories);
    take_part(alloc, &mut reading, text)?;
    finish(reading)
}

/// What the blocks that the text spells make, histories and evidence in any order, otherwise the text's first fault;
/// NoMemory may come instead.
#[tactic(auto, using(crate::proofs::PartByPart::fault_only))]
pub fn read_evidence_into<H: TakesEvidence + Drop>(
    alloc: Global,
    text: &[u8],
) -> Result<H, TextFault>
    ensures ok { IfOk result (λ made. (blocks : List Block) × AreEvidence text.now blocks × H.stands blocks made) }
    ensures fault { IfErr result (λ e. IsFault IsHeader text.now e) }
    ensures only { (all : List Block) → AreEvidence text.now all
        → MatchResult result (λ made. H.stands all made) (λ e. e ≡ TextFault.NoMemory) }
{
    read_into(alloc, false, text)
}

/// The blocks that the text spells, histories and evidence in any order, otherwise its first fault; NoMemory may come
/// instead.
pub fn read_evidence(alloc: Global, text: &[u8]) -> Result<Sequence<Block>, TextFault>
    ensures ok { IfOk result (λ blocks. AreEvidence text.now blocks) }
    ensures fault { IfErr result (λ e. IsFault IsHeader text.now e) }
    ensures only { (all : List Block) → AreEvidence text.now all
        → MatchResult result (λ blocks. blocks ≡ all) (λ e. e ≡ TextFault.NoMemory) }
{
    read_evidence_into(alloc, text)
}

/// The histories that the text spells, otherwise its first fault; the first line of evidence is one too. NoMemory may come
/// instead.
pub fn read_history(alloc: Global, text: &[u8]) -> Result<Vec<History>, TextFault>
    ensures ok { IfOk result (λ found. AreHistories text.now found.items) }
    ensures fault { IfErr result (λ e. IsFault IsHistoryHeader text.now e) }
    ensures only { (all : List History) → AreHistories text.now all
        → MatchResult result (λ found. found.items ≡ all) (λ e. e ≡ TextFault.NoMemory) }
{
    let blocks: Sequence<Block> = read_into(alloc, true, text)?;
    Ok(histories_of(alloc, blocks.as_slice())?)
}
