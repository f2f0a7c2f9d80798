//! Blocks that are read part by part.
ghost use Rattle.std.specs.Prelude.{◌≡◌, ◌≢◌, ◌<◌, ◌≤◌, ◌+◌, ℕ, List, [], None, Some, length, IfOk, IfErr, OnOk};
ghost use Rattle.tc_text.specs.Prelude.{lines_of};
ghost use Rattle.tc_blocks.specs.{Inside.GoesOn, Inside.IsFirst, Inside.IsKnown, Inside.IsReadBy, Inside.IsWholeOf, Inside.Refuses, Inside.opened, Text.IsFault};

use crate::header::take_first_line;
use crate::met::MetRuns;
use crate::read::take_lines;
use crate::reading::{OpenBlock, Reading};
use crate::taking::TakesEvidence;
use std::alloc::Global;
use tc_text::{TextFault, TextKind};

impl<H: TakesEvidence + Drop> Reading<H> {
    /// What is made of no line of a text, which may have histories only.
    pub(crate) fn new(alloc: Global, only_histories: bool) -> Reading<H>
        ensures read { IsReadBy H.stands H.opens [] result }
        ensures first { result.line ≡ 1 }
        ensures same { result.only_histories ≡ only_histories }
        ensures known { IsKnown result.block }
    {
        Reading {
            made: H::begin(alloc),
            only_histories,
            block: None,
            line: 1,
        }
    }
}

// Takes the lines inside this block, which is open, up to its end or that of the text; gives what follows.
#[inline(always)]
fn take_inside<'a, H: TakesEvidence + Drop>(
    alloc: Global,
    reading: &mut Reading<H>,
    mut block: OpenBlock<H::Begun>,
    text: &'a [u8],
) -> Result<&'a [u8], TextFault>
    requires closed { reading.old.block ≡ None }
    requires room { reading.old.line + length text.now ≤ usize.MAX }
    requires known { IsKnown (Some block) }
    ensures read { IfOk result (λ rest. GoesOn H.stands H.opens (opened reading.old block) text.now reading.new rest.now) }
    ensures room { IfOk result (λ rest. reading.new.line + length rest.now ≤ reading.old.line + length text.now) }
    ensures less { IfOk result (λ rest. text.now ≢ [] → length rest.now < length text.now) }
    ensures no_more { IfOk result (λ rest. length rest.now ≤ length text.now) }
    ensures known { OnOk result (IsKnown reading.new.block) }
    ensures fault { IfErr result (Refuses H.stands H.opens (opened reading.old block) text.now) }
{
    let (line, end) = take_lines::<H>(alloc, &mut block, text, reading.line)?;
    let Some((verdict, rest)) = end else {
        reading.block = Some(block);
        reading.line = line;
        return Ok(b"");
    };
    let OpenBlock { begun, .. } = block;
    reading.made.close(begun, line, verdict)?;
    reading.line = line + 1;
    Ok(rest)
}

// Begins the block that the text begins with, and takes the lines inside it; gives what follows.
fn begin_block<'a, H: TakesEvidence + Drop>(
    alloc: Global,
    reading: &mut Reading<H>,
    text: &'a [u8],
) -> Result<&'a [u8], TextFault>
    requires closed { reading.old.block ≡ None }
    requires some { text.now ≢ [] }
    requires room { reading.old.line + length text.now ≤ usize.MAX }
    ensures read { IfOk result (λ rest. GoesOn H.stands H.opens reading.old text.now reading.new rest.now) }
    ensures room { IfOk result (λ rest. reading.new.line + length rest.now ≤ reading.old.line + length text.now) }
    ensures less { IfOk result (λ rest. length rest.now < length text.now) }
    ensures known { OnOk result (IsKnown reading.new.block) }
    ensures fault { IfErr result (Refuses H.stands H.opens reading.old text.now) }
{
    let Some((header, rest)) = take_first_line(reading.only_histories, text) else {
        return Err(TextFault::at(reading.line, TextKind::FirstLine));
    };
    let kind = header.kind;
    let behaviours = header.behaviours;
    let begun = H::start(alloc, reading.line, header)?;
    let block = OpenBlock {
        begun,
        kind,
        behaviours,
        met: MetRuns::none(),
    };
    reading.line += 1;
    let behind = take_inside(alloc, reading, block, rest)?;
    Ok(behind)
}

// Begins the block that the text begins with, or continues with the open one, up to its end or that of the text; gives
// what follows.
fn take_some<'a, H: TakesEvidence + Drop>(
    alloc: Global,
    reading: &mut Reading<H>,
    text: &'a [u8],
) -> Result<&'a [u8], TextFault>
    requires some { text.now ≢ [] }
    requires room { reading.old.line + length text.now ≤ usize.MAX }
    requires known { IsKnown reading.old.block }
    ensures read { IfOk result (λ rest. GoesOn H.stands H.opens reading.old text.now reading.new rest.now) }
    ensures room { IfOk result (λ rest. reading.new.line + length rest.now ≤ reading.old.line + length text.now) }
    ensures less { IfOk result (λ rest. length rest.now < length text.now) }
    ensures known { OnOk result (IsKnown reading.new.block) }
    ensures fault { IfErr result (Refuses H.stands H.opens reading.old text.now) }
{
    if reading.block.is_none() {
        return begin_block(alloc, reading, text);
    }
    let Some(block) = reading.block.take() else {
        unreachable!();
    };
    let rest = take_inside(alloc, reading, block, text)?;
    Ok(rest)
}

/// Takes the lines of the text, which come after those that were read.
pub(crate) fn take_part<H: TakesEvidence + Drop>(
    alloc: Global,
    reading: &mut Reading<H>,
    text: &[u8],
) -> Result<(), TextFault>
    requires room { reading.old.line + length text.now ≤ usize.MAX }
    requires known { IsKnown reading.old.block }
    ensures read { OnOk result (GoesOn H.stands H.opens reading.old text.now reading.new []) }
    ensures room { OnOk result (reading.new.line ≤ reading.old.line + length text.now) }
    ensures known { OnOk result (IsKnown reading.new.block) }
    ensures fault { IfErr result (Refuses H.stands H.opens reading.old text.now) }
{
    let mut rest = text;
    while !rest.is_empty() {
        rest = take_some(alloc, reading, rest)?;
    }
    Ok(())
}

/// What the blocks make, if the lines that were read are those of blocks.
pub(crate) fn finish<H: TakesEvidence + Drop>(reading: Reading<H>) -> Result<H, TextFault>
    ensures ok { IfOk result (λ made. (text : List ℕ)
        → IsReadBy H.stands H.opens (lines_of text) reading → IsWholeOf H.stands (IsFirst reading.only_histories) text made) }
    ensures fault { IfErr result (λ e. (text : List ℕ)
        → IsReadBy H.stands H.opens (lines_of text) reading → IsFault (IsFirst reading.only_histories) text e) }
{
    let Reading {
        made,
        block,
        line,
        ..
    } = reading;
    if block.is_some() || line == 1 {
        return Err(TextFault::at(line, TextKind::Early));
    }
    Ok(made)
}
