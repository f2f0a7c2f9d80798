//! Blocks that are read from an input part by part.
ghost use Rattle.std.specs.Prelude.{◌≡◌, ◌≢◌, ◌<◌, ◌≤◌, ◌+◌, ◌-◌, ◌++◌, ℕ, List, Option, length, slice_index, false, IfOk, IfErr, IfSome, OnOk, IsErrOf, MatchResult};
ghost use Rattle.std.specs.Io.KnownBytes.{IsAtEnd};
ghost use Rattle.tc_blocks.specs.{Inside.IsConsumed, Inside.IsKnown, Inside.IsPending, Inside.IsReadInto, Inside.RefusesIn, Inside.TakesIn, Inside.most_of, Inside.reach, Limit.IsInLimit, Limit.IsReadIn, Text.AreEvidence, Text.HoldsOfBlocks, Text.IsFault, Text.IsHeader, declared.block.Block.Block};

use crate::limit::{Extent, Limit};
use crate::parts::{finish, take_part};
use crate::reading::Reading;
use crate::taking::TakesEvidence;
use std::alloc::Global;
use std::io::Read;
use tc_entry::NoMemory;
use tc_stream::InputFault;
use tc_text::TextFault;

// How many bytes are read at a time, at most.
const PART: usize = 32768;

/// What is made of the whole lines so far, and the bytes of the one that is not finished.
#[derive(Drop)]
struct Pending<H: TakesEvidence + Drop> {
    reading: Reading<H>,
    unfinished: Vec<u8>,
}

// How many bytes the whole lines of the text have.
fn whole_lines(text: &[u8]) -> usize
    ensures within { result ≤ length text.now }
    ensures ended { 0 < result → slice_index text.now (result - 1) ≡ 10 }
    ensures last { (place : ℕ) → result ≤ place → place < length text.now
        → slice_index text.now place ≢ 10 }
{
    let mut end = text.len();
    while end > 0 && text[end - 1] != b'\n' {
        end -= 1;
    }
    end
}

// Keeps the bytes until their line is finished.
fn keep(unfinished: &mut Vec<u8>, bytes: &[u8]) -> Result<(), NoMemory>
    ensures { OnOk result (unfinished.new.items ≡ unfinished.old.items ++ bytes.now) }
{
    unfinished.extend_from_slice(bytes)?;
    Ok(())
}

// Takes the bytes of a part: of the whole lines something is made, and the rest is kept.
fn take_bytes<H: TakesEvidence + Drop>(
    alloc: Global,
    pending: &mut Pending<H>,
    part: &[u8],
) -> Result<(), TextFault>
    requires room { reach pending.old + length part.now ≤ usize.MAX }
    requires known { IsKnown pending.old.reading.block }
    ensures read { OnOk result (TakesIn H.stands H.opens pending.old part.now pending.new) }
    ensures room { OnOk result (reach pending.new ≤ reach pending.old + length part.now) }
    ensures known { OnOk result (IsKnown pending.new.reading.block) }
    ensures same { OnOk result (pending.new.reading.only_histories ≡ pending.old.reading.only_histories) }
    ensures fault { IfErr result (RefusesIn H.stands H.opens pending.old part.now) }
{
    let end = whole_lines(part);
    if end == 0 {
        keep(&mut pending.unfinished, part)?;
        return Ok(());
    }
    let (lines, rest) = part.split_at(end);
    keep(&mut pending.unfinished, lines)?;
    take_part(alloc, &mut pending.reading, pending.unfinished.as_slice())?;
    pending.unfinished.clear();
    keep(&mut pending.unfinished, rest)?;
    Ok(())
}

// What the blocks of all the bytes make, if these are those of blocks.
fn finish_bytes<H: TakesEvidence + Drop>(alloc: Global, pending: Pending<H>) -> Result<H, TextFault>
    requires room { reach pending ≤ usize.MAX }
    requires known { IsKnown pending.reading.block }
    requires any { pending.reading.only_histories ≡ false }
    ensures { (bytes : List ℕ) → IsPending H.stands H.opens bytes pending.reading pending.unfinished.items
        → IsReadInto H.stands bytes result }
{
    let Pending {
        mut reading,
        unfinished,
    } = pending;
    match take_part(alloc, &mut reading, unfinished.as_slice()) {
        Ok(()) => finish(reading),
        Err(fault) => Err(fault),
    }
}

// Reads on to the end of an input.
fn skip<R: Read>(reader: &mut R, room: &mut [u8], extent: &mut Extent) -> Result<(), InputFault>
    requires { 0 < length room.old }
    ensures rest { OnOk result ((input : Option (List ℕ)) (text : List ℕ) → IsConsumed input (R.remaining reader.old) text extent.old
        → (rest : List ℕ) × IsConsumed input (R.remaining reader.new) (text ++ rest) extent.new) }
    ensures end { OnOk result (IsAtEnd (R.remaining reader.new)) }
    ensures limit { extent.new.limit ≡ extent.old.limit }
    ensures long { IsErrOf result InputFault.TooLong → (input : Option (List ℕ)) (text : List ℕ)
        → IsConsumed input (R.remaining reader.old) text extent.old
        → IfSome input (λ whole. IsInLimit extent.old.limit whole → ⊥) }
{
    while let Some(_count) = extent.read(reader, room)? {}
    Ok(())
}

/// What the blocks of the input make, histories and evidence in any order, otherwise its first fault; NoMemory may come
/// instead. The input is read to its end, up to its limit, also after a fault.
///
/// Only one part of the input is in memory at a time, and a line that is not finished.
pub fn read_evidence_from<R: Read, H: TakesEvidence + Drop>(
    alloc: Global,
    reader: &mut R,
    limit: Limit,
) -> Result<Result<H, TextFault>, InputFault>
    requires { most_of limit < usize.MAX }
    ensures read { IfOk result (λ read. IsReadIn limit (R.remaining reader.old) (λ text. MatchResult read
        (λ made. HoldsOfBlocks text (λ all. H.stands all made))
        (λ e. IsFault IsHeader text e × ((all : List Block) → AreEvidence text all → e ≡ TextFault.NoMemory)))) }
    ensures end { OnOk result (IsAtEnd (R.remaining reader.new)) }
    ensures long { IsErrOf result InputFault.TooLong
        → IfSome (R.remaining reader.old) (λ text. IsInLimit limit text → ⊥) }
{
    let mut pending = Pending {
        reading: Reading::new(alloc, false),
        unfinished: Vec::new(alloc),
    };
    let mut room = [0; PART];
    let mut extent = Extent::new(limit);
    while let Some(count) = extent.read(reader, &mut room)? {
        if let Err(fault) = take_bytes(alloc, &mut pending, &room[..count]) {
            skip(reader, &mut room, &mut extent)?;
            return Ok(Err(fault));
        }
    }
    Ok(finish_bytes(alloc, pending))
}
