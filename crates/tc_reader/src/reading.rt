//! The campaign of a text, or its first fault, in one walk over its lines.
ghost use Rattle.std.specs.Prelude.{◌≡◌, ◌≤◌, ◌+◌, ◌^◌, [], false, IfOk, OnOk, All, map};
ghost use Rattle.tc_reader.specs.{Campaign.IsCase, Campaign.Reads, Campaign.campaign, Inside.IsCampaign, Inside.MayTake, Inside.Takes, Inside.begins, Inside.counts_of, Inside.with_counts, Line.line_of, Names.has_twice};

use crate::campaign::Campaign;
use crate::counts::{Counts, Open};
use crate::fault::{ReadFault, ScriptFault};
use crate::made::Made;
use crate::plain::plain_step;
use crate::walk::Walk;
use crate::{LineFault, Lines, ScriptKind, is_comment, read_line};
use std::alloc::Global;

// Takes the line of this number by its words.
#[tactic(auto, using(crate::proofs::WalkedText::line_rules))]
#[inline(never)]
fn take_words<'t>(
    alloc: Global,
    walk: &mut Walk,
    counts: &mut Counts,
    number: usize,
    text: &'t [u8],
    words: &mut Vec<&'t [u8]>,
) -> Result<(), ReadFault>
    requires may_take { MayTake counts.old walk.old }
    ensures taken { Takes number counts.old walk.old walk.new (with_counts counts.new result) (line_of text.now) }
{
    let line = match read_line(alloc, text, words) {
        Ok(line) => line,
        Err(LineFault::Kind(kind)) => {
            return Err(ReadFault::Script(ScriptFault { line: number, kind }));
        }
        Err(LineFault::NoMemory) => return Err(ReadFault::NoMemory),
    };
    match counts.with_line(&line) {
        Ok(more) => {
            *counts = more;
            walk.take(alloc, number, &line)?;
            Ok(())
        }
        Err(kind) => Err(ReadFault::Script(ScriptFault { line: number, kind })),
    }
}

// Takes the next line, of this number. It answers what is remembered after it.
#[tactic(auto, using(crate::proofs::Stepping::step_rules))]
#[inline(always)]
fn take_line<'t>(
    alloc: Global,
    walk: &mut Walk,
    counts: &mut Counts,
    number: usize,
    text: &'t [u8],
    words: &mut Vec<&'t [u8]>,
) -> Result<(), ReadFault>
    requires may_take { MayTake counts.old walk.old }
    ensures taken { Takes number counts.old walk.old walk.new (with_counts counts.new result) (line_of text.now) }
{
    // The shortest lines need no words.
    if text.is_empty() || is_comment(text) {
        return Ok(());
    }
    let Some(step) = plain_step(&walk.names.bound, text) else {
        return take_words(alloc, walk, counts, number, text, words);
    };
    match counts.take_step() {
        Ok(()) => Ok(walk.made.add_step(step)?),
        Err(kind) => Err(ReadFault::Script(ScriptFault { line: number, kind })),
    }
}

/// Walks over the lines of a text, up to its first fault.
fn walk_lines(alloc: Global, text: &[u8], walk: &mut Walk) -> Result<(), ReadFault>
    requires { walk.old ≡ begins }
    ensures answer { Reads (λ _. walk.new.made.done) result (campaign text.now) }
    ensures law { OnOk result (IsCampaign walk.new.made.done) }
{
    let mut counts = Counts {
        state: Open::Nothing,
        cases: 0,
        behaviours: 0,
        steps: 0,
    };
    let mut words = Vec::new(alloc);
    let mut rest = Lines::new(text);
    let mut line = 1;
    while let Some(bytes) = rest.next() {
        match take_line(alloc, walk, &mut counts, line, bytes, &mut words) {
            Ok(()) => line += 1,
            Err(fault) => return Err(fault),
        }
    }
    if !counts.has_ended() {
        let kind = ScriptKind::Cut;
        return Err(ReadFault::Script(ScriptFault { line, kind }));
    }
    walk.end(alloc)?;
    match walk.fault {
        Some(fault) => Err(ReadFault::Script(fault)),
        None => Ok(()),
    }
}

/// The campaign that a text spells; otherwise its first fault. Memory may run out instead.
pub fn read_campaign(alloc: Global, bytes: &[u8]) -> Result<Campaign, ReadFault>
    ensures answer { Reads (λ c. c) result (campaign bytes.now) }
    ensures names { IfOk result (λ c. has_twice (map (λ t. t.0) c) ≡ false) }
    ensures cases { IfOk result (λ c. All (λ t. IsCase t.1) c) }
{
    let mut walk = Walk::new(alloc);
    walk_lines(alloc, bytes, &mut walk)?;
    let Walk { made, .. } = walk;
    let Made { done, .. } = made;
    Ok(Campaign { cases: done })
}
