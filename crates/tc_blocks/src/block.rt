//! A block of a text.
ghost use Rattle.std.specs.Prelude.{◌≡◌, IfOk, OnOk, ◌++◌, map};
ghost use Rattle.tc_blocks.specs.{Laws.history_of, Line.entries_of};

use crate::History;
use crate::header::Header;
use crate::line::Line;
use std::alloc::Global;
use tc_entry::{Entry, NoMemory, Sequence, Verdict};

/// A history or the evidence of a test case, as a text gave it.
#[derive(Drop)]
pub struct Block {
    /// What its first line says.
    pub header: Header,
    /// The number of the block's first line in the text, counted from 1.
    pub first_line: usize,
    /// The lines inside, in their order.
    pub lines: Sequence<Line>,
    /// The overall verdict.
    pub verdict: Verdict,
}

// Adds a copy of each entry among the lines.
fn add_entries(entries: &mut Vec<Entry>, lines: &[Line]) -> Result<(), NoMemory>
    ensures { OnOk result (entries.new.items ≡ entries.old.items ++ entries_of lines.now) }
{
    for line in lines {
        if let Line::Entry(entry) = line {
            entries.push(entry.copy())?;
        }
    }
    Ok(())
}

impl Block {
    /// The history of the block: its entries, without names of behaviours, remarks and refused lines.
    pub fn history(&self, alloc: Global) -> Result<History, NoMemory>
        ensures { IfOk result (λ h. h ≡ history_of self.now) }
    {
        let mut entries = Vec::new(alloc);
        match add_entries(&mut entries, self.lines.as_slice()) {
            Ok(()) => Ok(History {
                format: self.header.kind.format(),
                name: self.header.name.copy(),
                behaviours: self.header.behaviours,
                first_line: self.first_line,
                entries: Sequence::new(entries),
                verdict: self.verdict,
            }),
            Err(error) => Err(error),
        }
    }
}

/// The history of each block.
pub(crate) fn histories_of(alloc: Global, blocks: &[Block]) -> Result<Vec<History>, NoMemory>
    ensures { IfOk result (λ histories. histories.items ≡ map history_of blocks.now) }
{
    let mut histories = Vec::new(alloc);
    for block in blocks {
        histories.push(block.history(alloc)?)?;
    }
    Ok(histories)
}
