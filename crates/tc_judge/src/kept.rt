//! What is kept of a block that is judged.
ghost use Rattle.std.specs.Prelude.{◌≡◌, Bool, IfOk, false, true};
ghost use Rattle.tc_blocks.specs.declared.block.Block.{Block};
ghost use Rattle.tc_report.specs.declared.summary.Summary.{Summary};
ghost use Rattle.tc_judge.specs.Inside.{IsRecorded, IsSummaryOf, IsWholeOfBlock, KeepsNothing};

use crate::judged::Recorded;
use std::alloc::Global;
use std::mem;
use tc_entry::NoMemory;
use tc_report::Summary;
use tc_rules::Entry;

/// What is kept of a block besides its name, its verdict and its judgement.
pub(crate) trait Keeps: Sized {
    /// Whether it is made of what is recorded.
    ghost RECORDS: { Bool };

    const RECORDS: bool;

    /// The value is what is kept of the block.
    ghost keeps: { Block → Self → Type 0 };

    /// What is kept of a block that was played, and recorded if it is asked for.
    fn keep(alloc: Global, recorded: &mut Recorded) -> Result<Self, NoMemory>
        ensures kept { IfOk result (λ kept. (b : Block) → IsRecorded RECORDS b.first_line b.header b.lines recorded.old → keeps b kept) }
        ensures same { recorded.new.playing ≡ recorded.old.playing };
}

/// What is kept has what the forms say of the block.
pub(crate) trait Summarizes: Sized {
    ghost summary: { Self → Summary };

    /// What the forms say.
    fn into_summary(self) -> Summary
        ensures { result ≡ summary self };
}

/// Nothing is kept.
#[derive(Drop)]
pub(crate) struct Nothing;

impl Keeps for Nothing {
    ghost RECORDS = { false };

    const RECORDS: bool = false;

    ghost keeps = { KeepsNothing };

    fn keep(_alloc: Global, _recorded: &mut Recorded) -> Result<Nothing, NoMemory> {
        Ok(Nothing)
    }
}

impl Keeps for Summary {
    ghost RECORDS = { true };

    const RECORDS: bool = true;

    ghost keeps = { IsSummaryOf };

    fn keep(alloc: Global, recorded: &mut Recorded) -> Result<Summary, NoMemory> {
        recorded.summary(alloc)
    }
}

impl Summarizes for Summary {
    ghost summary = { λ s. s };

    fn into_summary(self) -> Summary {
        self
    }
}

/// What the forms say of a block, and its entries.
#[derive(Drop)]
pub(crate) struct Whole {
    pub(crate) summary: Summary,
    pub(crate) behaviours: u16,
    pub(crate) entries: Vec<Entry>,
}

impl Keeps for Whole {
    ghost RECORDS = { true };

    const RECORDS: bool = true;

    ghost keeps = { IsWholeOfBlock };

    fn keep(alloc: Global, recorded: &mut Recorded) -> Result<Whole, NoMemory> {
        let summary = recorded.summary(alloc)?;
        Ok(Whole {
            summary,
            behaviours: recorded.playing.header.behaviours,
            entries: mem::replace(&mut recorded.entries, Vec::new(alloc)),
        })
    }
}

impl Summarizes for Whole {
    ghost summary = { λ w. w.summary };

    fn into_summary(self) -> Summary {
        self.summary
    }
}
