//! The lines inside a block of evidence.
use crate::sentence::Sentence;
use tc_entry::{Entry, Name, Run};

/// A line inside a block. A block of a history has entries only.
#[derive(Drop)]
pub enum Line {
    /// The name of the behaviour that a run has.
    Named { run: Run, name: Name },
    /// An entry.
    Entry(Entry),
    /// A remark of a run.
    Remark { run: Run, sentence: Sentence },
    /// A line of a run that was refused, and why.
    Refused { run: Run, sentence: Sentence },
}
