//! The log of a run.
use tc_entry::{Comp, Entry, Run, Sequence};

/// The entries of one run.
#[derive(Drop)]
pub struct RunLog {
    /// The run.
    pub run: Run,
    /// The component that the run was started on.
    pub comp: Comp,
    /// The entries, the oldest first.
    pub entries: Sequence<Entry>,
}
