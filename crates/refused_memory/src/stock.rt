//! What the calls are made on: made once, and lent to each.
use crate::campaigns::results;
use crate::cases::closed;
use crate::tables::played;
use crate::trial::Trial;
use std::sync::Wait;
use std::thread::Threads;
use tc_book::Closed;
use tc_report::Results;
use tc_rules::{CaseState, Table};

/// What the calls are made on.
#[derive(Drop)]
pub struct Stock {
    /// A table after moves.
    pub table: Table,
    /// The state after the same moves.
    pub state: CaseState,
    /// A case that was closed after the calls of two runs.
    pub closed: Closed,
    /// The results of a campaign.
    pub results: Results,
}

impl Stock {
    /// All of it; none if memory runs out.
    pub(crate) fn new<R: Threads + Wait + Copy + Send + 'static>(
        rt: R,
        trial: &mut Trial,
    ) -> Option<Stock> {
        let played = played(trial.alloc);
        let ended = closed(rt, trial).zip(results(&rt, trial.alloc));
        let ((table, state), (closed, results)) = played.zip(ended)?;
        Some(Stock {
            table,
            state,
            closed,
            results,
        })
    }
}
