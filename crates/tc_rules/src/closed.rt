//! The report of a closed case.
ghost use Rattle.std.specs.Prelude.{◌≡◌, Some};
ghost use Rattle.tc_rules.specs.Report.{of_close, refusal_text};

use crate::run_log::RunLog;
use std::fmt;
use tc_entry::{Entry, Sequence, Verdict};
use tc_verdict::NoMemory;
use thiserror::Error;

/// The report of a closed case.
#[derive(Drop)]
pub struct Closed {
    /// How many behaviours the case had.
    pub behaviours: u16,
    /// All entries, the oldest first.
    pub history: Sequence<Entry>,
    /// The log of each run that was started, in the order of the runs' numbers.
    pub logs: Sequence<RunLog>,
    /// The local verdict of each component, from component 0 on.
    pub locals: Sequence<Verdict>,
    /// The overall verdict.
    pub verdict: Verdict,
}

/// Why a case was not closed.
#[derive(Clone, Copy, PartialEq, Eq, Debug, Error)]
pub enum CloseFault {
    /// What came back is not whole. There is not one of each run; or a log that its run's word has not counted, or that
    /// is not its run's part; or a reply that is not the table's. Or there is an entry before its run's start, or the
    /// case is not over.
    Torn,
    /// Memory ran out.
    NoMemory,
}

impl CloseFault {
    /// The words that name the fault.
    pub fn text(self) -> &'static str
        ensures { result.now ≡ refusal_text (of_close self) }
    {
        match self {
            CloseFault::Torn => "torn",
            CloseFault::NoMemory => NoMemory.text(),
        }
    }
}

impl fmt::Display for CloseFault {
    ghost output = { λ fault. Some (refusal_text (of_close fault)) };

    fn fmt<W: fmt::Write>(&self, f: &mut fmt::Formatter<W>) -> fmt::Result {
        f.write_str(self.text())
    }
}
