//! How many runs were looked at after a change.
ghost use Rattle.std.specs.Prelude.{◌≡◌, ◌+◌, false};
ghost use Rattle.tc_book.specs.Inside.{wakes};

use crate::book::Book;
use std::sync::Condvar;
use tc_verdict::Run;

/// How many runs were looked at after a change, from run 0 on: each was notified, or is none to wake.
#[derive(Drop)]
pub(crate) struct Told {
    runs: usize,
}

impl Told {
    /// No run was looked at.
    pub(crate) fn nobody() -> Told
        ensures { result.runs ≡ 0 }
    {
        Told { runs: 0 }
    }

    /// Notifies the run, which is the next to look at.
    pub(crate) fn notified(self, run: Run, changed: &Condvar) -> Told
        requires { self.runs ≡ run.0 }
        ensures { result.runs ≡ self.runs + 1 }
    {
        changed.notify_all();
        Told {
            runs: usize::from(run.0) + 1,
        }
    }

    /// Passes over the run, which is the next to look at, and none to wake.
    pub(crate) fn passed_over(self, run: Run, book: &Book) -> Told
        requires next { self.runs ≡ run.0 }
        requires sleeps { wakes book.now run ≡ false }
        ensures { result.runs ≡ self.runs + 1 }
    {
        // Only the clauses speak of it.
        let _ = book;
        Told {
            runs: usize::from(run.0) + 1,
        }
    }
}
