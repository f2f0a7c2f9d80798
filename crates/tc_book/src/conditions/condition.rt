//! The condition that one run of a case waits on.
ghost use Rattle.std.specs.{Prelude.{◌≡◌, ◌+◌, IsTrue}, Sync.Mutex.mutex_guard_value};
ghost use Rattle.tc_book.specs.Inside.{goes_on, lacks};

use crate::book::Book;
use crate::told::Told;
use crate::until::{Lack, Until};
use std::sync::{Condvar, MutexGuard, Wait};
use tc_verdict::Run;

/// What one run of a case waits on under the lock, until it is woken.
#[derive(Drop)]
pub(crate) struct Condition {
    run: Run,
    changed: Condvar,
}

impl Condition {
    pub(super) fn new(run: Run) -> Condition
        ensures { result.run ≡ run }
    {
        Condition {
            run,
            changed: Condvar::new(),
        }
    }

    /// The book, once the run continues that waits for this. The look by which it continues and the sleep before are of
    /// one hold.
    pub(crate) fn wait<'b, R: Wait>(
        &self,
        rt: &R,
        book: MutexGuard<'b, Book>,
        until: Until,
    ) -> MutexGuard<'b, Book>
        ensures { IsTrue (goes_on (mutex_guard_value result) self.now.run until) }
    {
        let run = self.run;
        self.changed
            .wait_while(rt, book, |book| !book.goes_on(run, until))
    }

    /// Waits for ever, since by the book in this hold the run lacks what it would continue with, and that can't come.
    pub(crate) fn stay<R: Wait>(&self, rt: &R, book: MutexGuard<'_, Book>, lack: Lack)
        requires { IsTrue (lacks (mutex_guard_value book) self.now.run lack) }
        ensures { ⊥ }
    {
        self.changed.wait_while(rt, book, |_| true);
    }

    /// Wakes the run, which is the next to look at, unless it is none to wake.
    pub(super) fn tell(&self, book: &Book, told: Told) -> Told
        requires { told.runs ≡ self.now.run.0 }
        ensures { result.runs ≡ told.runs + 1 }
    {
        if book.wakes(self.run) {
            told.notified(self.run, &self.changed)
        } else {
            told.passed_over(self.run, book)
        }
    }
}
