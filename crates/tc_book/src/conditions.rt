//! The conditions that the runs of a case wait on, and whom a change wakes.
ghost use Rattle.std.specs.Prelude.{◌≡◌, ◌<◌, ℕ, IfOk, length, slice_index_or, true};
ghost use Rattle.tc_book.specs.declared.conditions.condition.Condition.{Condition};

pub(crate) mod condition;

use crate::book::Book;
use crate::conditions::condition::Condition;
use crate::told::Told;
use std::alloc::Global;
use tc_verdict::{NoMemory, Run};

/// A condition for each run of a case, on which it waits under the lock, and is woken.
#[derive(Drop)]
pub(crate) struct Conditions {
    of_runs: Vec<Condition>,
    ghost in_order: { (b : ℕ) (d : Condition) → b < length of_runs.items → (slice_index_or of_runs.items b d).run.0 ≡ b },
}

impl Conditions {
    pub(crate) fn new(alloc: Global, behaviours: u16) -> Result<Conditions, NoMemory>
        ensures { IfOk result (λ c. length c.of_runs.items ≡ behaviours) }
    {
        let mut of_runs = Vec::with_capacity(alloc, usize::from(behaviours))?;
        for b in 0..behaviours {
            of_runs.push(Condition::new(Run(b)))?;
        }
        Ok(Conditions { of_runs })
    }

    /// The condition of a run.
    pub(crate) fn of(&self, run: Run) -> &Condition
        requires { run.0 < length self.now.of_runs.items }
        ensures { result.now.run ≡ run }
    {
        &self.of_runs[usize::from(run.0)]
    }

    /// Wakes each run that waits and can continue now.
    pub(crate) fn tell(&self, book: &Book) -> Told
        ensures { result.runs ≡ length self.now.of_runs.items }
    {
        let mut told = Told::nobody();
        for condition in &self.of_runs {
            told = condition.tell(book, told);
        }
        told
    }
}

/// Whether somebody who waits can continue. It is no `Drop`: its holder gives it to those that wait.
pub(crate) struct WakeUp {
    anyone: bool,
}

impl WakeUp {
    pub(crate) fn new(anyone: bool) -> WakeUp
        ensures { result.anyone ≡ anyone }
    {
        WakeUp { anyone }
    }

    /// Wakes each run that waits and can continue now, if there may be one.
    pub(crate) fn give(self, waiting: &Conditions, book: &Book) -> Told
        ensures { self.anyone ≡ true → result.runs ≡ length waiting.now.of_runs.items }
    {
        let WakeUp { anyone } = self;
        if anyone {
            waiting.tell(book)
        } else {
            Told::nobody()
        }
    }
}
