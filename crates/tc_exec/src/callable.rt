//! What a run calls.
ghost use Rattle.tc_book.specs.Prelude.{PassState};
ghost use Rattle.tc_exec.specs.declared.job.Back.{Back};

use crate::job::Back;
use tc_book::Pass;

/// What a run calls once, with its pass. Contracts see what each pass may come back as.
pub trait Callable: Send + Drop + 'static {
    ghost outcome: { Self → PassState → Back → Type 0 };

    /// Calls the behaviour.
    fn call(self, pass: Pass) -> Back
        ensures { outcome self pass result };
}
