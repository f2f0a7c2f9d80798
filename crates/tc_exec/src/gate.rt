//! The gate that is asked before a worker is made.
ghost use Rattle.std.specs.Prelude.{◌≡◌, Bool, true};
ghost use Rattle.tc_rules.specs.Prelude.{Run};

use tc_verdict::Run;

/// Is asked before the worker of a run is made. Contracts see what a question does to it, and how it may be answered.
pub trait Gate {
    ghost asks: { Self → Run → Self → Bool → Type 0 };

    /// Whether the worker of this run may be made. A refusal counts as a thread that could not be made.
    fn allow(&mut self, run: Run) -> bool
        ensures { asks self.old run self.new result };
}

/// Allows every worker.
#[derive(Drop)]
pub struct Everyone;

impl Gate for Everyone {
    ghost asks = { λ _ _ _ answer. answer ≡ true };

    fn allow(&mut self, _run: Run) -> bool {
        true
    }
}
