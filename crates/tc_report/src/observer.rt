//! The observer, which is given each finished test case.
ghost use Rattle.std.specs.Prelude.{Bool};
ghost use Rattle.tc_report.specs.declared.results.Finished.{Finished};

use crate::results::Finished;

/// Is given each finished test case of a campaign, before the next one begins. Contracts see what a test case does to it,
/// and how it may be answered.
pub trait Observer {
    ghost takes: { Self → Finished → Self → Bool → Type 0 };

    /// Takes the test case, and says whether the campaign can continue.
    fn take(&mut self, case: Finished) -> bool
        ensures { takes self.old case self.new result };
}
