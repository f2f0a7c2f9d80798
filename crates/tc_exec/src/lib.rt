//! Runs the behaviours of a test case, each on a thread of its own.
#![tactic(auto)]

mod callable;
mod case;
mod gate;
mod gathered;
mod handed;
mod job;
mod test_case;
mod worker;

pub use callable::Callable;
pub use case::{run_case, run_case_with};
pub use gate::{Everyone, Gate};
pub use job::{Back, Ending, Job};
pub use tc_rules::{CaseError, Closed as CaseReport};
pub use test_case::Case;
pub use worker::WORKER_STACK;
