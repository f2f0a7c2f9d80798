//! Runs the test cases of a campaign, and writes and prints what comes of them.
#![tactic(auto)]

mod aborts;
mod jobs;
mod output;
mod run;

pub use aborts::abort_line;
pub use jobs::with_jobs;
pub use output::{fault_of, give};
pub use run::run_cases;
pub use tc_script::laws;
