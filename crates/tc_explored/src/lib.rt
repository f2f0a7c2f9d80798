//! What is printed of a test case whose schedules were searched: its line, the details, local verdicts, the witnesses.
#![tactic(auto)]

mod details;
mod line;
mod parting;
mod race;
mod unseen;

pub use details::append_details;
pub use line::{append_line, append_locals, append_witnesses, explored_status};
