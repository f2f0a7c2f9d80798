//! What the arguments of the program ask for.
#![tactic(auto)]

mod cases;
mod command;
mod read;
mod refusal;
mod stray;
mod task;
mod word;

pub use cases::read_cases_task;
pub use command::VERSION;
pub use read::{Refused, read_task};
pub use task::{Choice, ExploreOptions, Form, ReportForm, RunOptions, Task};
pub use tc_entry::Shard;
pub use word::WordFault;
