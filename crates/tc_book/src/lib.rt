//! The book of a test case under its lock: passes, their logs, and the close that compares them.
#![tactic(auto)]

mod book;
mod by_run;
mod case;
mod close;
mod conditions;
mod counting;
mod halt;
mod heads;
pub mod laws;
mod left;
mod logged_book;
mod merging;
mod parts;
mod pass;
mod places;
mod report;
mod run_hand;
mod shared;
mod starts;
mod ticket;
mod told;
mod until;
mod walk;
mod words;

pub use case::{close_case, open_case};
pub use counting::counts;
pub use halt::Halt;
pub use left::Left;
pub use pass::Pass;
pub use shared::{Look, Shared};
pub use tc_entry::Sequence;
pub use tc_rules::{CloseFault, Closed, RunLog, ends_pass, locals_of};
pub use ticket::Ticket;
