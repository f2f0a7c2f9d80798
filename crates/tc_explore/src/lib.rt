//! The overall verdicts that the schedules of a scripted test case can give.
#![tactic(auto)]

mod aims;
mod calls;
mod calm;
mod explored;
mod findings;
mod limits;
mod marks;
mod search;
mod search_locals;
mod state_keys;
mod straight;

pub use explored::{explore, explore_locals};
pub use tc_course::{Ending, Explored, Limit, Locals, Witness, is_found, level};
