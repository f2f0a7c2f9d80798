//! The courses of a test case whose behaviours are scripts: which calls its runs make, and with which replies.
#![tactic(auto)]

mod course;
mod entries;
mod following;
mod found;
mod next;
mod standing;
mod witness;

pub use course::{Course, steps_of};
pub use entries::has_gone_on;
pub use following::is_course;
pub use found::{Ending, Explored, Limit, Locals, is_found, level};
pub use next::next_call;
pub use standing::Standing;
pub use witness::Witness;
