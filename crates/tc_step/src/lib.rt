//! The steps of a scripted behaviour, and the components that they name.
#![tactic(auto)]

mod limits;
mod operation;
mod place;
mod script;
mod step;

pub use limits::STEPS;
pub use operation::{arguments, component, group, target};
pub use place::{GroupPlace, Place, Places, TargetPlace};
pub use script::Script;
pub use step::{Status, Step};
pub use tc_entry::Name;
pub use tc_verdict::{Run, UserVerdict};
