//! The model of a test case: the script of which its history or evidence is a complete course.
#![tactic(auto)]

mod certified;
mod following;
mod given;
mod models;
mod naming;
mod reason;
mod writing;

pub use models::{Attempt, Models, models_of, notes_of};
pub use reason::{Reason, Refusal};
