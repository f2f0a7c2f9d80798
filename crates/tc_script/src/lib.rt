//! Scripts, read and run: a script makes the calls of its steps on the pass of its run.
#![tactic(auto)]

mod behaviour;
mod call;
mod job;
pub mod laws;

pub use behaviour::Behaviour;
pub use job::ScriptJob;
pub use tc_exec::{Back, Ending};
pub use tc_reader::{
    Campaign, CaseScript, Name, ReadFault, ScriptFault, ScriptKind, read_campaign,
};
pub use tc_step::Script;
