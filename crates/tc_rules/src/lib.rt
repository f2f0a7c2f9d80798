//! The component table of one test case: the reply to each call, the history of all calls, and what its close reports.
#![tactic(auto)]

mod awaited;
mod check;
mod closed;
mod component_state;
mod component_states;
mod deciding;
mod entries;
pub mod laws;
mod locals;
mod refusal;
mod run_log;
mod run_state;
mod state;
mod step;
mod table;

pub use awaited::Awaited;
pub use check::{CheckFault, replay, replay_check};
pub use closed::{CloseFault, Closed};
pub use deciding::{component_of, deciding_entry, name_of};
pub use entries::{created, ends_case, ends_pass, is_halting, keeps_phases, started_on};
pub use locals::locals_of;
pub use refusal::CaseError;
pub use run_log::RunLog;
pub use state::CaseState;
pub use table::{Table, copied_entries};
pub use tc_entry::{
    Args, Comp, Entry, Fault, Group, Name, NoMemory, Op, Phase, Reply, Run, Target, UserVerdict,
    Verdict,
};
