//! The entries of a test case's history: the caller, the operation, and the reply.
#![tactic(auto)]

mod args;
mod comp;
mod entry;
mod limits;
mod name;
mod op;
mod pattern;
mod phase;
mod reply;
mod sequence;
mod shard;

pub use args::Args;
pub use comp::Comp;
pub use entry::Entry;
pub use limits::{ARGUMENTS, BEHAVIOURS, COMPONENTS, NAME_BYTES, is_behaviours, may_create};
pub use name::Name;
pub use op::{Group, Op, Target};
pub use pattern::Pattern;
pub use phase::Phase;
pub use reply::{Fault, Reply, name_of_fault};
pub use sequence::Sequence;
pub use shard::Shard;
pub use tc_verdict::{NoMemory, Run, UserVerdict, Verdict};
