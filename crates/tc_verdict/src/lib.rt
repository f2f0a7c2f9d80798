//! Test verdicts, and the small values that every crate of the executor shares.
#![tactic(auto)]

mod memory;
mod run;
mod user_verdict;
mod verdict;
mod words;

pub use memory::NoMemory;
pub use run::Run;
pub use user_verdict::{UserVerdict, from_user, of_rank, rank, to_user};
pub use verdict::{Verdict, name, overwrite, read_name, worse_of, worst};
pub use words::EARLY_END;
