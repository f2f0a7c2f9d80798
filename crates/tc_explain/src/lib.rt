//! What is printed about a refused text besides its fault: the line, the word and its column, and what would be
//! understood.
#![tactic(auto)]

mod help;
mod hints;
mod naming;
mod quote;
mod scan;
mod slot;
mod sort;
mod source;
mod telling;

pub use sort::Refusal;
pub use telling::{append_unknown, explain};

// What a function returns that may run out of memory.
type Result<T> = std::result::Result<T, tc_verdict::NoMemory>;
