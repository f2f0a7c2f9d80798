//! Test cases whose lines come one by one, each answered at once: the component table as a judge at the end of a pipe.
#![tactic(auto)]

pub mod laws;
mod open_case;
mod order;
mod server;
mod service;
mod serving;

pub use order::Refusal;
pub use service::{Ending, ServeFault, Served, serve};
pub use serving::append_refusal;
