//! What a host calls: the component table of a test case, and the program where no thread can be started.
#![tactic(auto)]

pub mod answer;
pub mod table;
