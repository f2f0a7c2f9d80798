//! The verdict board: a word for each behaviour, changed in single atomic steps by any thread.
#![tactic(auto)]

mod answer;
mod board;
mod hand;
mod keeper;
pub mod laws;
mod record;
mod rule;
mod steps;

pub use answer::{Answer, AnswerList};
pub use board::Board;
pub use hand::{Hand, Said};
pub use keeper::Keeper;
pub use record::Record;
