//! What the program `ttrun` does with its arguments, its input and its output; the program itself is little more than
//! this library's `answer`.
#![tactic(auto)]

mod answering;
mod carrying_out;
mod checking;
mod explained;
mod explore;
pub mod laws;
mod limits;
mod listing;
mod made;
mod model;
mod own_cases;
mod replaying;
mod serve;
mod terminal;
mod unknown;

pub use answering::{Arguments, answer, answer_alone};
pub use carrying_out::carry_out;
pub use checking::check;
pub use own_cases::answer_cases;
pub use replaying::replay;
pub use tc_answer::{
    Answer, HISTORY_LIMIT, Outcome, RunFault, SCRIPT_LIMIT, fault_line, stop_word, take_script,
};
pub use tc_command::Form;
pub use tc_run::{abort_line, give, run_cases};
pub use terminal::{Announcing, awaited_line};
