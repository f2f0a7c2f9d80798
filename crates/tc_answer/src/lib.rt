//! What the tasks of the program `ttrun` have in common: faults and their lines, answers and statuses, the chosen test
//! cases of a script, and the page that shows histories in a browser.
#![tactic(auto)]

mod choosing;
mod fault;
mod head;
mod input;
pub mod laws;
mod limits;
mod outcome;
mod page;
mod reply;
mod stderr;
mod tail;

pub use choosing::{choose, choose_cases, chosen_cases, have_all, is_asked};
pub use fault::{RunFault, append_place, fault_line, line_with, of_input, stop_word};
pub use input::{read_script, read_text, split_script, take_script};
pub use limits::{HISTORY_LIMIT, SCRIPT_LIMIT};
pub use outcome::{Outcome, REFUSED};
pub use page::html_page;
pub use reply::Answer;
pub use stderr::{give_answer, refuse, refuse_with, refuse_words, tell};
