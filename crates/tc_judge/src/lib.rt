//! Histories and evidence, each block judged once: what `check`, `report` and `--failed` make of them.
#![tactic(auto)]

mod check;
mod compare;
mod judged;
mod kept;
mod lines;
mod passed;
mod playing;
mod report;

pub use check::{check_input, check_text};
pub use compare::{compare_text, report_compared};
pub use judged::{Named, counted, limit_of};
pub use lines::{is_picked, patterns_match};
pub use passed::cases_to_run;
pub use playing::play_short;
pub use report::{is_of_judged, report_input, report_text};
