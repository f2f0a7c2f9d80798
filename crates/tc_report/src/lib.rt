//! The results of a campaign, what they and histories say of test cases, and the texts of both.
#![tactic(auto)]

mod blocks;
mod cause;
mod fault;
mod junit;
pub mod laws;
mod live;
mod meaning;
mod naming;
mod observer;
mod output;
mod progress;
mod records;
mod report;
mod results;
mod said;
mod status;
mod stopwatch;
mod summary;
mod summary_text;
mod waits;

pub use blocks::{append_named_block, first_names, write_evidence, write_history};
pub use cause::{Cause, append_decision, cause_of};
pub use fault::OutFault;
pub use junit::{junit_report, write_junit};
pub use live::{LiveForm, LiveWriter};
pub use naming::{
    Names, Naming, append_component, append_component_in, append_named_call, append_run_in,
    names_in, namings_of, no_names,
};
pub use observer::Observer;
pub use progress::{Progress, Shown};
pub use records::{csv_report, write_csv};
pub use report::{
    append_aborted, append_closing, append_replayed, append_verdict, tally, write_abort, write_text,
};
pub use results::{CampaignEnd, CaseEnd, Finished, Kept, Results, Tally};
pub use said::{Remark, Said};
pub use status::{is_met, status_of, verdict_status, worst_status};
pub use stopwatch::{Stopwatch, Timed, Times};
pub use summary::{Summary, bare_summary, summaries_of_results, summary_of_case, summary_of_state};
pub use summary_text::summary_report;
pub use waits::append_waits;
