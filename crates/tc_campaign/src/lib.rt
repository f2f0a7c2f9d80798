//! Runs a list of test cases with one stopping rule, and offers the texts of its results.
#![tactic(auto)]

mod campaign;

pub use campaign::{run_campaign, run_campaign_with, without_room};
pub use tc_entry::Shard;
pub use tc_exec::Case;
pub use tc_report::{
    CampaignEnd, Finished, Kept, LiveForm, LiveWriter, Observer, OutFault, Progress, Results,
    Tally, status_of, tally, write_abort, write_csv, write_evidence, write_history, write_text,
};
