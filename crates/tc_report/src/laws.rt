//! Laws of reports: the function changes nothing, and its contract is the law.
ghost use Rattle.tc_report.specs.Summary as laws;

/// The summaries of the evidence of results are those of the results, and those of their histories without the names of
/// behaviours.
#[tactic(auto, using(crate::proofs::Lemmas::Telling::summaries_of_blocks))]
pub fn summaries_of_blocks()
    ensures { laws.SummariesOfBlocks }
{}
