//! Whether a text is a script of the models of blocks.
ghost use Rattle.std.specs.Prelude.{◌≡◌, Ok, true, IfOk, map};
ghost use Rattle.std.specs.List.{AllZip};
ghost use Rattle.tc_blocks.specs.Prelude.{entries_of};
ghost use Rattle.tc_course.specs.Prelude.{IsShown};
ghost use Rattle.tc_reader.specs.Prelude.{CampaignView, campaign};
ghost use Rattle.tc_model.specs.{Inside.TakesModel, Models.IsModel, Models.written};

use crate::models::Attempt;
use std::alloc::Global;
use tc_blocks::Block;
use tc_course::is_course;
use tc_entry::{BEHAVIOURS, NoMemory};
use tc_reader::{Campaign, CaseScript, ReadFault, Script, read_campaign};

// The scripts of a test case.
fn scripts_of(alloc: Global, case: CaseScript) -> Result<Vec<Script>, NoMemory>
    ensures { IfOk result (λ v. v.items ≡ map (λ s. s.1) case) }
{
    let mut case = case;
    let mut scripts = Vec::new(alloc);
    while let Some((_, script)) = case.take_first() {
        scripts.push(script)?;
    }
    Ok(scripts)
}

// Whether the test case is a model of the block.
fn is_model(alloc: Global, block: &Block, case: CaseScript) -> Result<bool, NoMemory>
    ensures { IfOk result (λ is. is ≡ true
        → IsShown (map (λ s. s.1) case) block.now.header.behaviours (entries_of block.now.lines) block.now.verdict) }
{
    let scripts = scripts_of(alloc, case)?;
    if scripts.len() > BEHAVIOURS {
        return Ok(false);
    }
    let history = block.history(alloc)?;
    is_course(
        alloc,
        scripts.as_slice(),
        history.behaviours,
        history.entries.as_slice(),
        history.verdict,
    )
}

// Takes the first test case out, if the block is not refused. Whether it is the block's model then.
#[tactic(auto, using(crate::proofs::Taking::taking_rules))]
fn take_model(alloc: Global, attempt: &Attempt, campaign: &mut Campaign) -> Result<bool, NoMemory>
    ensures { IfOk result (λ is. is ≡ true → TakesModel attempt.now campaign.old campaign.new) }
{
    if attempt.refusal.is_some() {
        return Ok(true);
    }
    match campaign.take_first() {
        Some((_, case)) => is_model(alloc, &attempt.block, case),
        None => Ok(false),
    }
}

// Whether the campaign has a model of each block that is not refused, in their order, and nothing else.
fn are_models(alloc: Global, attempts: &[Attempt], campaign: Campaign) -> Result<bool, NoMemory>
    ensures { IfOk result (λ are. are ≡ true → AllZip IsModel (written attempts.now) campaign) }
{
    let mut campaign = campaign;
    for attempt in attempts {
        if !take_model(alloc, attempt, &mut campaign)? {
            return Ok(false);
        }
    }
    Ok(campaign.take_first().is_none())
}

/// Whether the text is a script with a model of each block that is not refused, in their order, and with nothing else.
pub(crate) fn are_spelled(
    alloc: Global,
    attempts: &[Attempt],
    text: &[u8],
) -> Result<bool, NoMemory>
    ensures { IfOk result (λ are. are ≡ true
        → (cases : CampaignView) × (campaign text.now ≡ Ok cases) × AllZip IsModel (written attempts.now) cases) }
{
    match read_campaign(alloc, text) {
        Ok(campaign) => are_models(alloc, attempts, campaign),
        Err(ReadFault::NoMemory) => Err(NoMemory),
        Err(ReadFault::Script(_)) => Ok(false),
    }
}
