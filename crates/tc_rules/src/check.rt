//! Whether a list of entries is one that the table makes.
ghost use Rattle.std.specs.Prelude.{◌≡◌, ◌≤◌, IfOk, IfErr, reverse};
ghost use Rattle.tc_entry.specs.declared.limits.TheConstants.{BEHAVIOURS};
ghost use Rattle.tc_rules.specs.{Legal.IsFaultOf, Legal.IsLegal, Standing.StandsFor};
ghost use Rattle.tc_rules.specs.Local as verdicts;

use crate::state::CaseState;
use std::alloc::Global;
use tc_entry::{Entry, Reply};
use tc_verdict::{NoMemory, Verdict};
use thiserror::Error;

/// Why a list was not found legal.
#[derive(Clone, Copy, PartialEq, Eq, Debug, Error)]
pub enum CheckFault {
    /// The entry at this place, counted from 0, has another reply than the table's, which is given.
    #[error("the entry at {at} has another reply than the table's")]
    Differs { at: usize, reply: Reply },
    /// Memory ran out.
    #[error("{}", NoMemory)]
    NoMemory,
}

impl From<NoMemory> for CheckFault {
    ghost use Rattle.std.specs.Prelude.{◌≡◌};
    ghost use Rattle.tc_rules.specs.declared.check.CheckFault.TheVariants as faults;

    ghost from_gives = { λ _ f. f ≡ faults.NoMemory };

    fn from(_: NoMemory) -> Self {
        CheckFault::NoMemory
    }
}

/// The state after a list in which each reply is the table's; otherwise the first place if it is not.
pub fn replay(alloc: Global, behaviours: u16, list: &[Entry]) -> Result<CaseState, CheckFault>
    requires some { 1 ≤ behaviours }
    requires few { behaviours ≤ BEHAVIOURS }
    ensures behaviours { IfOk result (λ s. s.behaviours ≡ behaviours) }
    ensures stands { IfOk result (λ s. StandsFor s (reverse list.now)) }
    ensures legal { IfOk result (λ _. IsLegal behaviours (reverse list.now)) }
    ensures fault { IfErr result (λ f. IsFaultOf behaviours list.now f) }
{
    let mut state = CaseState::new(alloc, behaviours)?;
    for (at, entry) in list.iter().enumerate() {
        if let Some(reply) = state.play_entry(entry)? {
            return Err(CheckFault::Differs { at, reply });
        }
    }
    Ok(state)
}

/// The verdict of a list in which each reply is the table's; otherwise the first place if it is not.
pub fn replay_check(alloc: Global, behaviours: u16, list: &[Entry]) -> Result<Verdict, CheckFault>
    requires some { 1 ≤ behaviours }
    requires few { behaviours ≤ BEHAVIOURS }
    ensures legal { IfOk result (λ v. IsLegal behaviours (reverse list.now) × (v ≡ verdicts.overall (reverse list.now))) }
    ensures fault { IfErr result (λ f. IsFaultOf behaviours list.now f) }
{
    Ok(replay(alloc, behaviours, list)?.overall())
}
