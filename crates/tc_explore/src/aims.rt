//! The searches for the verdicts of a test case, each up to a better verdict than the last.
ghost use Rattle.std.specs.Prelude.{◌≡◌, ◌≤◌, false, IfOk, length};
ghost use Rattle.tc_entry.specs.declared.limits.TheConstants.{BEHAVIOURS};
ghost use Rattle.tc_explore.specs.Inside.Seen.{IsNoted, IsSearched};
ghost use Rattle.tc_explore.specs.Inside.Seen as seen;

use crate::findings::Findings;
use crate::search::{Searched, search_all};
use crate::straight::note_straight;
use std::alloc::Global;
use tc_course::{Witness, is_found, level};
use tc_step::Script;
use tc_verdict::{NoMemory, Verdict};

// Whether a verdict is no worse than another, and found.
fn is_found_within(found: &[Witness], aim: Verdict, verdict: Verdict) -> bool
    ensures { result ≡ seen.is_found_within found.now aim verdict }
{
    level(verdict) <= level(aim) && is_found(found, verdict)
}

// The verdict next better than the worst that is found and no worse than this one, if there is one.
fn next_aim(found: &[Witness], aim: Verdict) -> Option<Verdict>
    ensures { result ≡ seen.next_aim found.now aim }
{
    if is_found_within(found, aim, Verdict::Error) {
        return Some(Verdict::Fail);
    }
    if is_found_within(found, aim, Verdict::Fail) {
        return Some(Verdict::Inconc);
    }
    if is_found_within(found, aim, Verdict::Inconc) {
        return Some(Verdict::Pass);
    }
    if is_found_within(found, aim, Verdict::Pass) {
        return Some(Verdict::None);
    }
    None
}

/// Looks for all verdicts, then for those up to the one that is next better than the worst that was found, and so on. Each
/// search keeps that many states at most, and the most that one kept are returned. If the last one comes to its end, the
/// verdict of each complete course is found. At the limit some schedules are played to their ends.
#[tactic(auto, using(crate::proofs::NextAim::above_error, crate::proofs::Kept::met_none))]
pub(crate) fn search_verdicts(
    alloc: Global,
    scripts: &[Script],
    limit: usize,
    found: Findings,
) -> Result<Searched, NoMemory>
    requires some { 1 ≤ length scripts.now }
    requires few { length scripts.now ≤ BEHAVIOURS }
    requires found { IsNoted scripts.now found }
    ensures searched { IfOk result (IsSearched scripts.now limit) }
    ensures told { IfOk result (λ s. s.is_whole ≡ false → 1 ≤ length s.found.witnesses.items) }
{
    let mut aim = Verdict::Error;
    let mut found = found;
    let mut states = 0;
    loop {
        let searched = search_all(aim, alloc, scripts, limit, found)?;
        found = searched.found;
        states = states.max(searched.states);
        if !searched.is_whole {
            note_straight(alloc, scripts, &mut found)?;
            return Ok(Searched {
                found,
                states,
                is_whole: false,
            });
        }
        match next_aim(&found.witnesses, aim) {
            None => {
                return Ok(Searched {
                    found,
                    states,
                    is_whole: true,
                });
            }
            Some(better) => aim = better,
        }
    }
}
