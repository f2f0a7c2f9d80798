//! How far a search goes.
ghost use Rattle.std.specs.Prelude.{◌≡◌, true, false, IfSome};
ghost use Rattle.tc_course.specs.declared.found.Ending.TheVariants.{Complete, Undecided};
ghost use Rattle.tc_course.specs.declared.found.Limit.{Limit as MetLimit};
ghost use Rattle.tc_explore.specs.Limits.{limit_met, most_kept, most_states, room_of};

use tc_course::{Ending, Limit};
use tc_step::Script;

// One more than the steps of the scripts together, if a number can hold it.
#[tactic(auto, using(crate::proofs::Room::room_more))]
fn room_for(scripts: &[Script]) -> Option<usize>
    ensures { IfSome result (λ n. n ≡ room_of scripts.now) }
{
    let mut entries: usize = 1;
    for script in scripts {
        entries = entries.checked_add(script.steps().len())?;
    }
    Some(entries)
}

// The bytes in which all states are kept.
const MEMORY: usize = 536_870_912;

// How many states have room in memory, if numbers can hold what one keeps.
fn most_in_memory(scripts: &[Script]) -> Option<usize>
    ensures { IfSome result (λ n. n ≡ most_kept scripts.now) }
{
    let of_runs = scripts.len().checked_mul(66)?.checked_add(256)?;
    let bytes = room_for(scripts)?.checked_mul(26)?.checked_add(of_runs)?;
    Some(MEMORY / bytes)
}

/// How many states a search looks at, at most, and which limit it meets then.
#[derive(Clone, Copy)]
pub(crate) struct Most {
    pub(crate) states: usize,
    pub(crate) limit: Limit,
}

/// The most that a search with this limit on its states looks at, if numbers can hold what they have room for.
pub(crate) fn most_of(scripts: &[Script], limit: usize) -> Option<Most>
    ensures states { IfSome result (λ m. m.states ≡ most_states scripts.now limit) }
    ensures limit { IfSome result (λ m. m.limit ≡ limit_met scripts.now limit) }
{
    let kept = most_in_memory(scripts)?;
    let (states, limit) = if kept < limit {
        (kept, Limit::Memory)
    } else {
        (limit, Limit::States)
    };
    Some(Most { states, limit })
}

/// How a search ended that came to its end, or otherwise met this limit.
pub(crate) fn ending_of(is_whole: bool, limit: Limit) -> Ending
    ensures whole { result ≡ Complete → is_whole ≡ true }
    ensures part { (l : MetLimit) → result ≡ Undecided l → (is_whole ≡ false) × (l ≡ limit) }
{
    if is_whole {
        Ending::Complete
    } else {
        Ending::Undecided(limit)
    }
}
