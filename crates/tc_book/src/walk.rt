//! The walk over a merged history.
ghost use Rattle.std.specs.Prelude.{◌≡◌, ◌↔◌, [], All, IfOk, IsTrue, IsFalse, length, reverse};
ghost use Rattle.tc_rules.specs.Prelude.{StandsFor, TakesIn};
ghost use Rattle.tc_book.specs.Inside.{IsNotNext, IsTaken, IsWalk, SaysWhether};

use tc_entry::Entry;
use tc_rules::CaseState;
use tc_verdict::NoMemory;

/// Whether the entry is the first of what is left of its caller's part; then it is taken off. A caller without a part is passed
/// over.
fn take_next(rests: &mut Vec<&[Entry]>, entry: &Entry) -> bool
    ensures len { length rests.new.items ≡ length rests.old.items }
    ensures taken { IsTrue result → IsTaken rests.old.items rests.new.items entry.now }
    ensures other { IsFalse result → IsNotNext rests.old.items entry.now }
{
    let caller = usize::from(entry.caller.0);
    if caller >= rests.len() {
        return true;
    }
    let Some((first, rest)) = rests[caller].split_first() else {
        return false;
    };
    rests[caller] = rest;
    first.same(entry)
}

/// Takes an entry in, if its caller was started before and its reply is the table's.
fn plays(state: &mut CaseState, entry: &Entry) -> Result<bool, NoMemory>
    ensures behaviours { state.new.behaviours ≡ state.old.behaviours }
    ensures stands { IfOk result (λ yes. IsTrue yes → TakesIn state.old entry.now state.new) }
    ensures yes { IfOk result (SaysWhether state.old entry.now) }
{
    if state.comp_of(entry.caller).is_none() {
        return Ok(false);
    }
    Ok(state.play_entry(entry)?.is_none())
}

fn are_empty(rests: &[&[Entry]]) -> bool
    ensures { IsTrue result ↔ All (λ r. r.now ≡ []) rests.now }
{
    rests.iter().all(|rest| rest.is_empty())
}

/// Plays a history on a new table. Says whether each reply is the table's, each caller was started before its entry, and
/// the entries of each run are what there is of it.
pub(crate) fn walk(
    state: &mut CaseState,
    rests: &mut Vec<&[Entry]>,
    history: &[Entry],
) -> Result<bool, NoMemory>
    requires { StandsFor state.old [] }
    ensures behaviours { state.new.behaviours ≡ state.old.behaviours }
    ensures stands { IfOk result (λ yes. IsTrue yes → StandsFor state.new (reverse history.now)) }
    ensures yes { IfOk result (λ yes. IsTrue yes ↔ IsWalk state.old.behaviours rests.old.items history.now) }
{
    for entry in history {
        let is_played = plays(state, entry)?;
        if !is_played {
            return Ok(false);
        }
        if !take_next(rests, entry) {
            return Ok(false);
        }
    }
    Ok(are_empty(rests))
}
