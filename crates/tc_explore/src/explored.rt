//! The searches for the overall verdicts of a test case, and for the local verdicts of its components.
ghost use Rattle.std.specs.Prelude.{◌≡◌, ◌≤◌, [], IfOk, length};
ghost use Rattle.tc_entry.specs.declared.limits.TheConstants.{BEHAVIOURS};
ghost use Rattle.tc_course.specs.Prelude.{AllFound, AreLegal, AreWitnesses};
ghost use Rattle.tc_course.specs.declared.found.Ending.TheVariants.{Complete, Undecided};
ghost use Rattle.tc_course.specs.declared.found.Limit.{Limit as MetLimit};
ghost use Rattle.tc_course.specs.declared.found.Limit.TheVariants.{States as OfStates};
ghost use Rattle.tc_explore.specs.{Found.AllLocalsFound, Found.AreAllMet, Found.AreCovered, Found.AreFromBest, Found.AreLocals, Found.AreReached, Found.HasCourses, Limits.IsAtLimit};
ghost use Rattle.tc_explore.specs.Limits as limits;

use crate::aims::search_verdicts;
use crate::findings::{no_findings, order};
use crate::limits::{ending_of, most_of};
use crate::search_locals::search_locals;
use std::alloc::Global;
use tc_course::{Ending, Explored, Limit, Locals};
use tc_entry::Sequence;
use tc_step::Script;
use tc_verdict::NoMemory;

/// Looks for the overall verdicts that the courses of a test case give, each with a complete course that gives it. The
/// search looks at that many states at most, or at as many as have room in memory. It comes to its end unless it meets a
/// limit, and then the verdict of each complete course is found. At a limit one verdict at least is found. Each number of
/// calls that is reached has a course too. A test case without behaviours is left undecided.
#[tactic(auto, using(crate::proofs::Noting::witnesses_legal, crate::proofs::Noting::noting_rules))]
pub fn explore(alloc: Global, scripts: &[Script], limit: usize) -> Result<Explored, NoMemory>
    requires few { length scripts.now ≤ BEHAVIOURS }
    ensures sound { IfOk result (λ e. AreWitnesses scripts.now e.found) }
    ensures legal { IfOk result (λ e. AreLegal scripts.now e.found) }
    ensures ordered { IfOk result (λ e. AreFromBest e.found) }
    ensures reached { IfOk result (λ e. AreReached scripts.now e.reached) }
    ensures covered { IfOk result (λ e. AreCovered e.reached e.found) }
    ensures met { IfOk result (λ e. AreAllMet scripts.now e.reached e.states) }
    ensures complete { IfOk result (λ e. e.ending ≡ Complete → AllFound scripts.now e.found) }
    ensures within { IfOk result (λ e. e.states ≤ limit) }
    ensures most { IfOk result (λ e. e.states ≤ limits.most_states scripts.now limit) }
    ensures undecided { IfOk result (λ e. (l : MetLimit) → e.ending ≡ Undecided l → 1 ≤ length scripts.now → IsAtLimit scripts.now limit e.states l) }
    ensures told { IfOk result (λ e. (l : MetLimit) → e.ending ≡ Undecided l → 1 ≤ length scripts.now → 1 ≤ length e.found) }
    ensures nothing { IfOk result (λ e. scripts.now ≡ [] → (e.ending ≡ Undecided OfStates) × (e.found ≡ []) × (e.states ≡ 0)) }
{
    let found = no_findings(alloc, scripts)?;
    if scripts.is_empty() {
        return Ok(Explored {
            found: Sequence::new(found.witnesses),
            reached: Sequence::new(found.reached),
            states: 0,
            ending: Ending::Undecided(Limit::States),
        });
    }
    let most = most_of(scripts, limit).ok_or(NoMemory)?;
    let mut searched = search_verdicts(alloc, scripts, most.states, found)?;
    order(&mut searched.found.witnesses);
    Ok(Explored {
        found: Sequence::new(searched.found.witnesses),
        reached: Sequence::new(searched.found.reached),
        states: searched.states,
        ending: ending_of(searched.is_whole, most.limit),
    })
}

/// Looks for the local verdicts that the components of a test case have at the end of its complete courses. The states of
/// two courses are the same only if the local verdicts are. So it looks at more of them than `explore`, which it bounds
/// alike. A test case without behaviours is left undecided.
#[tactic(auto, using(crate::proofs::Marking::none_sound, crate::proofs::LocalsClosed::courses_none))]
pub fn explore_locals(alloc: Global, scripts: &[Script], limit: usize) -> Result<Locals, NoMemory>
    requires few { length scripts.now ≤ BEHAVIOURS }
    ensures sound { IfOk result (λ l. AreLocals scripts.now l.found) }
    ensures complete { IfOk result (λ l. l.ending ≡ Complete → AllLocalsFound scripts.now l.found) }
    ensures met { IfOk result (λ l. HasCourses scripts.now l.states) }
    ensures most { IfOk result (λ l. l.states ≤ limits.most_states scripts.now limit) }
    ensures undecided { IfOk result (λ l. (m : MetLimit) → l.ending ≡ Undecided m → 1 ≤ length scripts.now → IsAtLimit scripts.now limit l.states m) }
{
    if scripts.is_empty() {
        return Ok(Locals {
            found: Sequence::new(Vec::new(alloc)),
            names: Sequence::new(Vec::new(alloc)),
            states: 0,
            ending: Ending::Undecided(Limit::States),
        });
    }
    let most = most_of(scripts, limit).ok_or(NoMemory)?;
    search_locals(alloc, scripts, most)
}
