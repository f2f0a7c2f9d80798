//! The search for verdicts up to one. It follows the calls of all runs, makes those at once of which nobody can see that
//! they were made, and goes no further where the verdict is worse. If it comes to its end nothing up to that is missed.
ghost use Rattle.std.specs.Prelude.{◌≡◌, ◌≤◌, ◌<◌, true, false, IfOk, OnOk, length, slice_index_or};
ghost use Rattle.tc_entry.specs.declared.limits.TheConstants.{BEHAVIOURS};
ghost use Rattle.tc_rules.specs.Prelude.{past_of};
ghost use Rattle.tc_course.specs.Prelude.{IsOn, carried_on};
ghost use Rattle.tc_verdict.specs.declared.verdict.Verdict.TheVariants.{Error};
ghost use Rattle.tc_explore.specs.{Found.AreAllMet, Inside.{Seen.{AllTold, AreHeld, IsClosedFrom, IsFurther, IsLonger, IsNoLess, IsNoted, IsOpen, IsPlaced, IsRunClosed, IsSearch, IsSeen, IsState, IsStillAt}, Simulation.{IsCovered, IsWithin}}};
ghost use Rattle.tc_explore.specs.Inside.Simulation as moves;

use crate::calls::Kept;
use crate::calm::calmed;
use crate::findings::{Findings, note, reach, with_stuck};
use crate::state_keys::state_key;
use crate::straight::call_on;
use indexmap::IndexSet;
use std::alloc::Global;
use tc_course::{Course, is_found, level};
use tc_step::Script;
use tc_verdict::{NoMemory, Run, Verdict};

/// The states of scripts that were met, by a course each, at most that many; the key of each; and whether none was left out.
#[derive(Drop)]
pub(crate) struct Met<'a> {
    pub(crate) alloc: Global,
    pub(crate) scripts: &'a [Script],
    pub(crate) states: Vec<Kept<'a>>,
    pub(crate) keys: IndexSet<Vec<u64>>,
    pub(crate) limit: usize,
    pub(crate) is_whole: bool,
}

impl<'a> Met<'a> {
    /// Takes in the state of a course, unless one of its key is met, or as many as the limit are. Local verdicts and waits
    /// count in keys, or not.
    pub(crate) fn place(&mut self, course: &Course, all: bool) -> Result<(), NoMemory>
        requires some { 1 ≤ length self.old.scripts.now }
        requires few { length self.old.scripts.now ≤ BEHAVIOURS }
        requires on { IsOn self.old.scripts.now course.now }
        ensures { OnOk result (IsPlaced all course.now self.old self.new) }
    {
        let mut key = state_key(course, self.alloc, self.scripts.len() as u16, all)?;
        if self.keys.contains(&key) {
            return Ok(());
        }
        if self.states.len() >= self.limit {
            self.is_whole = false;
            return Ok(());
        }
        key.shrink_to_fit();
        self.keys.insert(key)?;
        let kept = Kept::of(self.alloc, self.scripts, course)?;
        self.states.push(kept)?;
        Ok(())
    }
}

/// A search for verdicts up to one: the states that it has met, and what it has found.
#[derive(Drop)]
pub(crate) struct Search<'a> {
    pub(crate) aim: Verdict,
    pub(crate) met: Met<'a>,
    pub(crate) found: Findings,
}

impl<'a> Search<'a> {
    // Takes in what represents a course: that with the calls of which nobody can see that they were made.
    fn keep(&mut self, course: Course) -> Result<(), NoMemory>
        requires search { IsSearch self.old }
        requires opened { IsOpen self.old.met.scripts.now course }
        requires within { IsWithin self.old.aim (past_of course) }
        ensures further { OnOk result (IsFurther self.old self.new) }
        ensures seen { OnOk result (IsCovered self.old.aim self.old.met.scripts.now (IsSeen self.new.met) (past_of course)) }
    {
        let calm = calmed(self.aim, course, self.met.scripts)?;
        reach(&mut self.found.reached, self.met.scripts, &calm);
        self.met.place(&calm, false)
    }

    // Makes the next call of a run, unless that does not continue, and takes in what it leads to, or notes its verdict,
    // unless that is worse than is looked for. It returns whether the call continues and is no error.
    #[tactic(auto, using(crate::proofs::Closed::closed_rules, crate::proofs::Closed::run_rules, crate::proofs::Seeing::seeing_rules, crate::proofs::Keeping::keeping_rules, crate::proofs::Keeping::open_next))]
    fn try_run(&mut self, course: &Course, run: Run) -> Result<bool, NoMemory>
        requires within { run.0 < length self.old.met.scripts.now }
        requires search { IsSearch self.old }
        requires state { IsState self.old.aim self.old.met.scripts.now course.now }
        ensures further { OnOk result (IsFurther self.old self.new) }
        ensures closed { OnOk result (IsRunClosed self.new (past_of course.now) run.0) }
        ensures goes_on { IfOk result (λ on. on ≡ true → moves.GoesOn self.old.met.scripts.now (past_of course.now)) }
        ensures still { IfOk result (λ on. on ≡ false → IsStillAt self.old.met.scripts.now (past_of course.now) run.0) }
    {
        let Some(op) = call_on(course, self.met.scripts, run) else {
            return Ok(false);
        };
        let goes_on = !course.would(run, &op).is_fault();
        let next = course.copied(self.met.alloc)?.with(run, op)?;
        if next.is_over() {
            note(self.met.alloc, self.met.scripts, next, &mut self.found)?;
            return Ok(goes_on);
        }
        if level(next.verdict()) > level(self.aim) {
            return Ok(goes_on);
        }
        self.keep(next)?;
        Ok(goes_on)
    }

    // Looks at the state of a course: makes the next call of each run, or ends the case if none continues and error is
    // looked for.
    #[tactic(auto, using(crate::proofs::Kept::further_self, crate::proofs::Keeping::keeping_rules))]
    fn expand(&mut self, course: &Course) -> Result<(), NoMemory>
        requires search { IsSearch self.old }
        requires state { IsState self.old.aim self.old.met.scripts.now course.now }
        ensures further { OnOk result (IsFurther self.old self.new) }
        ensures closed { OnOk result (IsClosedFrom self.new (past_of course.now)) }
        ensures stuck { OnOk result (self.old.aim ≡ Error → AreHeld self.old.met.scripts.now (past_of course.now)
            → carried_on (past_of course.now) 0 < slice_index_or self.new.found.reached.items 0 0) }
    {
        let mut goes_on = false;
        for run in 0..self.met.scripts.len() as u16 {
            let is_on = self.try_run(course, Run(run))?;
            goes_on = goes_on || is_on;
        }
        if goes_on || level(self.aim) < level(Verdict::Error) {
            return Ok(());
        }
        let stuck = with_stuck(course.copied(self.met.alloc)?, self.met.scripts)?;
        if is_found(&self.found.witnesses, Verdict::Error) {
            reach(&mut self.found.reached, self.met.scripts, &stuck);
            return Ok(());
        }
        note(self.met.alloc, self.met.scripts, stuck, &mut self.found)
    }
}

/// What searches have found, how many states one looked at, at most, and whether the last came to its end within its limit.
#[derive(Drop)]
pub(crate) struct Searched {
    pub(crate) found: Findings,
    pub(crate) states: usize,
    pub(crate) is_whole: bool,
}

/// Makes the calls of all runs from each state that is met, within a limit. It comes to its end unless it meets the limit.
/// Then for each complete course whose verdict is no worse than is looked for, a verdict is found that is as bad.
#[tactic(auto, using(tc_course::proofs::Lemmas::turn_rules, crate::proofs::Seeing::seeing_rules, crate::proofs::Keeping::open_opening))]
pub(crate) fn search_all(
    aim: Verdict,
    alloc: Global,
    scripts: &[Script],
    limit: usize,
    found: Findings,
) -> Result<Searched, NoMemory>
    requires some { 1 ≤ length scripts.now }
    requires few { length scripts.now ≤ BEHAVIOURS }
    requires found { IsNoted scripts.now found }
    ensures found { IfOk result (λ s. IsNoted scripts.now s.found) }
    ensures more_found { IfOk result (λ s. IsLonger found.witnesses.items s.found.witnesses.items) }
    ensures more { IfOk result (λ s. IsNoLess found.reached.items s.found.reached.items) }
    ensures met { IfOk result (λ s. AreAllMet scripts.now s.found.reached.items s.states) }
    ensures complete { IfOk result (λ s. s.is_whole ≡ true → AllTold aim scripts.now s.found.witnesses.items) }
    ensures within { IfOk result (λ s. s.states ≤ limit) }
    ensures full { IfOk result (λ s. s.is_whole ≡ false → s.states ≡ limit) }
{
    let met = Met {
        alloc,
        scripts,
        states: Vec::new(alloc),
        keys: IndexSet::new(alloc),
        limit,
        is_whole: true,
    };
    let mut search = Search { aim, met, found };
    search.keep(Course::opening(alloc, scripts.len() as u16)?)?;
    let mut at = 0;
    while at < search.met.states.len() {
        let course = search.met.states[at].course(alloc)?;
        search.expand(&course)?;
        at += 1;
    }
    Ok(Searched {
        states: search.met.keys.len(),
        is_whole: search.met.is_whole,
        found: search.found,
    })
}
