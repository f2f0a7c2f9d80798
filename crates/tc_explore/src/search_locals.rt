//! The search for local verdicts. It follows the calls of all runs, one by one.
ghost use Rattle.std.specs.Prelude.{◌≡◌, ◌≤◌, ◌<◌, true, IfOk, OnOk, length};
ghost use Rattle.tc_entry.specs.declared.limits.TheConstants.{BEHAVIOURS};
ghost use Rattle.tc_rules.specs.Prelude.{past_of};
ghost use Rattle.tc_course.specs.declared.found.Ending.TheVariants.{Complete, Undecided};
ghost use Rattle.tc_course.specs.declared.found.Limit.{Limit as MetLimit};
ghost use Rattle.tc_explore.specs.{Found.{AllLocalsFound, AreLocals, HasCourses}, Inside.{Locals.{AreLocalsRuns, IsLocalFurther, IsLocalSearch, IsLocalsRun}, Twins.IsGoing}};

use crate::limits::{Most, ending_of};
use crate::marks::Marks;
use crate::search::Met;
use indexmap::IndexSet;
use std::alloc::Global;
use tc_course::{Course, Locals, next_call};
use tc_entry::Sequence;
use tc_step::Script;
use tc_verdict::{NoMemory, Run};

/// A search for local verdicts: the states that it has met, and what it has found.
#[derive(Drop)]
pub(crate) struct LocalSearch<'a> {
    pub(crate) met: Met<'a>,
    pub(crate) marks: Marks,
}

impl<'a> LocalSearch<'a> {
    // Makes the next call of a run, if it continues, and takes in what it leads to, or notes its local verdicts.
    fn try_run(&mut self, course: &Course, run: Run) -> Result<(), NoMemory>
        requires within { run.0 < length self.old.met.scripts.now }
        requires search { IsLocalSearch self.old }
        requires state { IsGoing self.old.met.scripts.now course.now }
        ensures further { OnOk result (IsLocalFurther self.old self.new) }
        ensures closed { OnOk result (IsLocalsRun self.new (past_of course.now) run.0) }
    {
        if !course.is_active(run) {
            return Ok(());
        }
        let Some(op) = next_call(course, self.met.scripts, run) else {
            return Ok(());
        };
        let next = course.copied(self.met.alloc)?.with(run, op)?;
        if next.is_over() {
            return self.marks.note(self.met.scripts, next);
        }
        self.met.place(&next, true)
    }

    // Makes the next call of each run.
    fn expand(&mut self, course: &Course) -> Result<(), NoMemory>
        requires search { IsLocalSearch self.old }
        requires state { IsGoing self.old.met.scripts.now course.now }
        ensures further { OnOk result (IsLocalFurther self.old self.new) }
        ensures closed { OnOk result (AreLocalsRuns self.new (past_of course.now) (length self.old.met.scripts.now)) }
    {
        for run in 0..self.met.scripts.len() as u16 {
            self.try_run(course, Run(run))?;
        }
        Ok(())
    }
}

/// Makes the calls of all runs from each state that is met, within a limit. It comes to its end unless it meets the
/// limit, and then the local verdicts of each complete course are found.
#[tactic(auto, using(tc_course::proofs::Lemmas::turn_rules, crate::proofs::LocalsClosed::going_same))]
pub(crate) fn search_locals(
    alloc: Global,
    scripts: &[Script],
    most: Most,
) -> Result<Locals, NoMemory>
    requires some { 1 ≤ length scripts.now }
    requires few { length scripts.now ≤ BEHAVIOURS }
    ensures sound { IfOk result (λ l. AreLocals scripts.now l.found) }
    ensures complete { IfOk result (λ l. l.ending ≡ Complete → AllLocalsFound scripts.now l.found) }
    ensures met { IfOk result (λ l. HasCourses scripts.now l.states) }
    ensures within { IfOk result (λ l. l.states ≤ most.states) }
    ensures undecided { IfOk result (λ l. (m : MetLimit) → l.ending ≡ Undecided m → (l.states ≡ most.states) × (m ≡ most.limit)) }
{
    let met = Met {
        alloc,
        scripts,
        states: Vec::new(alloc),
        keys: IndexSet::new(alloc),
        limit: most.states,
        is_whole: true,
    };
    let mut search = LocalSearch {
        met,
        marks: Marks::new(alloc),
    };
    search
        .met
        .place(&Course::opening(alloc, scripts.len() as u16)?, true)?;
    let mut at = 0;
    while at < search.met.states.len() {
        let course = search.met.states[at].course(alloc)?;
        search.expand(&course)?;
        at += 1;
    }
    Ok(Locals {
        states: search.met.keys.len(),
        ending: ending_of(search.met.is_whole, most.limit),
        found: Sequence::new(search.marks.found),
        names: Sequence::new(search.marks.names),
    })
}
