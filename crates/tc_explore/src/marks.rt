//! The local verdicts that a search has found.
ghost use Rattle.std.specs.Prelude.{◌≡◌, ◌≤◌, ◌<◌, true, [], OnOk, length};
ghost use Rattle.tc_entry.specs.declared.limits.TheConstants.{BEHAVIOURS};
ghost use Rattle.tc_rules.specs.Prelude.{past_of, is_over};
ghost use Rattle.tc_course.specs.Prelude.{IsComplete, IsOn};
ghost use Rattle.tc_explore.specs.{Found.AreLocals, Inside.Twins.HasLocal, Inside.Twins.HasLocals, Inside.Twins.IsMarked, Inside.Twins.IsMore};

use crate::findings::step_all;
use std::alloc::Global;
use tc_course::{Course, level};
use tc_entry::{Comp, Entry, Name};
use tc_rules::name_of;
use tc_step::Script;
use tc_verdict::NoMemory;

/// The verdicts that each component was found with, and the names of the components.
#[derive(Drop)]
pub(crate) struct Marks {
    pub(crate) found: Vec<bool>,
    pub(crate) names: Vec<Option<Name>>,
}

// Marks a place, after places in which nothing is found.
#[tactic(auto, using(crate::proofs::Marking::marking_rules))]
fn mark(found: &mut Vec<bool>, at: usize) -> Result<(), NoMemory>
    requires { at < 100000000000 }
    ensures { OnOk result (IsMarked found.old.items found.new.items at) }
{
    while found.len() <= at {
        found.push(false)?;
    }
    found[at] = true;
    Ok(())
}

// Takes in the name that the component has in a course which shows a verdict of it first.
fn name(names: &mut Vec<Option<Name>>, history: &[Entry], comp: u32) -> Result<(), NoMemory> {
    let given = name_of(history, Comp(comp));
    let at = comp as usize;
    if at >= names.len() {
        names.push(given.map(Name::copy))?;
        return Ok(());
    }
    let is_same = match (&names[at], given) {
        (Some(known), Some(given)) => known.same(given),
        _ => false,
    };
    if !is_same {
        names[at] = None;
    }
    Ok(())
}

impl Marks {
    /// Nothing is found.
    pub(crate) fn new(alloc: Global) -> Marks
        ensures { result.found.items ≡ [] }
    {
        Marks {
            found: Vec::new(alloc),
            names: Vec::new(alloc),
        }
    }

    // Notes the local verdict of a component in a complete course, if it is new.
    #[tactic(auto, using(crate::proofs::Marking::marking_rules))]
    fn note_one(&mut self, scripts: &[Script], course: &Course, comp: u32) -> Result<(), NoMemory>
        requires on { IsOn scripts.now course.now }
        requires complete { IsComplete scripts.now (past_of course.now) }
        requires sound { AreLocals scripts.now self.old.found.items }
        ensures sound { OnOk result (AreLocals scripts.now self.new.found.items) }
        ensures more { OnOk result (IsMore self.old.found.items self.new.found.items) }
        ensures has { OnOk result (HasLocal self.new.found.items (past_of course.now) comp) }
    {
        let Some(verdict) = course.local(comp) else {
            return Ok(());
        };
        let at = comp as usize * 5 + level(verdict) as usize;
        if at < self.found.len() && self.found[at] {
            return Ok(());
        }
        name(&mut self.names, course.history(), comp)?;
        mark(&mut self.found, at)?;
        Ok(())
    }

    // Notes the local verdicts of all components in a complete course.
    #[tactic(auto, using(crate::proofs::Marking::marking_rules))]
    fn note_all(&mut self, scripts: &[Script], course: &Course) -> Result<(), NoMemory>
        requires on { IsOn scripts.now course.now }
        requires complete { IsComplete scripts.now (past_of course.now) }
        requires sound { AreLocals scripts.now self.old.found.items }
        ensures sound { OnOk result (AreLocals scripts.now self.new.found.items) }
        ensures more { OnOk result (IsMore self.old.found.items self.new.found.items) }
        ensures has { OnOk result (HasLocals self.new.found.items (past_of course.now)) }
    {
        for comp in 0..course.components() {
            self.note_one(scripts, course, comp)?;
        }
        Ok(())
    }

    /// Notes the local verdicts at the end of a case that is over; each run makes its last call first, which is replied
    /// Ended.
    #[tactic(auto, using(crate::proofs::Marking::marking_rules))]
    pub(crate) fn note(&mut self, scripts: &[Script], course: Course) -> Result<(), NoMemory>
        requires few { length scripts.now ≤ BEHAVIOURS }
        requires on { IsOn scripts.now course }
        requires over { is_over (past_of course) ≡ true }
        requires sound { AreLocals scripts.now self.old.found.items }
        ensures sound { OnOk result (AreLocals scripts.now self.new.found.items) }
        ensures more { OnOk result (IsMore self.old.found.items self.new.found.items) }
        ensures has { OnOk result (HasLocals self.new.found.items (past_of course)) }
    {
        let ended = step_all(course, scripts)?;
        self.note_all(scripts, &ended)?;
        Ok(())
    }
}
