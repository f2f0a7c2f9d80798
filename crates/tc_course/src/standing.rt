//! What is known of one run.
ghost use Rattle.std.specs.Prelude.{◌≡◌, [], IfOk, OnOk, option_copied, slice_get};
ghost use Rattle.tc_course.specs.Inside.{call_of};
ghost use Rattle.tc_course.specs.Course as courses;

use crate::entries::{arguments, is_wake, wake_after};
use std::alloc::Global;
use std::marker::Model;
use tc_entry::{Comp, Entry, Op};
use tc_rules::{created, ends_pass, started_on};
use tc_step::Step;
use tc_verdict::NoMemory;

/// What is known of a run by the entries so far.
#[derive(Drop)]
pub struct Standing {
    comp: Option<Comp>,
    bound: Vec<Comp>,
    called: usize,
    left: bool,
    wake: Option<Op>,
}

impl Model for Standing {
    ghost use Rattle.tc_course.specs.Course.{CourseState};

    ghost Value = { CourseState };

    ghost view = { λ s. record { comp = s.comp; bound = s.bound.items; called = s.called; left = s.left; wake = s.wake } };
}

// The call of the step at this place; after the last step, the end of the behaviour.
fn call_at(me: Comp, bound: &[Comp], steps: &[Step], at: usize) -> Op
    ensures { result ≡ call_of me bound.now (slice_get steps.now at) }
{
    match steps.get(at) {
        Some(step) => step.operation(me, bound),
        None => Op::Finish,
    }
}

impl Standing {
    /// At the opening of the case run 0 is on the main component.
    pub fn opening(alloc: Global, run: u16) -> Standing
        ensures { result ≡ courses.stand [] run }
    {
        Standing {
            comp: if run == 0 { Some(Comp(0)) } else { None },
            bound: Vec::new(alloc),
            called: 0,
            left: false,
            wake: None,
        }
    }

    /// The same standing.
    pub(crate) fn copied(&self, alloc: Global) -> Result<Standing, NoMemory>
        ensures { IfOk result (λ s. s ≡ self.now) }
    {
        let mut bound = Vec::with_capacity(alloc, self.bound.len())?;
        bound.extend_from_slice(self.bound.as_slice())?;
        Ok(Standing {
            comp: self.comp,
            bound,
            called: self.called,
            left: self.left,
            wake: self.wake.as_ref().map(Op::copy),
        })
    }

    // Takes in an entry of the run itself.
    fn take_own(&mut self, entry: &Entry) -> Result<(), NoMemory>
        ensures { OnOk result (self.new ≡ courses.after_own entry.now self.old) }
    {
        if let Some(comp) = created(&entry.op, entry.reply) {
            self.bound.push(comp)?;
        }
        if !is_wake(&entry.op) {
            self.called = self.called.checked_add(1).ok_or(NoMemory)?;
        }
        if let Some(own) = self.comp
            && ends_pass(own, entry)
        {
            self.left = true;
        }
        self.wake = wake_after(entry);
        Ok(())
    }

    // Takes in an entry of another run.
    fn take_other(&mut self, entry: &Entry, run: u16) -> Result<(), NoMemory>
        ensures { OnOk result (self.new ≡ courses.after_other_by self.old.comp entry.now run self.old) }
    {
        if self.comp.is_some() {
            return Ok(());
        }
        if let Some(comp) = started_on(entry, run) {
            self.comp = Some(comp);
            self.bound.clear();
            self.bound.extend_from_slice(arguments(&entry.op))?;
        }
        Ok(())
    }

    /// Takes in one more entry. If memory runs out the standing is of no more use.
    pub fn take_in(&mut self, entry: &Entry, run: u16) -> Result<(), NoMemory>
        ensures { OnOk result (self.new ≡ courses.next entry.now run self.old) }
    {
        if entry.caller.0 == run {
            self.take_own(entry)
        } else {
            self.take_other(entry, run)
        }
    }

    /// What the run calls next, if it was started and its pass has not ended.
    pub(crate) fn turn(&self, steps: &[Step]) -> Option<Op>
        ensures { result ≡ courses.turn_on self.now.comp steps.now self.now }
    {
        let me = self.comp?;
        if self.left {
            return None;
        }
        match &self.wake {
            Some(wake) => Some(wake.copy()),
            None => Some(call_at(me, &self.bound, steps, self.called)),
        }
    }

    /// The component that the run was started on, if it was.
    pub fn comp(&self) -> Option<Comp>
        ensures { result ≡ self.now.comp }
    {
        self.comp
    }

    /// The components that are bound in it: its arguments, and what it created.
    pub fn bound(&self) -> &[Comp]
        ensures { result.now ≡ self.now.bound }
    {
        self.bound.as_slice()
    }

    /// How many of its steps it has called.
    pub fn called(&self) -> usize
        ensures { result ≡ self.now.called }
    {
        self.called
    }

    /// Whether its pass has ended.
    pub fn has_left(&self) -> bool
        ensures { result ≡ self.now.left }
    {
        self.left
    }

    /// The Wake to come, if its last call was parked.
    pub fn wake(&self) -> Option<&Op>
        ensures { option_copied result ≡ self.now.wake }
    {
        self.wake.as_ref()
    }
}
