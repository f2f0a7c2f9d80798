//! A step of a scripted behaviour.
ghost use Rattle.std.specs.Prelude.{◌↔◌, ◌∷◌, IsTrue, All};
ghost use Rattle.tc_step.specs.Steps.{IsBound, places};

use crate::place::{GroupPlace, Place, Places, TargetPlace};
use tc_entry::Name;
use tc_verdict::{Run, UserVerdict};

/// What is asked of components (ES 201 873-1, test component operations).
#[derive(Clone, Copy, PartialEq, Eq, Debug)]
pub enum Status {
    Running,
    Alive,
    Done,
    Killed,
}

/// A step of a scripted behaviour: the call of an operation, with places for its components.
#[derive(PartialEq, Eq, Debug, Drop)]
pub enum Step {
    /// Creates a component, which is bound from here on. A name is what it is called in the report; it binds nothing.
    Create { alive: bool, name: Option<Name> },
    /// Starts a run on a component.
    Start { on: Place, run: Run, args: Places },
    /// Stops components.
    Stop(GroupPlace),
    /// Kills components.
    Kill(GroupPlace),
    /// Ends the test case with the verdict error.
    StopCase,
    /// Asks whether components are running, alive, done or killed.
    Ask(Status, TargetPlace),
    /// Waits until components are done, or killed.
    Wait { killed: bool, target: TargetPlace },
    /// Sets the local verdict.
    SetVerdict(UserVerdict),
    /// Asks for the local verdict.
    GetVerdict,
}

#[tactic(auto, using(crate::proofs::Binding::cons_rules))]
fn is_start_bound(on: Place, args: &Places, count: usize) -> bool
    ensures { IsTrue result ↔ All (IsBound count) (on ∷ args.now) }
{
    on.is_bound(count) && args.as_slice().iter().all(|place| place.is_bound(count))
}

impl Step {
    /// Whether each place of the step is one of a behaviour that has that many components bound.
    pub(crate) fn is_bound(&self, count: usize) -> bool
        ensures { IsTrue result ↔ All (IsBound count) (places self.now) }
    {
        match self {
            Step::Start { on, args, .. } => is_start_bound(*on, args, count),
            Step::Stop(GroupPlace::One(place))
            | Step::Kill(GroupPlace::One(place))
            | Step::Ask(_, TargetPlace::One(place))
            | Step::Wait {
                target: TargetPlace::One(place),
                ..
            } => place.is_bound(count),
            _ => true,
        }
    }
}
