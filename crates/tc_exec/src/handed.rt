//! What a run hands back to the executor.
ghost use Rattle.std.specs.Prelude.{◌≡◌};
ghost use Rattle.tc_exec.specs.{Inside.{HasActed, IsWorked}, Workers.HasLeft};

use crate::callable::Callable;
use crate::job::{Back, Ending};
use std::sync::Wait;
use tc_book::{Left, Pass, Ticket};

/// What a run left, and why its behaviour came back. Only `act`, `work` and `pass_by` make one.
#[derive(Drop)]
pub(crate) struct Handed {
    left: Left,
    ending: Ending,
}

impl Handed {
    /// What the run left, and why its behaviour came back.
    pub(crate) fn into_parts(self) -> (Left, Ending)
        ensures { (result.0 ≡ self.left) × (result.1 ≡ self.ending) }
    {
        (self.left, self.ending)
    }
}

/// Calls a behaviour with this pass, and leaves the pass that it hands back.
pub(crate) fn act<R: Wait, B: Callable>(rt: &R, behaviour: B, pass: Pass) -> Handed
    ensures { HasActed (B.outcome behaviour pass) result }
{
    let Back { pass, ending } = behaviour.call(pass);
    Handed {
        left: pass.leave(rt),
        ending,
    }
}

/// Leaves a pass with which no behaviour is called.
#[tactic(auto, using(crate::proofs::Lemmas::Calls::has_left))]
pub(crate) fn pass_by<R: Wait>(rt: &R, pass: Pass) -> Handed
    ensures { HasLeft pass result.left }
{
    Handed {
        left: pass.leave(rt),
        ending: Ending::Returned,
    }
}

/// Waits until the run is started, then calls the behaviour once with the run's pass. If the run is never started,
/// drops the behaviour.
pub(crate) fn work<R: Wait, B: Callable>(rt: &R, behaviour: B, ticket: Ticket) -> Handed
    ensures { IsWorked ticket (B.outcome behaviour) result }
{
    match ticket.await_start(rt) {
        Ok(pass) => act(rt, behaviour, pass),
        Err(left) => Handed {
            left,
            ending: Ending::Returned,
        },
    }
}
