//! The operation that a step calls.
ghost use Rattle.std.specs.Prelude.{◌≡◌, map};
ghost use Rattle.tc_step.specs.Operation.{component as component_of, group as group_of, operation as operation_of, question as question_of, target as target_of};

use crate::place::{GroupPlace, Place, Places, TargetPlace};
use crate::step::{Status, Step};
use tc_entry::{Args, Comp, Group, Name, Op, Target};

/// The component that a place names, by the component of the behaviour and those that are bound there.
pub fn component(me: Comp, bound: &[Comp], place: Place) -> Comp
    ensures { result ≡ component_of me bound.now place }
{
    match place {
        Place::Main => Comp(0),
        Place::Own => me,
        Place::Bound(index) => bound.get(usize::from(index)).copied().unwrap_or(Comp(0)),
    }
}

/// The group that a step stops or kills.
pub fn group(me: Comp, bound: &[Comp], place: GroupPlace) -> Group
    ensures { result ≡ group_of me bound.now place }
{
    match place {
        GroupPlace::One(place) => Group::One(component(me, bound, place)),
        GroupPlace::All => Group::All,
    }
}

/// The target that a step asks about or waits for.
pub fn target(me: Comp, bound: &[Comp], place: TargetPlace) -> Target
    ensures { result ≡ target_of me bound.now place }
{
    match place {
        TargetPlace::One(place) => Target::One(component(me, bound, place)),
        TargetPlace::Any => Target::Any,
        TargetPlace::All => Target::All,
    }
}

/// The arguments of a start.
pub fn arguments(me: Comp, bound: &[Comp], places: &Places) -> Args
    ensures { result ≡ map (component_of me bound.now) places.now }
{
    let mut args = Args::new();
    for place in places.as_slice() {
        // There is room: `Places` are `ARGUMENTS` at most, as `Args` are.
        let _ = args.push(component(me, bound, *place));
    }
    args
}

// The operation that asks for a status.
fn question(status: Status, target: Target) -> Op
    ensures { result ≡ question_of status target }
{
    match status {
        Status::Running => Op::Running(target),
        Status::Alive => Op::Alive(target),
        Status::Done => Op::Done(target),
        Status::Killed => Op::Killed(target),
    }
}

impl Step {
    /// The operation that the step calls, by the component of its behaviour and those that are bound there.
    pub fn operation(&self, me: Comp, bound: &[Comp]) -> Op
        ensures { result ≡ operation_of me bound.now self.now }
    {
        match self {
            Step::Create { alive, name } => Op::Create {
                alive: *alive,
                name: name.as_ref().map(Name::copy),
            },
            Step::Start { on, run, args } => Op::Start {
                comp: component(me, bound, *on),
                run: *run,
                args: arguments(me, bound, args),
            },
            Step::Stop(named) => Op::Stop(group(me, bound, *named)),
            Step::Kill(named) => Op::Kill(group(me, bound, *named)),
            Step::Ask(status, named) => question(*status, target(me, bound, *named)),
            Step::Wait {
                killed,
                target: named,
            } => Op::Wait {
                killed: *killed,
                target: target(me, bound, *named),
            },
            Step::StopCase => Op::StopCase,
            Step::SetVerdict(value) => Op::SetVerdict(*value),
            Step::GetVerdict => Op::GetVerdict,
        }
    }
}
