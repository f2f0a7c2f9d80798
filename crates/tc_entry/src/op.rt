//! The operations of a behaviour, and which components they are about.
ghost use Rattle.std.specs.Prelude.{◌≡◌, IsTrue, ◌↔◌};
ghost use Rattle.tc_entry.specs.Limits as limits;

use crate::args::Args;
use crate::comp::Comp;
use crate::name::Name;
use tc_verdict::{Run, UserVerdict};

/// Which components a status operation or a wait is about: one, any parallel one, all parallel ones.
#[derive(Clone, Copy, PartialEq, Eq, Debug)]
pub enum Target {
    One(Comp),
    Any,
    All,
}

/// Which components are stopped or killed: one, or all parallel ones.
#[derive(Clone, Copy, PartialEq, Eq, Debug)]
pub enum Group {
    One(Comp),
    All,
}

/// An operation of a behaviour (ES 201 873-1, test component operations and verdict operations).
///
/// `Wait` and `Wake` are this project's own: a wait on done or killed is a `Wait`, and, if that is parked, a later
/// `Wake`. `Finish` is the end of a behaviour. `StopCase` is the standard's testcase.stop.
#[derive(PartialEq, Eq, Debug, Drop)]
pub enum Op {
    /// Makes a component, alive-type or ordinary; a name is for a reader of the report, and refers to nothing.
    Create { alive: bool, name: Option<Name> },
    Start { comp: Comp, run: Run, args: Args },
    Stop(Group),
    Kill(Group),
    StopCase,
    Running(Target),
    Alive(Target),
    Done(Target),
    Killed(Target),
    Wait { killed: bool, target: Target },
    Wake { killed: bool, target: Target },
    SetVerdict(UserVerdict),
    GetVerdict,
    Finish,
}

impl Group {
    /// Whether the component of this number is of the group: `All` is all parallel components, that is all except 0.
    pub fn is_of(self, comp: u32) -> bool
        ensures { result ≡ limits.is_of self comp }
    {
        match self {
            Group::One(one) => one.0 == comp,
            Group::All => comp != 0,
        }
    }
}

fn same_name(a: &Option<Name>, b: &Option<Name>) -> bool
    ensures { IsTrue result ↔ (a.now ≡ b.now) }
{
    match (a, b) {
        (Some(a), Some(b)) => a.same(b),
        (None, None) => true,
        _ => false,
    }
}

fn same_group(a: Group, b: Group) -> bool
    ensures { IsTrue result ↔ (a ≡ b) }
{
    a == b
}

fn same_target(a: Target, b: Target) -> bool
    ensures { IsTrue result ↔ (a ≡ b) }
{
    a == b
}

fn same_setting(a: UserVerdict, b: UserVerdict) -> bool
    ensures { IsTrue result ↔ (a ≡ b) }
{
    a == b
}

impl Op {
    /// An equal value.
    pub fn copy(&self) -> Op
        ensures { result ≡ self.now }
    {
        match self {
            Op::Create { alive, name } => Op::Create {
                alive: *alive,
                name: name.as_ref().map(Name::copy),
            },
            Op::Start { comp, run, args } => Op::Start {
                comp: *comp,
                run: *run,
                args: args.copy(),
            },
            Op::Stop(group) => Op::Stop(*group),
            Op::Kill(group) => Op::Kill(*group),
            Op::StopCase => Op::StopCase,
            Op::Running(target) => Op::Running(*target),
            Op::Alive(target) => Op::Alive(*target),
            Op::Done(target) => Op::Done(*target),
            Op::Killed(target) => Op::Killed(*target),
            Op::Wait { killed, target } => Op::Wait {
                killed: *killed,
                target: *target,
            },
            Op::Wake { killed, target } => Op::Wake {
                killed: *killed,
                target: *target,
            },
            Op::SetVerdict(setting) => Op::SetVerdict(*setting),
            Op::GetVerdict => Op::GetVerdict,
            Op::Finish => Op::Finish,
        }
    }

    /// Whether both are the same operation.
    pub fn same(&self, other: &Op) -> bool
        ensures { IsTrue result ↔ (self.now ≡ other.now) }
    {
        match (self, other) {
            (Op::Create { alive, name }, Op::Create { alive: a, name: n }) => {
                *alive == *a && same_name(name, n)
            }
            (
                Op::Start { comp, run, args },
                Op::Start {
                    comp: c,
                    run: r,
                    args: x,
                },
            ) => *comp == *c && *run == *r && args.same(x),
            (Op::Stop(a), Op::Stop(b)) | (Op::Kill(a), Op::Kill(b)) => same_group(*a, *b),
            (Op::Running(a), Op::Running(b))
            | (Op::Alive(a), Op::Alive(b))
            | (Op::Done(a), Op::Done(b))
            | (Op::Killed(a), Op::Killed(b)) => same_target(*a, *b),
            (
                Op::Wait { killed, target },
                Op::Wait {
                    killed: k,
                    target: t,
                },
            )
            | (
                Op::Wake { killed, target },
                Op::Wake {
                    killed: k,
                    target: t,
                },
            ) => { *killed == *k && same_target(*target, *t) }
            (Op::SetVerdict(a), Op::SetVerdict(b)) => same_setting(*a, *b),
            (Op::StopCase, Op::StopCase)
            | (Op::GetVerdict, Op::GetVerdict)
            | (Op::Finish, Op::Finish) => true,
            _ => false,
        }
    }
}
