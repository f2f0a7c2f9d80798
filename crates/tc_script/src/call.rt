//! The call of one step.
ghost use Rattle.std.specs.Prelude.{◌≡◌, false, is_ok, not};
ghost use Rattle.tc_rules.specs.Prelude.{Op, Reply};
ghost use Rattle.tc_book.specs.Prelude.{has_ended, IsCall, IsWait};
ghost use Rattle.tc_step.specs.Prelude.{question};
ghost use Rattle.tc_script.specs.Inside.{is_refused, IsCarriedOut};

use std::sync::Wait;
use tc_book::{Halt, Pass};
use tc_entry::{Comp, Name, Target};
use tc_step::{Status, Step, arguments, component, group, target};
use tc_verdict::NoMemory;

/// Whether a call was carried out; it was, too, if it was replied Ended or by a dynamic error.
fn carried_out<T: Drop>(answer: Result<T, Halt>) -> Result<(), NoMemory>
    ensures { is_ok result ≡ not (is_refused answer) }
{
    match answer {
        Err(Halt::NoMemory) => Err(NoMemory),
        _ => Ok(()),
    }
}

/// Creates a component, and gives it a name if there is one.
fn make<R: Wait>(rt: &R, pass: &mut Pass, alive: bool, name: &Option<Name>) -> Result<Comp, Halt>
    ensures { IsCall Reply.Made (Op.Create alive name.now) pass.old pass.new result }
{
    match name {
        Some(name) => pass.create_named(rt, alive, name.copy()),
        None => pass.create(rt, alive),
    }
}

/// Creates a component, which is bound then. The room for it is made first.
#[tactic(auto, using(crate::proofs::Carrying::create_halted))]
fn create<R: Wait>(
    rt: &R,
    pass: &mut Pass,
    bound: &mut Vec<Comp>,
    alive: bool,
    name: &Option<Name>,
) -> Result<(), NoMemory>
    requires { has_ended pass.old ≡ false }
    ensures { IsCarriedOut (Step.Create alive name.now) bound.old.items pass.old bound.new.items pass.new result }
{
    if bound.reserve(1).is_err() {
        return Err(NoMemory);
    }
    match make(rt, pass, alive, name) {
        Ok(comp) => {
            bound.push_reserved(comp);
            Ok(())
        }
        Err(halt) => carried_out::<Comp>(Err(halt)),
    }
}

/// Asks a status of components.
fn ask<R: Wait>(rt: &R, pass: &mut Pass, status: Status, target: Target) -> Result<bool, Halt>
    ensures { IsCall Reply.Answer (question status target) pass.old pass.new result }
{
    match status {
        Status::Running => pass.running(rt, target),
        Status::Alive => pass.alive(rt, target),
        Status::Done => pass.done(rt, target),
        Status::Killed => pass.killed(rt, target),
    }
}

/// Waits for components.
fn wait<R: Wait>(rt: &R, pass: &mut Pass, killed: bool, target: Target) -> Result<(), Halt>
    ensures { IsWait killed target pass.old pass.new result }
{
    if killed {
        pass.wait_killed(rt, target)
    } else {
        pass.wait_done(rt, target)
    }
}

#[tactic(auto, using(crate::proofs::Carrying::plain_step, crate::proofs::Carrying::wait_step))]
/// Makes the call of a step where these components are bound. It returns whether the call was carried out.
pub(crate) fn call<R: Wait>(
    rt: &R,
    pass: &mut Pass,
    bound: &mut Vec<Comp>,
    step: &Step,
) -> Result<(), NoMemory>
    requires { has_ended pass.old ≡ false }
    ensures { IsCarriedOut step.now bound.old.items pass.old bound.new.items pass.new result }
{
    let me = pass.me();
    match step {
        Step::Create { alive, name } => create(rt, pass, bound, *alive, name),
        Step::Start { on, run, args } => {
            let comp = component(me, bound, *on);
            let args = arguments(me, bound, args);
            carried_out(pass.start(rt, comp, *run, &args))
        }
        Step::Stop(named) => carried_out(pass.stop(rt, group(me, bound, *named))),
        Step::Kill(named) => carried_out(pass.kill(rt, group(me, bound, *named))),
        Step::Ask(status, named) => carried_out(ask(rt, pass, *status, target(me, bound, *named))),
        Step::Wait {
            killed,
            target: named,
        } => carried_out(wait(rt, pass, *killed, target(me, bound, *named))),
        Step::StopCase => carried_out(pass.stop_case(rt)),
        Step::SetVerdict(value) => carried_out(pass.set_verdict(*value)),
        Step::GetVerdict => carried_out(pass.get_verdict()),
    }
}
