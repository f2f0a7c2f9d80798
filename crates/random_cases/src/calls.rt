//! What the behaviours call.
use crate::random::Random;
use std::sync::Wait;
use tc_book::{Halt, Pass};
use tc_entry::{Args, Comp, Group, Run, Target, UserVerdict};

/// What a run sets.
fn verdict(random: &mut Random) -> UserVerdict {
    match random.below(4) {
        0 => UserVerdict::None,
        1 => UserVerdict::Pass,
        2 => UserVerdict::Inconc,
        _ => UserVerdict::Fail,
    }
}

/// Usually one of the first components.
fn target(random: &mut Random, comps: u32, main: bool) -> Target {
    match random.below(8) {
        0 if main => Target::Any,
        1 if main => Target::All,
        _ => Target::One(Comp(random.below(comps))),
    }
}

/// A call about the state of components, which halts none.
fn ask<R: Wait>(rt: &R, pass: &mut Pass, random: &mut Random, target: Target) -> Result<(), Halt> {
    match random.below(6) {
        0 => pass.running(rt, target).map(|_| ()),
        1 => pass.alive(rt, target).map(|_| ()),
        2 => pass.done(rt, target).map(|_| ()),
        3 => pass.killed(rt, target).map(|_| ()),
        4 => pass.get_verdict().map(|_| ()),
        _ => pass.set_verdict(verdict(random)),
    }
}

/// Halts one of the components up to this one. The first is only stopped, since further runs are started on it.
fn halt<R: Wait>(rt: &R, pass: &mut Pass, random: &mut Random, most: u32) -> Result<(), Halt> {
    let comp = Comp(1 + random.below(most.max(1)));
    if comp == Comp(1) || random.below(2) == 0 {
        pass.stop(rt, Group::One(comp))
    } else {
        pass.kill(rt, Group::One(comp))
    }
}

/// A call that changes the state of components, or waits for a change. No component above the most is halted.
fn act<R: Wait>(
    rt: &R,
    pass: &mut Pass,
    random: &mut Random,
    target: Target,
    most: u32,
) -> Result<(), Halt> {
    match random.below(8) {
        0 => pass.create(rt, random.below(2) == 0).map(|_| ()),
        1 | 2 => halt(rt, pass, random, most),
        3 => pass.wait_killed(rt, target),
        _ => pass.wait_done(rt, target),
    }
}

/// A call that is a dynamic error for every caller.
pub(crate) fn err<R: Wait>(rt: &R, pass: &mut Pass, random: &mut Random) -> Result<(), Halt> {
    match random.below(3) {
        0 => pass.stop(rt, Group::One(Comp(2_000))),
        1 => pass.start(rt, Comp(0), Run(1), &Args::new()),
        _ => pass.wait_done(rt, Target::One(Comp(2_000))),
    }
}

/// A behaviour of that many random calls.
pub(crate) fn behave<R: Wait>(
    rt: &R,
    pass: &mut Pass,
    random: &mut Random,
    comps: u32,
    most: u32,
) -> Result<(), Halt> {
    for _ in 0..40 {
        let target = target(random, comps, pass.run() == Run(0));
        if random.below(10) < 8 {
            ask(rt, pass, random, target)?;
        } else {
            act(rt, pass, random, target, most)?;
        }
    }
    Ok(())
}

/// A behaviour that only asks, and then stops the test case.
fn stop_late<R: Wait>(
    rt: &R,
    pass: &mut Pass,
    random: &mut Random,
    comps: u32,
) -> Result<(), Halt> {
    for _ in 0..80 {
        let target = target(random, comps, false);
        ask(rt, pass, random, target)?;
    }
    pass.stop_case(rt)
}

/// What a run above run 0 calls: it halts only components whose runs were started before it. The last may err, or stop
/// the test case.
pub(crate) fn follow<R: Wait>(
    rt: &R,
    pass: &mut Pass,
    random: &mut Random,
    behaviours: u16,
) -> Result<(), Halt> {
    let (run, comps) = (pass.run().0, u32::from(behaviours));
    let is_last = run == behaviours.saturating_sub(1);
    if is_last && random.below(6) == 0 {
        return stop_late(rt, pass, random, comps);
    }
    behave(rt, pass, random, comps, u32::from(run))?;
    if is_last && random.below(2) == 0 {
        return err(rt, pass, random);
    }
    Ok(())
}
