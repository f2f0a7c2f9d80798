//! The behaviour of run 0.
use crate::calls::{behave, err};
use crate::random::Random;
use std::sync::Wait;
use tc_book::{Halt, Pass};
use tc_entry::{Args, Comp, Group, Run, Target};

/// Starts a run on its component, or each eighth again on the first, whose run it stops.
fn start_run<R: Wait>(
    rt: &R,
    pass: &mut Pass,
    random: &mut Random,
    run: u16,
    behaviours: u16,
) -> Result<(), Halt> {
    let mut comp = Comp(u32::from(run));
    if run % 8 == 0 {
        comp = Comp(1);
        pass.stop(rt, Group::One(comp))?;
    }
    let mut args = Args::new();
    args.push(Comp(random.below(u32::from(behaviours))));
    pass.start(rt, comp, Run(run), &args)
}

/// How run 0 ends: by itself, by an error, by a stop of the test case, or after it halted all or waited for all.
fn end<R: Wait>(rt: &R, pass: &mut Pass, random: &mut Random) -> Result<(), Halt> {
    match random.below(6) {
        0 => pass.stop(rt, Group::All),
        1 => pass.kill(rt, Group::All),
        2 => pass.wait_done(rt, Target::All),
        3 => err(rt, pass, random),
        4 => pass.stop_case(rt),
        _ => Ok(()),
    }
}

/// The behaviour of run 0: all components, the first alive-type, then all starts, random calls and an end.
pub(crate) fn lead<R: Wait>(
    rt: &R,
    pass: &mut Pass,
    random: &mut Random,
    behaviours: u16,
) -> Result<(), Halt> {
    for comp in 1..behaviours {
        pass.create(rt, comp == 1 || random.below(2) == 0)?;
    }
    for run in 1..behaviours {
        start_run(rt, pass, random, run, behaviours)?;
    }
    let comps = u32::from(behaviours);
    behave(rt, pass, random, comps, comps.saturating_sub(1))?;
    end(rt, pass, random)
}
