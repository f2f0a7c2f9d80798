//! The behaviours of the case.
use std::sync::Wait;
use tc_book::{Halt, Pass};
use tc_entry::{Args, Run, Target, UserVerdict};
use tc_exec::Back;

/// The behaviour of run 0: it creates a component, starts run 1 on it, and sets pass once that is done.
pub(crate) fn lead<R: Wait>(rt: &R, pass: Pass) -> Back {
    let mut pass = pass;
    let made = lead_calls(rt, &mut pass);
    Back::after(pass, made)
}

fn lead_calls<R: Wait>(rt: &R, pass: &mut Pass) -> Result<(), Halt> {
    let probe = pass.create(rt, false)?;
    let mut args = Args::new();
    args.push(pass.me());
    pass.start(rt, probe, Run(1), &args)?;
    pass.wait_done(rt, Target::One(probe))?;
    pass.set_verdict(UserVerdict::Pass)
}

/// From how many degrees on the device is in danger.
const TOO_HOT: u32 = 90;

/// How hot the device is, in degrees: here always the same; a test would ask its device.
fn degrees() -> u32 {
    40
}

/// Ends the test case if the device is too hot to continue.
pub(crate) fn guard<R: Wait>(rt: &R, pass: &mut Pass, degrees: u32) -> Result<(), Halt> {
    if degrees < TOO_HOT {
        return Ok(());
    }
    pass.stop_case(rt)
}

/// The behaviour of run 1: it ends the test case if the device is too hot, and sets inconc if the component that is its
/// argument is running.
pub(crate) fn probe<R: Wait>(rt: &R, pass: Pass) -> Back {
    let mut pass = pass;
    let made = match guard(rt, &mut pass, degrees()) {
        Ok(()) => probe_calls(rt, &mut pass),
        Err(halt) => Err(halt),
    };
    Back::after(pass, made)
}

fn probe_calls<R: Wait>(rt: &R, pass: &mut Pass) -> Result<(), Halt> {
    let [main] = *pass.args() else {
        return Ok(());
    };
    if pass.running(rt, Target::One(main))? {
        pass.set_verdict(UserVerdict::Inconc)?;
    }
    Ok(())
}
