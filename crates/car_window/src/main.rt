//! Judges a device: a campaign on car windows, with the options of `ttrun run`.
#![tactic(auto)]

mod behaviour;
mod cases;
#[cfg(test)]
mod tests;
mod window;

use crate::cases::cases;
use std::process::ExitCode;
use std::{env, io};
use tc_program::answer_cases;

/// The arguments, of which the first is the program's name.
fn words(rt: &HostRuntime) -> io::Result<Vec<String>> {
    Ok(env::args(rt)?.collect(rt.alloc())?)
}

fn main(rt: HostRuntime) -> ExitCode {
    let alloc = rt.alloc();
    let outcome = answer_cases(
        &rt,
        alloc,
        words(&rt),
        cases(rt, alloc),
        &mut io::writer(&rt),
        &mut rt.stderr(),
    );
    ExitCode::from(outcome.status)
}
