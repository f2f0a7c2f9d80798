//! Many cases with random calls, on as many threads as behaviours: each report is replayed, and what was met is counted.
#![tactic(auto)]

mod calls;
mod case;
mod cases;
mod judge;
mod lead;
mod met;
mod random;
mod task;

use crate::cases::run_cases;
use crate::judge::sees_lost_settings;
use crate::task::{read_task, reads_tasks};
use std::alloc::Global;
use std::process::ExitCode;
use std::sync::Wait;
use std::thread::Threads;
use std::{env, io};

/// Prints whether a lost setting is seen, and whether the words of tasks are read; answers whether both are so.
fn tell_own<R: Print>(rt: &R, alloc: Global) -> io::Result<bool> {
    let (sees, reads) = (sees_lost_settings(), reads_tasks(alloc)?);
    println!(rt; "lost settings are seen: {sees}\ntasks are read: {reads}")?;
    Ok(sees && reads)
}

/// The status: 0 if all is well, 1 if a report is not as it should be or too little was met, 3 if the arguments ask for
/// nothing.
fn run<R: Threads + Wait + Print + Eprint + Copy + Send + 'static>(
    rt: &R,
    alloc: Global,
    words: &[String],
) -> io::Result<u8> {
    let Some(task) = read_task(words) else {
        eprintln!(rt; "usage: random_cases [CASES [SEED]]")?;
        return Ok(3);
    };
    let is_well = tell_own(rt, alloc)?;
    match run_cases(rt, alloc, task) {
        Ok(met) => Ok(u8::from(!(met.tell(rt, task.cases)? && is_well))),
        Err(refusal) => {
            println!(rt;
                "case {} of seed {}: {}",
                refusal.case, task.seed, refusal.why
            )?;
            Ok(1)
        }
    }
}

fn words(rt: &HostRuntime) -> io::Result<Vec<String>> {
    Ok(env::args(rt)?.collect(rt.alloc())?)
}

fn main(rt: HostRuntime) -> ExitCode {
    let answer = match words(&rt) {
        Ok(words) => run(&rt, rt.alloc(), words.as_slice()),
        Err(error) => Err(error),
    };
    match answer {
        Ok(status) => ExitCode::from(status),
        Err(_) => ExitCode::from(3),
    }
}
