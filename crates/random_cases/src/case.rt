//! One case on as many threads as behaviours.
ghost use Rattle.std.specs.Prelude.{◌≤◌};
ghost use Rattle.tc_entry.specs.declared.limits.TheConstants.{BEHAVIOURS};

use crate::calls::follow;
use crate::lead::lead;
use crate::random::Random;
use std::alloc::Global;
use std::sync::Wait;
use std::thread;
use std::thread::{JoinHandle, Threads};
use tc_book::{CloseFault, Closed, Left, Pass, Ticket, close_case, open_case};
use tc_entry::NoMemory;

/// The behaviour of a run other than run 0.
fn work<R: Wait>(rt: &R, ticket: Ticket, seed: u64, behaviours: u16) -> Left {
    let mut random = Random::new(seed);
    match ticket.await_start(rt) {
        Ok(mut pass) => {
            // A halt ends the behaviour, as its last call does.
            let _ = follow(rt, &mut pass, &mut random, behaviours);
            pass.leave(rt)
        }
        Err(left) => left,
    }
}

/// A thread for each run but run 0.
fn start_workers<R: Threads + Wait + Copy + Send + 'static>(
    rt: &R,
    alloc: Global,
    tickets: Vec<Ticket>,
    random: &mut Random,
    behaviours: u16,
) -> Result<Vec<JoinHandle<Left>>, NoMemory> {
    let rt = *rt;
    let mut handles = Vec::new(alloc);
    for ticket in tickets {
        let seed = u64::from(random.below(1_000_000));
        let Ok(handle) = thread::spawn(&rt, move || work(&rt, ticket, seed, behaviours)) else {
            return Err(NoMemory);
        };
        handles.push(handle)?;
    }
    Ok(handles)
}

/// Adds what the workers leave. Whether there was memory for all.
fn join_all<R: Threads + Wait>(
    rt: &R,
    handles: Vec<JoinHandle<Left>>,
    lefts: &mut Vec<Left>,
) -> bool {
    let mut are_added = true;
    for handle in handles {
        let is_added = lefts.push(handle.join(rt)).is_ok();
        are_added = are_added && is_added;
    }
    are_added
}

/// Runs the behaviours of a case, and adds what they leave. Whether there was memory for all.
fn run_all<R: Threads + Wait + Copy + Send + 'static>(
    rt: &R,
    alloc: Global,
    random: &mut Random,
    behaviours: u16,
    pass: Pass,
    tickets: Vec<Ticket>,
    lefts: &mut Vec<Left>,
) -> bool {
    let mut pass = pass;
    let Ok(handles) = start_workers(rt, alloc, tickets, random, behaviours) else {
        return false;
    };
    // A halt ends the behaviour, as its last call does.
    let _ = lead(rt, &mut pass, random, behaviours);
    let is_added = lefts.push(pass.leave(rt)).is_ok();
    let are_added = join_all(rt, handles, lefts);
    is_added && are_added
}

/// One case of random calls, with its report.
pub(crate) fn run_case<R: Threads + Wait + Copy + Send + 'static>(
    rt: &R,
    alloc: Global,
    random: &mut Random,
    behaviours: u16,
) -> Result<Closed, CloseFault>
    requires some { 1 ≤ behaviours }
    requires few { behaviours ≤ BEHAVIOURS }
{
    let Ok((shared, pass, tickets)) = open_case(alloc, behaviours) else {
        return Err(CloseFault::NoMemory);
    };
    let mut lefts = Vec::new(alloc);
    if run_all(rt, alloc, random, behaviours, pass, tickets, &mut lefts) {
        close_case(rt, alloc, shared, lefts)
    } else {
        Err(CloseFault::NoMemory)
    }
}
